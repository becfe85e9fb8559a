//! `stamp sign` over readers and writers that fail at a chosen call. The codes were made outside of this repository's code.
use crate::pieces::{Pieces, Stuck};
use crate::signing::sign_on;
use hmac_sign::SigningKey;
use http_front::{Connection, FrontFault};
use std::alloc::Global;
use std::process::Abort;
use std::test::Fail;

/// RFC 4231, section 4.3: the data, and the code under the key `Jefe`, here in Base64.
const INPUT: &[u8] = b"what do ya want for nothing?";

const LINE: &[u8] = b"W9zBRr9gdU5qBCQmCJV1x1oAPwidJzmDnexYuWTsOEM=\n";

fn key(rt: &impl Abort, alloc: Global) -> SigningKey {
    SigningKey::new(b"Jefe".to_vec(alloc).expect(rt, "memory"))
}

#[test]
fn pieces_do_not_matter_and_reads_are_counted(rt: HostRuntime) {
    let table = [
        (1, 100, 29, Ok(())),
        (1, 100, 28, Err(FrontFault::Turns)),
        (8192, 100, 2, Ok(())),
        (8192, 100, 1, Err(FrontFault::Turns)),
        (1, 28, 100, Err(FrontFault::Read)),
        (1, 0, 100, Err(FrontFault::Read)),
        (1, 0, 0, Err(FrontFault::Turns)),
    ];
    let key = key(&rt, rt.alloc());
    for (most, reads, turns, answer) in table {
        let reader = Pieces {
            rest: INPUT,
            most,
            reads,
        };
        let mut connection = Connection::new(rt.alloc(), reader, Vec::new(rt.alloc()), turns);
        let result = sign_on(rt.alloc(), &mut connection, &key);
        let (_, out) = connection.into_parts();
        let line: &[u8] = if answer.is_ok() { LINE } else { b"" };
        assert_eq!(rt; result, answer, "{most} {reads} {turns}");
        assert_eq!(rt; out.as_slice(), line, "{most} {reads} {turns}");
    }
}

#[test]
fn an_input_of_many_reads_is_signed_whole(rt: HostRuntime) -> Result<(), Fail> {
    let input = vec![in rt.alloc(); b'a'; 100_000]?;
    let key = key(&rt, rt.alloc());
    let mut connection = Connection::new(rt.alloc(), input.as_slice(), Vec::new(rt.alloc()), 14);
    let result = sign_on(rt.alloc(), &mut connection, &key);
    let (_, out) = connection.into_parts();
    assert_eq!(rt; result, Ok(()));
    assert_eq!(rt;
        out.as_slice(),
        b"GZwEibqQyZMV+xt/IL9nm2H2yYN4WVoYValBkUuLdD4=\n".as_slice()
    );
    Ok(())
}

#[test]
fn a_writer_that_fails_is_told(rt: HostRuntime) {
    let key = key(&rt, rt.alloc());
    for takes in [false, true] {
        let mut connection = Connection::new(rt.alloc(), b"".as_slice(), Stuck { takes }, 1);
        let result = sign_on(rt.alloc(), &mut connection, &key);
        assert_eq!(rt; result, Err(FrontFault::Write), "{takes}");
    }
}
