//! Values of the header Authorization, beside their nearest neighbours.

use shared_key::{HeaderFault, read_authorization};
use stamp_types::Bytes;
use std::alloc::Global;
use std::process::Abort;

type Wanted = Result<(&'static str, &'static str), HeaderFault>;

// Whether `wanted` is read if the values `sent` were sent.
fn reads(rt: &impl Abort, alloc: Global, sent: &[&str], wanted: Wanted) -> bool {
    let mut values = Vec::new(alloc);
    for value in sent {
        let bytes = value.as_bytes().to_vec(alloc).expect(rt, "memory");
        values.push(Bytes::new(bytes)).expect(rt, "memory");
    }
    match (read_authorization(&values), wanted) {
        (Ok(read), Ok((account, signature))) => {
            read.account == account.as_bytes() && read.signature == signature.as_bytes()
        }
        (Err(fault), Err(wanted)) => fault == wanted,
        _ => false,
    }
}

#[test]
fn a_value_is_read_as_it_was_sent(rt: HostRuntime) {
    let table: [(&[&str], Wanted); 11] = [
        (&["SharedKey a:b"], Ok(("a", "b"))),
        (&["SharedKey   a b: c:=\t"], Ok(("a b", " c:=\t"))),
        (&["SharedKey \ta:b"], Ok(("\ta", "b"))),
        (&["SharedKey :b"], Err(HeaderFault::Form)),
        (&["SharedKey a:"], Err(HeaderFault::Form)),
        (&["SharedKey a"], Err(HeaderFault::Form)),
        (&["SharedKey"], Err(HeaderFault::Form)),
        (&["sharedkey a:b"], Err(HeaderFault::Scheme)),
        (&["SharedKeyLite a:b"], Err(HeaderFault::Scheme)),
        (&[], Err(HeaderFault::Form)),
        (&["Basic", "SharedKey a:b"], Err(HeaderFault::Twice)),
    ];
    for (values, wanted) in table {
        assert!(rt; reads(&rt, rt.alloc(), values, wanted), "{values:?}");
    }
}
