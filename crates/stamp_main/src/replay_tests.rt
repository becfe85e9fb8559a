//! `stamp replay` over inputs in memory. Signatures, sums and replies were made outside of this repository's code; more
//! replies, byte for byte, are cases of `replay_cases`.
use crate::TURNS;
use crate::ending::Ending;
use crate::pieces::{Pieces, Stuck};
use crate::replay::run_replay;
use http_front::Connection;

const MOMENT: &str = "2012-10-01T12:00:00Z";

const ACCOUNT: &str = "devstoreaccount1";

// The Base64 of `key1` and of `key2`.
const KEY1: &str = "a2V5MQ==";

const KEY2: &str = "a2V5Mg==";

// A Create Container of `pics`, signed by `key1`, a Put of `hello`, signed by `key2`, and a Get of it, signed by `key1`.
const INPUT: &[u8] =
    b"PUT /devstoreaccount1/pics?restype=container HTTP/1.1\r\nHost: 127.0.0.1:10000\r\nContent-Length: 0\r\nx-ms-date: Mon, 01 Oct 2012 12:00:00 GMT\r\nx-ms-version: 2012-02-12\r\nAuthorization: SharedKey devstoreaccount1:/Zt/M8NwlklmDGB00sttbyo87McxrIOvJXhMqumuXk0=\r\n\r\nPUT /devstoreaccount1/pics/a.txt HTTP/1.1\r\nHost: 127.0.0.1:10000\r\nContent-Length: 5\r\nx-ms-blob-type: BlockBlob\r\nx-ms-version: 2012-02-12\r\nx-ms-date: Mon, 01 Oct 2012 12:00:00 GMT\r\nAuthorization: SharedKey devstoreaccount1:O9UZNW452QDPdLw1F6p3ZC4NHU5qWVzYuTPZoHu3yXw=\r\n\r\nhelloGET /devstoreaccount1/pics/a.txt HTTP/1.1\r\nHost: 127.0.0.1:10000\r\nx-ms-date: Mon, 01 Oct 2012 12:00:00 GMT\r\nx-ms-version: 2012-02-12\r\nAuthorization: SharedKey devstoreaccount1:1faO58/enDoA9unDNvD2pMLw3jmfkbnVyTRBzimElkI=\r\n\r\n";

const OUTPUT: &[u8] =
    b"HTTP/1.1 201 Created\r\nDate: Mon, 01 Oct 2012 12:00:00 GMT\r\nx-ms-version: 2012-02-12\r\nETag: \"0x0000000000000001\"\r\nLast-Modified: Mon, 01 Oct 2012 12:00:00 GMT\r\nContent-Length: 0\r\n\r\nHTTP/1.1 201 Created\r\nDate: Mon, 01 Oct 2012 12:00:00 GMT\r\nx-ms-version: 2012-02-12\r\nContent-MD5: XUFAKrxLKna5cZ2REBfFkg==\r\nETag: \"0x0000000000000002\"\r\nLast-Modified: Mon, 01 Oct 2012 12:00:00 GMT\r\nContent-Length: 0\r\n\r\nHTTP/1.1 200 OK\r\nDate: Mon, 01 Oct 2012 12:00:00 GMT\r\nx-ms-version: 2012-02-12\r\nContent-Type: application/octet-stream\r\nContent-MD5: XUFAKrxLKna5cZ2REBfFkg==\r\nx-ms-blob-type: BlockBlob\r\nAccept-Ranges: bytes\r\nETag: \"0x0000000000000002\"\r\nLast-Modified: Mon, 01 Oct 2012 12:00:00 GMT\r\nContent-Length: 5\r\n\r\nhello";

// However many bytes one read gives, the whole input is answered. A read that fails ends the run, and a head that it cuts off
// is not answered.
#[test]
fn pieces_do_not_matter(rt: HostRuntime) {
    let table = [
        (1, 2000, Ending::Done, OUTPUT),
        (8192, 2, Ending::Done, OUTPUT),
        (1, 200, Ending::ReadFault, b""),
        (8192, 1, Ending::ReadFault, OUTPUT),
    ];
    for (most, reads, ending, output) in table {
        let reader = Pieces {
            rest: INPUT,
            most,
            reads,
        };
        let mut connection = Connection::new(rt.alloc(), reader, Vec::new(rt.alloc()), TURNS);
        let ended = run_replay(rt.alloc(), &mut connection, MOMENT, ACCOUNT, KEY1, KEY2);
        let (_, out) = connection.into_parts();
        assert!(rt; ended == ending, "{most} {reads}");
        assert!(rt; out.as_slice() == output, "{most} {reads}");
    }
}

#[test]
fn a_writer_that_fails_is_told(rt: HostRuntime) {
    for takes in [false, true] {
        let mut connection = Connection::new(rt.alloc(), INPUT, Stuck { takes }, TURNS);
        let ended = run_replay(rt.alloc(), &mut connection, MOMENT, ACCOUNT, KEY1, KEY2);
        assert!(rt; ended == Ending::WriteFault, "{takes}");
    }
}
