//! Ranges: which texts are ranges, and which header decides.

use crate::test_heads::request;
use stamp_types::{ByteRange, Code, Rule};
use std::alloc::Global;
use std::process::Abort;

const GET: &str = "GET /acct/box/b HTTP/1.1\r\n";

const MOST: u64 = 18_446_744_073_709_551_615;

fn range(rt: &impl Abort, alloc: Global, start: &str, lines: &str) -> Option<ByteRange> {
    request(rt, alloc, start, lines)
        .map(|request| request.ask().args.range)
        .expect(rt, "a head")
}

// The range from one byte to another, or up to the end.
fn from(first: u64, last: Option<u64>) -> Option<ByteRange> {
    Some(ByteRange { first, last })
}

// 2^70 is 1,180,591,620,717,411,303,424.
fn ranges() -> [(&'static str, Option<ByteRange>); 16] {
    [
        ("Range: bytes=0-", from(0, None)),
        ("Range: bytes=5-", from(5, None)),
        ("Range: bytes=0-5", from(0, Some(5))),
        ("Range: bytes=2-2", from(2, Some(2))),
        ("Range: bytes=9-10", from(9, Some(10))),
        ("Range: bytes=0010-010", from(10, Some(10))),
        ("Range: bytes=00000000000000000000009-10", from(9, Some(10))),
        (
            "Range: bytes=18446744073709551614-18446744073709551615",
            from(18_446_744_073_709_551_614, Some(MOST)),
        ),
        (
            "Range: bytes=18446744073709551615-18446744073709551616",
            from(MOST, Some(MOST)),
        ),
        ("Range: bytes=1180591620717411303424-", from(MOST, None)),
        ("Range: bytes=5-1180591620717411303424", from(5, Some(MOST))),
        (
            "Range: bytes=1180591620717411303424-1180591620717411303424",
            from(MOST, Some(MOST)),
        ),
        (
            "Range: bytes=1180591620717411303424-1180591620717411303425",
            from(MOST, Some(MOST)),
        ),
        ("x-ms-range: bytes=1-2", from(1, Some(2))),
        (
            "x-ms-range: bytes=1-2\r\nRange: bytes=3-4",
            from(1, Some(2)),
        ),
        (
            "Range: bytes=3-4\r\nx-ms-range: bytes=1-2",
            from(1, Some(2)),
        ),
    ]
}

#[test]
fn texts_that_are_ranges(rt: HostRuntime) {
    for (lines, wanted) in ranges() {
        assert!(rt; range(&rt, rt.alloc(), GET, lines) == wanted, "of {lines}");
    }
}

fn whole_blobs() -> [&'static str; 27] {
    [
        "Range:",
        "Range: bytes",
        "Range: bytes=",
        "Range: bytes=-",
        "Range: bytes=-2",
        "Range: bytes=2",
        "Range: bytes=2-1",
        "Range: bytes=10-9",
        "Range: bytes=0010-09",
        "Range: bytes=18446744073709551616-18446744073709551615",
        "Range: bytes=1180591620717411303425-1180591620717411303424",
        "Range: bytes=1180591620717411303424-5",
        "Range: Bytes=0-1",
        "Range: byte=0-1",
        "Range: bytes 0-1",
        "Range: bytes= 0-1",
        "Range: bytes=0 -1",
        "Range: bytes=0-1,2-3",
        "Range: bytes=0--1",
        "Range: bytes=a-1",
        "Range: bytes=1-a",
        "x-ms-range: bytes=2-1\r\nRange: bytes=3-4",
        "x-ms-range:\r\nRange: bytes=3-4",
        "If-Range: \"a\"\r\nRange: bytes=0-1",
        "If-Range:\r\nx-ms-range: bytes=0-1",
        "Range: bytes=0-1\r\nIf-Range: a\r\nIf-Range: b",
        "Accept: bytes=0-1",
    ]
}

#[test]
fn texts_that_have_no_effect(rt: HostRuntime) {
    for lines in whole_blobs() {
        assert!(rt; range(&rt, rt.alloc(), GET, lines).is_none(), "of {lines}");
    }
}

#[test]
fn operations_that_take_no_range(rt: HostRuntime) {
    let starts = [
        "HEAD /acct/box/b HTTP/1.1\r\n",
        "GET /acct/box/b?comp=metadata HTTP/1.1\r\n",
        "DELETE /acct/box/b HTTP/1.1\r\n",
        "PUT /acct/box/b HTTP/1.1\r\nContent-Length: 0\r\nx-ms-blob-type: BlockBlob\r\n",
    ];
    for start in starts {
        assert!(rt;
            range(&rt, rt.alloc(), start, "Range: bytes=0-1").is_none(),
            "of {start}"
        );
    }
}

#[test]
fn a_range_is_sent_once(rt: HostRuntime) {
    let twice = [
        "Range: bytes=0-1\r\nRange: bytes=0-1",
        "x-ms-range: bytes=0-1\r\nx-ms-range: bytes=0-1",
    ];
    for lines in twice {
        let refusal = request(&rt, rt.alloc(), GET, lines).err();
        assert!(rt;
            refusal == Some((Rule::F7, Code::InvalidHeaderValue)),
            "of {lines}"
        );
    }
}
