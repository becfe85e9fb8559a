//! Strings to sign, written out by hand from the reference.

use crate::sample_values::bytes;
use shared_key::key_string;
use stamp_values::{FieldList, Signing, Verb};
use std::alloc::Global;
use std::process::Abort;

type Pairs = &'static [(&'static str, &'static str)];

pub(crate) fn fields(rt: &impl Abort, alloc: Global, pairs: &[(&str, &str)]) -> FieldList {
    let mut fields = FieldList::new(alloc);
    for (name, value) in pairs {
        fields
            .push(name.as_bytes(), value.as_bytes())
            .expect(rt, "memory");
    }
    fields
}

// What a request of the development account signs: its verb, its headers, its path and its parameters. Then the string.
type Row = (Verb, Pairs, &'static str, Pairs, &'static str);

pub(crate) const DATE: (&str, &str) = ("x-ms-date", "Mon, 01 Oct 2012 12:00:00 GMT");

pub(crate) const VERSION: (&str, &str) = ("x-ms-version", "2012-02-12");

fn rows() -> [Row; 7] {
    [
        // Create Container. Under the key `key1` it gives `/Zt/M8NwlklmDGB00sttbyo87McxrIOvJXhMqumuXk0=` (Python's hmac).
        (
            Verb::Put,
            &[("content-length", "0"), DATE, VERSION],
            "/devstoreaccount1/pics",
            &[("restype", "container")],
            "PUT\n\n\n0\n\n\n\n\n\n\n\n\nx-ms-date:Mon, 01 Oct 2012 12:00:00 GMT\nx-ms-version:2012-02-12\n/devstoreaccount1/devstoreaccount1/pics\nrestype:container",
        ),
        // Put Blob. Under the key `key1` it gives `d6Z+te/s0/4E59HxWmnrHiDmMywuU/tdYZOanDvfbmU=`.
        (
            Verb::Put,
            &[
                VERSION,
                ("content-length", "5"),
                DATE,
                ("x-ms-blob-type", "BlockBlob"),
            ],
            "/devstoreaccount1/pics/a.txt",
            &[],
            "PUT\n\n\n5\n\n\n\n\n\n\n\n\nx-ms-blob-type:BlockBlob\nx-ms-date:Mon, 01 Oct 2012 12:00:00 GMT\nx-ms-version:2012-02-12\n/devstoreaccount1/devstoreaccount1/pics/a.txt",
        ),
        // Each standard header has its line. If a name was sent twice, the first value counts.
        (
            Verb::Delete,
            &[
                ("range", "k"),
                ("if-unmodified-since", "j"),
                ("if-none-match", "i"),
                ("if-match", "h"),
                ("if-modified-since", "g"),
                ("date", "f"),
                ("content-type", " e\t"),
                ("content-md5", "d"),
                ("content-length", "c"),
                ("content-language", "b"),
                ("content-encoding", "a"),
                ("content-type", "z"),
                ("host", "y"),
            ],
            "/devstoreaccount1",
            &[],
            "DELETE\na\nb\nc\nd\ne\nf\ng\nh\ni\nj\nk\n/devstoreaccount1/devstoreaccount1",
        ),
        // The date is not signed if x-ms-date was sent, empty or not.
        (
            Verb::Head,
            &[("date", "Mon, 01 Oct 2012 12:00:00 GMT"), ("x-ms-date", "")],
            "/",
            &[],
            "HEAD\n\n\n\n\n\n\n\n\n\n\n\nx-ms-date:\n/devstoreaccount1/",
        ),
        // The headers of the service are sorted. Their values are trimmed of spaces and tabs alone.
        (
            Verb::Get,
            &[
                ("x-ms-meta-b", "\t \t"),
                ("x-ms-meta-a", " 2  3\r \t"),
                ("x-ms-", "4"),
                ("x-ms-meta-a", "1"),
                ("x-mt", "5"),
            ],
            "/p",
            &[],
            "GET\n\n\n\n\n\n\n\n\n\n\n\nx-ms-:4\nx-ms-meta-a:2  3\r\nx-ms-meta-b:\n/devstoreaccount1/p",
        ),
        // Parameters are sorted and joined, their names in lower case.
        (
            Verb::Get,
            &[],
            "/devstoreaccount1/pics",
            &[("b", "2"), ("a", "x"), ("B", "1")],
            "GET\n\n\n\n\n\n\n\n\n\n\n\n/devstoreaccount1/devstoreaccount1/pics\na:x\nb:1,2",
        ),
        // Empty names and values are parameters, and nothing is decoded.
        (
            Verb::Get,
            &[],
            "/devstoreaccount1/pics",
            &[
                ("comp", ""),
                ("", "b"),
                ("Comp", ""),
                ("", "a+ %41"),
                ("a", "1,2"),
            ],
            "GET\n\n\n\n\n\n\n\n\n\n\n\n/devstoreaccount1/devstoreaccount1/pics\n:a+ %41,b\na:1,2\ncomp:,",
        ),
    ]
}

#[test]
fn strings_are_those_of_the_reference(rt: HostRuntime) {
    let alloc = rt.alloc();
    for (verb, headers, path, query, wanted) in rows() {
        let signing = Signing {
            verb,
            headers: fields(&rt, alloc, headers),
            path: bytes(&rt, alloc, path),
            query: fields(&rt, alloc, query),
        };
        let string = key_string(alloc, &signing, b"devstoreaccount1").expect(&rt, "memory");
        assert!(rt; string.as_slice() == wanted.as_bytes(), "{wanted}");
    }
}
