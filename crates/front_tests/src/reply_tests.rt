//! Replies byte by byte, made outside of this repository's code: a refusal to each verb, a 304, and a header of each kind. Each
//! call succeeds if memory is left.

use crate::sample_parts::sent_range;
use reply_form::{interim_reply, out_of_memory_reply, write_head, write_reply};
use stamp_types::{
    Code, Header, Items, Level, Meta, Moment, Refusal, Reply, Rule, Shares, Status, Text, Verb,
    Visible,
};
use std::alloc::Global;
use std::process::Abort;

const XML: &str =
    "<?xml version=\"1.0\" encoding=\"utf-8\"?><Error><Code>ResourceNotFound</Code><Message>Refused by rule P2.</Message></Error>";

const P2: &str =
    "HTTP/1.1 404 Not Found\r\nDate: Mon, 01 Oct 2012 12:00:00 GMT\r\nx-ms-version: 2012-02-12\r\nx-stamp-rule: P2\r\nContent-Type: application/xml\r\nContent-Length: 120\r\n\r\n";

const P2_CLOSING: &str =
    "HTTP/1.1 404 Not Found\r\nDate: Mon, 01 Oct 2012 12:00:00 GMT\r\nx-ms-version: 2012-02-12\r\nx-stamp-rule: P2\r\nContent-Type: application/xml\r\nConnection: close\r\nContent-Length: 120\r\n\r\n";

const O4: &str =
    "HTTP/1.1 304 Not Modified\r\nDate: Mon, 01 Oct 2012 12:00:00 GMT\r\nx-ms-version: 2012-02-12\r\nx-stamp-rule: O4\r\n\r\n";

// The lines of one header of each kind, and of all three levels: first the headers with texts, then the others.
const TEXTS: &str =
    "HTTP/1.1 206 Partial Content\r\nDate: Mon, 01 Oct 2012 12:00:00 GMT\r\nx-ms-version: 2012-02-12\r\nContent-Type: text/plain\r\nContent-Encoding: gzip\r\nContent-Language: en\r\nCache-Control: no-cache\r\nContent-Disposition: inline\r\nx-ms-meta-colour: red\r\nContent-Length: 2\r\n\r\n";

const NUMBERS: &str =
    "HTTP/1.1 206 Partial Content\r\nDate: Mon, 01 Oct 2012 12:00:00 GMT\r\nx-ms-version: 2012-02-12\r\nContent-MD5: XUFAKrxLKna5cZ2REBfFkg==\r\nContent-Range: bytes 4-5/18446744073709551615\r\nx-ms-blob-type: BlockBlob\r\nAccept-Ranges: bytes\r\nx-ms-blob-public-access: blob\r\nx-ms-blob-public-access: container\r\nx-ms-blob-content-length: 0\r\nETag: \"0xffffffffffffffff\"\r\nLast-Modified: Thu, 01 Jan 1970 00:00:00 GMT\r\nContent-Length: 2\r\n\r\n";

// The MD5 of `hello`.
const SUM: [u8; 16] = [
    0x5d, 0x41, 0x40, 0x2a, 0xbc, 0x4b, 0x2a, 0x76, 0xb9, 0x71, 0x9d, 0x91, 0x10, 0x17, 0xc5, 0x92,
];

// 2012-10-01T12:00:00.5Z.
fn noon() -> Moment {
    Moment::new(13_490_928_005_000_000).unwrap_or(Moment::first())
}

fn assert_written(
    rt: &impl Abort,
    alloc: Global,
    reply: &Reply,
    verb: Option<Verb>,
    close: bool,
    head: &str,
    body: &str,
) {
    let bytes = write_reply(alloc, reply, noon(), verb, close).expect(rt, "memory");
    assert!(rt;
        bytes.strip_prefix(head.as_bytes()) == Some(body.as_bytes()),
        "to {verb:?}"
    );
    let alone = write_head(alloc, reply, noon(), close).expect(rt, "memory");
    assert!(rt; alone.as_slice() == head.as_bytes(), "to {verb:?}");
}

#[test]
fn a_denial_to_each_verb(rt: HostRuntime) {
    let reply = Reply::denied(
        rt.alloc(),
        Refusal {
            rule: Rule::P2,
            code: Code::ResourceNotFound,
        },
    )
    .expect(&rt, "memory");
    let cases = [
        (Some(Verb::Get), false, P2, XML),
        (None, false, P2, XML),
        (Some(Verb::Head), false, P2, ""),
        (Some(Verb::Put), true, P2_CLOSING, XML),
        (Some(Verb::Head), true, P2_CLOSING, ""),
    ];
    for (verb, close, head, body) in cases {
        assert_written(&rt, rt.alloc(), &reply, verb, close, head, body);
    }
    assert_eq!(rt; P2.len() + XML.len(), 279);
}

#[test]
fn not_modified_has_no_length(rt: HostRuntime) {
    let reply = Reply::denied(
        rt.alloc(),
        Refusal {
            rule: Rule::O4,
            code: Code::NotModified,
        },
    )
    .expect(&rt, "memory");
    assert_written(&rt, rt.alloc(), &reply, Some(Verb::Get), false, O4, "");
}

fn text(rt: &impl Abort, alloc: Global, text: &str) -> Text {
    let text = String::from_str(alloc, text).expect(rt, "memory");
    Text::new(text).expect(rt, "no control character")
}

fn visible(rt: &impl Abort, alloc: Global, value: &str) -> Visible {
    Visible::new(text(rt, alloc, value)).expect(rt, "a visible text")
}

fn texts(rt: &impl Abort, alloc: Global) -> [Header; 6] {
    let name = text(rt, alloc, "colour");
    let value = visible(rt, alloc, "red");
    [
        Header::ContentType(visible(rt, alloc, "text/plain")),
        Header::ContentEncoding(visible(rt, alloc, "gzip")),
        Header::ContentLanguage(visible(rt, alloc, "en")),
        Header::CacheControl(visible(rt, alloc, "no-cache")),
        Header::ContentDisposition(visible(rt, alloc, "inline")),
        Header::Meta(Meta { name, value }),
    ]
}

fn numbers() -> [Header; 10] {
    [
        Header::ContentMd5(SUM),
        Header::ContentRange(sent_range()),
        Header::BlobType,
        Header::AcceptRanges,
        Header::PublicAccess(Level::Closed),
        Header::PublicAccess(Level::Blob),
        Header::PublicAccess(Level::Container),
        Header::BlobLength(0),
        Header::Etag(u64::MAX),
        Header::LastModified(Moment::first()),
    ]
}

// The frame of a reply that sends two bytes of a blob, with these headers. The body is empty.
fn part(alloc: Global, headers: Vec<Header>) -> Reply {
    Reply {
        status: Status::Partial,
        code: None,
        rule: None,
        headers: Items::new(headers),
        length: 2,
        body: Shares::empty(alloc),
    }
}

#[test]
fn each_header_has_its_line(rt: HostRuntime) {
    let alloc = rt.alloc();
    let headers = Vec::from_array(alloc, texts(&rt, alloc)).expect(&rt, "memory");
    assert_written(
        &rt,
        alloc,
        &part(alloc, headers),
        Some(Verb::Get),
        false,
        TEXTS,
        "",
    );
    let headers = Vec::from_array(alloc, numbers()).expect(&rt, "memory");
    assert_written(
        &rt,
        alloc,
        &part(alloc, headers),
        Some(Verb::Get),
        false,
        NUMBERS,
        "",
    );
}

#[test]
fn replies_that_are_always_the_same(rt: HostRuntime) {
    assert_eq!(rt; interim_reply().len(), 25);
    assert_eq!(rt; out_of_memory_reply().len(), 94);
}
