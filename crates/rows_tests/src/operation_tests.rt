//! Each operation once, in turn on one container: the status, the headers in their order, the
//! length, the body and the content of each reply, against values that were written by hand.

use crate::sample_requests::{allowed, body, four_names, make, moment_after, request_with};
use range_rows::{FramedAnswer, Reading, Replacements, Span};
use row_trees::Rows;
use stamp_types::{Change, Header, Level, Moment, Op, Piece, Request, Status};
use std::alloc::Global;
use std::process::Abort;

/// What a header is to say.
#[derive(Clone, Copy, Debug)]
enum Line {
    // application/octet-stream
    OctetStream,
    // application/xml
    Xml,
    // that anyone may read the blobs of the container
    BlobLevel,
    // the MD5 of `hello`
    SumOfHello,
    // a name of the metadata, and its value
    Named(&'static str, &'static str),
    BlockBlob,
    Ranges,
    Etag(u64),
    // how many steps of 100 ns after noon the moment is
    Made(u8),
}

// The operations on the container `pics`, or on its blob `a.txt`, in turn, and for each of them how
// many steps of 100 ns after noon its moment is.
fn turns() -> [(u8, Op); 12] {
    [
        (1, Op::CreateContainer),
        (2, Op::SetContainerMetadata),
        (3, Op::PutBlob),
        (4, Op::GetBlob),
        (5, Op::SetMetadata),
        (6, Op::BlobProperties),
        (7, Op::GetMetadata),
        (8, Op::ContainerProperties),
        (9, Op::DeleteBlob),
        (10, Op::SetAcl),
        (11, Op::GetAcl),
        (12, Op::DeleteContainer),
    ]
}

// Stored policies as they are sent, and as they are shown.
const SENT: &str =
    "<SignedIdentifiers><SignedIdentifier><Id> a </Id></SignedIdentifier></SignedIdentifiers>";

const SHOWN: &str =
    "<?xml version=\"1.0\" encoding=\"utf-8\"?><SignedIdentifiers><SignedIdentifier><Id>a</Id><AccessPolicy></AccessPolicy></SignedIdentifier></SignedIdentifiers>";

// The value of the metadata, and the body of the request.
fn word(op: Op) -> &'static str {
    match op {
        Op::CreateContainer => "one",
        Op::SetContainerMetadata => "two",
        Op::PutBlob => "hello",
        Op::SetMetadata => "new",
        Op::SetAcl => SENT,
        _ => "",
    }
}

fn status(op: Op) -> Status {
    match op {
        Op::CreateContainer | Op::PutBlob => Status::Created,
        Op::DeleteContainer | Op::DeleteBlob => Status::Accepted,
        _ => Status::Success,
    }
}

fn length(op: Op) -> u64 {
    match op {
        Op::GetBlob | Op::BlobProperties => 5,
        Op::GetAcl => 153,
        _ => 0,
    }
}

fn content(op: Op) -> &'static str {
    if op == Op::GetBlob { "hello" } else { "" }
}

// The body of the reply's own, which is sent before content.
fn own_body(op: Op) -> &'static str {
    if op == Op::GetAcl { SHOWN } else { "" }
}

fn lines(op: Op) -> &'static [Line] {
    match op {
        Op::CreateContainer => &[Line::Etag(1), Line::Made(1)],
        Op::SetContainerMetadata => &[Line::Etag(2), Line::Made(2)],
        Op::PutBlob => &[Line::SumOfHello, Line::Etag(3), Line::Made(3)],
        Op::GetBlob => &[
            Line::OctetStream,
            Line::SumOfHello,
            Line::Named("_a", "hello"),
            Line::Named("a1", "hello"),
            Line::Named("a_", ""),
            Line::Named("ab", "hello"),
            Line::BlockBlob,
            Line::Ranges,
            Line::Etag(3),
            Line::Made(3),
        ],
        Op::SetMetadata => &[Line::Etag(4), Line::Made(5)],
        Op::BlobProperties => &[
            Line::OctetStream,
            Line::SumOfHello,
            Line::Named("_a", "new"),
            Line::Named("a1", "new"),
            Line::Named("a_", ""),
            Line::Named("ab", "new"),
            Line::BlockBlob,
            Line::Ranges,
            Line::Etag(4),
            Line::Made(5),
        ],
        Op::GetMetadata => &[
            Line::Named("_a", "new"),
            Line::Named("a1", "new"),
            Line::Named("a_", ""),
            Line::Named("ab", "new"),
            Line::Etag(4),
            Line::Made(5),
        ],
        Op::ContainerProperties => &[
            Line::Named("_a", "two"),
            Line::Named("a1", "two"),
            Line::Named("a_", ""),
            Line::Named("ab", "two"),
            Line::Etag(2),
            Line::Made(2),
        ],
        Op::SetAcl => &[Line::Etag(6), Line::Made(10)],
        Op::GetAcl => &[Line::Xml, Line::BlobLevel, Line::Etag(6), Line::Made(10)],
        _ => &[],
    }
}

// The MD5 of `hello`.
const HELLO: [u8; 16] = [
    0x5d, 0x41, 0x40, 0x2a, 0xbc, 0x4b, 0x2a, 0x76, 0xb9, 0x71, 0x9d, 0x91, 0x10, 0x17, 0xc5, 0x92,
];

fn says(rt: &impl Abort, header: &Header, line: Line) -> bool {
    match (header, line) {
        (Header::ContentType(text), Line::OctetStream) => {
            text.as_str() == "application/octet-stream"
        }
        (Header::ContentType(text), Line::Xml) => text.as_str() == "application/xml",
        (Header::PublicAccess(level), Line::BlobLevel) => *level == Level::Blob,
        (Header::ContentMd5(sum), Line::SumOfHello) => *sum == HELLO,
        (Header::Meta(meta), Line::Named(name, value)) => {
            meta.name.as_str() == name && meta.value.as_str() == value
        }
        (Header::BlobType, Line::BlockBlob) | (Header::AcceptRanges, Line::Ranges) => true,
        (Header::Etag(given), Line::Etag(count)) => *given == count,
        (Header::LastModified(made), Line::Made(tick)) => *made == moment_after(rt, tick),
        _ => false,
    }
}

fn compare(rt: &impl Abort, headers: &[Header], lines: &[Line]) {
    assert!(rt; headers.len() == lines.len());
    for (header, line) in headers.iter().zip(lines) {
        assert!(rt; says(rt, header, *line), "{line:?}");
    }
}

// Whether the spans are one whole piece of these bytes, or no span if there are no bytes.
fn sends(spans: &[Span], content: &str) -> bool {
    match spans {
        [] => content.is_empty(),
        [span] => {
            let bytes = content.as_bytes();
            let held = matches!(&span.piece, Piece::Bytes(share) if share.as_slice() == bytes);
            held && span.from == 0 && span.to == bytes.len() as u64
        }
        _ => false,
    }
}

fn answer(
    rt: &impl Abort,
    alloc: Global,
    rows: &Rows,
    request: &Request,
    moment: Moment,
) -> FramedAnswer {
    assert!(rt; !request.ask().op.lists_names());
    let reading = Reading::of(alloc, request).expect(rt, "memory");
    let allowed = allowed(rt, alloc, rows, request, &reading);
    let answer = allowed.reply(alloc, request, moment, &Replacements::none());
    answer.expect(rt, "memory")
}

// The change of a request whose operation writes.
fn change_of(
    rt: &impl Abort,
    alloc: Global,
    rows: &Rows,
    request: &Request,
    moment: Moment,
) -> Change {
    assert!(rt; request.ask().op.writes());
    let reading = Reading::of(alloc, request).expect(rt, "memory");
    let allowed = allowed(rt, alloc, rows, request, &reading);
    let change = allowed.change(alloc, request, reading, moment);
    change.expect(rt, "memory")
}

// Makes the change of the request, if its operation writes.
fn change(rt: &impl Abort, alloc: Global, rows: &mut Rows, request: &Request, moment: Moment) {
    if request.ask().op.writes() {
        let change = change_of(rt, alloc, rows, request, moment);
        make(rt, alloc, rows, change);
    }
}

fn asked(rt: &impl Abort, alloc: Global, op: Op) -> Request {
    let word = word(op);
    let bytes = word.as_bytes().to_vec(alloc).expect(rt, "memory");
    let metadata = four_names(rt, alloc, op, word);
    request_with(rt, alloc, op, metadata, body(rt, alloc, bytes))
}

fn judge(rt: &impl Abort, alloc: Global, op: Op, answer: FramedAnswer) {
    let FramedAnswer { frame, spans } = answer;
    let frame = frame.write(alloc).expect(rt, "memory");
    compare(rt, frame.headers.as_slice(), lines(op));
    assert!(rt; frame.status == status(op), "{op:?}");
    assert!(rt; frame.length == length(op), "{op:?}");
    let bytes = frame.body.joined(alloc).expect(rt, "memory");
    assert!(rt; bytes.as_slice() == own_body(op).as_bytes(), "{op:?}");
    assert!(rt; sends(spans.as_slice(), content(op)), "{op:?}");
}

#[test]
fn each_operation_is_answered_and_done(rt: HostRuntime) {
    let alloc = rt.alloc();
    let mut rows = Rows::new(alloc);
    for (tick, op) in turns() {
        let moment = moment_after(&rt, tick);
        let request = asked(&rt, alloc, op);
        let answer = answer(&rt, alloc, &rows, &request, moment);
        judge(&rt, alloc, op, answer);
        change(&rt, alloc, &mut rows, &request, moment);
    }
}
