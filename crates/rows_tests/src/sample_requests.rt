//! Requests and rows for tests.
ghost use Rattle.std.specs.Prelude.{◌≡◌};
ghost use Rattle.range_rows.specs.Judgements.{IsAllowed};
ghost use Rattle.range_rows.specs.Readings.{reading_of};

use crate::sample_parts::deleted_row;
use range_rows::{Allowed, ObjectVerdict, Reading, Target};
use row_trees::Rows;
use stamp_types::{
    Acl, Act, Args, Ask, Body, Bytes, Change, ContainerRow, Credential, FieldList, Items, Kept,
    Key, Level, Meta, Metadata, Moment, Op, Page, Policies, Props, Request, Share, Signing,
    Standing, StoredBlob, Text, Verb, Visible,
};
use std::alloc::Global;
use std::process::Abort;

// 2012-10-01T12:00:00Z
const NOON: i64 = 13_490_928_000_000_000;

pub(crate) type Sum = [u8; 16];

/// So many steps of 100 ns after noon.
pub(crate) fn moment_after(rt: &impl Abort, ticks: u8) -> Moment {
    Moment::new(NOON + i64::from(ticks)).expect(rt, "a moment")
}

pub(crate) fn moment(rt: &impl Abort) -> Moment {
    moment_after(rt, 0)
}

pub(crate) fn text(rt: &impl Abort, alloc: Global, text: &str) -> Text {
    let text = String::from_str(alloc, text).expect(rt, "memory");
    Text::new(text).expect(rt, "a clean text")
}

pub(crate) fn key(rt: &impl Abort, alloc: Global, account: &str, container: &str) -> Key {
    Key {
        account: text(rt, alloc, account),
        container: text(rt, alloc, container),
    }
}

pub(crate) fn body(rt: &impl Abort, alloc: Global, bytes: Vec<u8>) -> Body {
    Body::of(Share::new(alloc, bytes).expect(rt, "memory"))
}

// The headers that a request asks to be kept: empty headers, if the operation keeps headers.
fn kept(alloc: Global, op: Op) -> Option<Kept> {
    if !op.keeps_headers() {
        return None;
    }
    Some(Kept {
        content_type: Visible::empty(alloc),
        encoding: Visible::empty(alloc),
        language: Visible::empty(alloc),
        cache_control: Visible::empty(alloc),
        md5: None,
    })
}

// The level that a Create Container or a Set Container ACL gives. Other operations give no level.
fn level(op: Op) -> Option<Level> {
    match op {
        Op::CreateContainer => Some(Level::Closed),
        Op::SetAcl => Some(Level::Blob),
        _ => None,
    }
}

pub(crate) fn visible(rt: &impl Abort, alloc: Global, value: &str) -> Visible {
    Visible::new(text(rt, alloc, value)).expect(rt, "a visible text")
}

/// The kept headers of a blob that has a Content-Type alone.
pub(crate) fn props(rt: &impl Abort, alloc: Global) -> Props {
    let kept = visible(rt, alloc, "text/plain");
    let (encoding, language) = (visible(rt, alloc, ""), visible(rt, alloc, ""));
    let cache_control = visible(rt, alloc, "");
    Props::from_parts(alloc, kept, encoding, language, cache_control, None)
        .expect(rt, "memory")
        .expect(rt, "props")
}

/// Metadata of one name, which has this value.
pub(crate) fn author(rt: &impl Abort, alloc: Global, value: &str) -> Metadata {
    let meta = Meta {
        name: text(rt, alloc, "author"),
        value: visible(rt, alloc, value),
    };
    let metas = vec![in alloc; meta].expect(rt, "memory");
    Metadata::new(alloc, Items::new(metas))
        .expect(rt, "memory")
        .expect(rt, "good metadata")
}

// The metadata that a Put Blob brings: one name. Other operations bring no metadata.
fn metadata(rt: &impl Abort, alloc: Global, op: Op) -> Metadata {
    if op == Op::PutBlob {
        author(rt, alloc, "me")
    } else {
        Metadata::empty()
    }
}

fn meta(rt: &impl Abort, alloc: Global, name: &str, value: &str) -> Meta {
    Meta {
        name: text(rt, alloc, name),
        value: visible(rt, alloc, value),
    }
}

/// Metadata of four names in their order, with digits, `_` and letters. The value of `a_` is empty,
/// and the other values are the word. Operations that keep no metadata bring no metadata.
pub(crate) fn four_names(rt: &impl Abort, alloc: Global, op: Op, word: &str) -> Metadata {
    if !op.keeps_metadata() {
        return Metadata::empty();
    }
    let mut metas = Vec::with_capacity(alloc, 4).expect(rt, "memory");
    for (name, value) in [("_a", word), ("a1", word), ("a_", ""), ("ab", word)] {
        let meta = meta(rt, alloc, name, value);
        metas.push(meta).expect(rt, "memory");
    }
    Metadata::new(alloc, Items::new(metas))
        .expect(rt, "memory")
        .expect(rt, "good metadata")
}

fn args(alloc: Global, op: Op, content_md5: Option<Sum>, metadata: Metadata) -> Args {
    Args {
        if_match: None,
        if_none_match: None,
        content_md5,
        range: None,
        kept: kept(alloc, op),
        metadata,
        level: level(op),
        page: None,
        block: None,
        kinds: None,
    }
}

// The name of the blob, if the operation names one.
fn named(rt: &impl Abort, alloc: Global, op: Op, blob: &str) -> Option<Text> {
    if op.names_blob() {
        Some(text(rt, alloc, blob))
    } else {
        None
    }
}

/// The parts of a request in the account `pantry`.
pub(crate) fn asked(
    rt: &impl Abort,
    alloc: Global,
    op: Op,
    container: &str,
    blob: &str,
    args: Args,
) -> Ask {
    Ask {
        op,
        key: key(rt, alloc, "pantry", container),
        blob: named(rt, alloc, op, blob),
        args,
        signing: Signing {
            verb: Verb::Put,
            headers: FieldList::new(alloc),
            path: Bytes::new(Vec::new(alloc)),
            query: FieldList::new(alloc),
        },
        credential: Credential::Anonymous,
    }
}

/// A request on the container, or, if the operation names a blob, on that blob of the container.
pub(crate) fn request(
    rt: &impl Abort,
    alloc: Global,
    op: Op,
    container: &str,
    blob: &str,
    content_md5: Option<Sum>,
    body: Body,
) -> Request {
    let args = args(alloc, op, content_md5, metadata(rt, alloc, op));
    let ask = asked(rt, alloc, op, container, blob, args);
    let request = Request::new(alloc, ask, body).expect(rt, "memory");
    request.expect(rt, "parts that fit")
}

/// A request with this metadata on the container `pics`, or, if the operation names a blob, on its
/// blob `a.txt`.
pub(crate) fn request_with(
    rt: &impl Abort,
    alloc: Global,
    op: Op,
    metadata: Metadata,
    body: Body,
) -> Request {
    let args = args(alloc, op, None, metadata);
    let ask = asked(rt, alloc, op, "pics", "a.txt", args);
    let request = Request::new(alloc, ask, body).expect(rt, "memory");
    request.expect(rt, "parts that fit")
}

/// A request of an operation that lists names, on the container or on the account alone, which asks for
/// the page.
pub(crate) fn list_request(
    rt: &impl Abort,
    alloc: Global,
    op: Op,
    key: Key,
    page: Page,
) -> Request {
    let mut args = args(alloc, op, None, Metadata::empty());
    args.page = Some(page);
    let mut ask = asked(rt, alloc, op, "", "", args);
    ask.key = key;
    let request = Request::new(alloc, ask, Body::empty()).expect(rt, "memory");
    request.expect(rt, "parts that fit")
}

// What a closed container has that was made by its first change.
fn closed(rt: &impl Abort, alloc: Global) -> Standing {
    Standing {
        etag: 1,
        made: moment(rt),
        metadata: Metadata::empty(),
        acl: Acl {
            level: Level::Closed,
            policies: Policies::empty(alloc),
        },
    }
}

// The row of a container of the account `pantry`.
fn set_row(rt: &impl Abort, alloc: Global, rows: &mut Rows, container: &str, row: ContainerRow) {
    let key = key(rt, alloc, "pantry", container);
    let change = Change::new(key, Act::ContainerRow(row)).expect(rt, "a good row");
    make(rt, alloc, rows, change);
}

/// The closed container `pics`, as if it had seen so many changes.
pub(crate) fn pics(rt: &impl Abort, alloc: Global, count: u64) -> Rows {
    let mut rows = Rows::new(alloc);
    let standing = Some(closed(rt, alloc));
    set_row(
        rt,
        alloc,
        &mut rows,
        "pics",
        ContainerRow { count, standing },
    );
    rows
}

/// The same rows with a container `gone`, which was deleted by as many changes.
pub(crate) fn pics_and_gone(rt: &impl Abort, alloc: Global, count: u64) -> Rows {
    let mut rows = pics(rt, alloc, count);
    set_row(rt, alloc, &mut rows, "gone", deleted_row(count));
    rows
}

/// Puts the row of a blob of the container `pics` into the rows.
pub(crate) fn store(rt: &impl Abort, alloc: Global, rows: &mut Rows, stored: StoredBlob) {
    let key = key(rt, alloc, "pantry", "pics");
    let change = Change::new(key, Act::StoredBlob(stored));
    make(rt, alloc, rows, change.expect(rt, "a good row"));
}

/// Makes a change, which has to fit.
pub(crate) fn make(rt: &impl Abort, alloc: Global, rows: &mut Rows, change: Change) {
    let fits = rows.fits(alloc, &change).expect(rt, "memory");
    assert!(rt; fits, "a change that does not fit");
    rows.take(alloc, change).expect(rt, "memory");
}

/// What was found for a request, which no rule may refuse.
pub(crate) fn allowed<'a>(
    rt: &impl Abort,
    alloc: Global,
    rows: &'a Rows,
    request: &Request,
    reading: &Reading,
) -> Allowed<'a>
    requires { reading.now ≡ reading_of request.now }
    ensures { IsAllowed result request.now }
{
    let ask = request.ask();
    let target = Target::of(rows.find(&ask.key), ask);
    match target.judge(alloc, request, reading).expect(rt, "memory") {
        ObjectVerdict::Allowed(allowed) => allowed,
        ObjectVerdict::Refused(_) => panic!(rt; "refused"),
    }
}
