//! The values of which sample changes are made. A test ends if memory runs out, so none of these
//! functions returns an error.

use crate::sample_places::place;
use stamp_types::{
    Acl, BlockId, Bytes, Items, Key, Letters, Level, Meta, Metadata, Moment, Piece, Pieces,
    Policies, Policy, Props, Share, Text, Visible,
};
use std::alloc::Global;
use std::process::Abort;

pub(crate) fn text(rt: &impl Abort, alloc: Global, text: &str) -> Text {
    let text = String::from_str(alloc, text).expect(rt, "memory");
    Text::new(text).expect(rt, "a clean text")
}

fn visible(rt: &impl Abort, alloc: Global, value: &str) -> Visible {
    Visible::new(text(rt, alloc, value)).expect(rt, "a visible text")
}

// `date -u -d 2012-10-01T12:00 +%s`, times 10,000,000.
pub(crate) fn noon(rt: &impl Abort) -> Moment {
    Moment::new(13_490_928_000_000_000).expect(rt, "a moment")
}

// An hour later.
fn one(rt: &impl Abort) -> Moment {
    Moment::new(13_490_964_000_000_000).expect(rt, "a moment")
}

pub(crate) fn key(rt: &impl Abort, alloc: Global) -> Key {
    Key {
        account: text(rt, alloc, "devstoreaccount1"),
        container: text(rt, alloc, "pics"),
    }
}

pub(crate) fn meta(rt: &impl Abort, alloc: Global, name: &str, value: &str) -> Meta {
    Meta {
        name: text(rt, alloc, name),
        value: visible(rt, alloc, value),
    }
}

pub(crate) fn metadata(rt: &impl Abort, alloc: Global, metas: Vec<Meta>) -> Metadata {
    Metadata::new(alloc, Items::new(metas))
        .expect(rt, "memory")
        .expect(rt, "good metadata")
}

// Metadata of one name.
pub(crate) fn red(rt: &impl Abort, alloc: Global) -> Metadata {
    let metas = vec![in alloc; meta(rt, alloc, "color", "red")].expect(rt, "memory");
    metadata(rt, alloc, metas)
}

fn readers(rt: &impl Abort, alloc: Global) -> Policy {
    Policy {
        id: text(rt, alloc, "readers"),
        start: Some(noon(rt)),
        expiry: None,
        letters: Letters::new(true, false, false, true),
    }
}

fn all(rt: &impl Abort, alloc: Global) -> Policy {
    Policy {
        id: text(rt, alloc, "all"),
        start: None,
        expiry: None,
        letters: None,
    }
}

fn late(rt: &impl Abort, alloc: Global) -> Policy {
    Policy {
        id: text(rt, alloc, "late"),
        start: None,
        expiry: Some(one(rt)),
        letters: Letters::new(false, true, false, false),
    }
}

fn hour(rt: &impl Abort, alloc: Global) -> Policy {
    Policy {
        id: text(rt, alloc, "hour"),
        start: Some(noon(rt)),
        expiry: Some(one(rt)),
        letters: Letters::new(true, true, true, true),
    }
}

fn policies(rt: &impl Abort, alloc: Global, first: Policy, second: Policy) -> Policies {
    let policies = vec![in alloc; first, second].expect(rt, "memory");
    Policies::new(Items::new(policies)).expect(rt, "good policies")
}

// The level, and two stored policies without an expiry.
pub(crate) fn acl(rt: &impl Abort, alloc: Global, level: Level) -> Acl {
    let policies = policies(rt, alloc, readers(rt, alloc), all(rt, alloc));
    Acl { level, policies }
}

// The level, and two stored policies with an expiry.
pub(crate) fn acl_with_expiries(rt: &impl Abort, alloc: Global, level: Level) -> Acl {
    let policies = policies(rt, alloc, late(rt, alloc), hour(rt, alloc));
    Acl { level, policies }
}

// Kept headers with an MD5.
pub(crate) fn plain(rt: &impl Abort, alloc: Global) -> Props {
    Props::from_parts(
        alloc,
        visible(rt, alloc, "text/plain"),
        visible(rt, alloc, "gzip"),
        visible(rt, alloc, "en"),
        visible(rt, alloc, "no-cache"),
        Some([0, 1, 2, 3, 4, 5, 6, 7, 8, 9, 10, 11, 12, 13, 14, 15]),
    )
    .expect(rt, "memory")
    .expect(rt, "kept headers")
}

// Kept headers with a content type alone.
pub(crate) fn bare(rt: &impl Abort, alloc: Global) -> Props {
    Props::from_parts(
        alloc,
        visible(rt, alloc, "t"),
        visible(rt, alloc, ""),
        visible(rt, alloc, ""),
        visible(rt, alloc, ""),
        None,
    )
    .expect(rt, "memory")
    .expect(rt, "kept headers")
}

pub(crate) fn id(rt: &impl Abort, alloc: Global, bytes: &[u8]) -> BlockId {
    let bytes = bytes.to_vec(alloc).expect(rt, "memory");
    BlockId::new(Bytes::new(bytes)).expect(rt, "an id")
}

// Five bytes at a place.
pub(crate) fn five(rt: &impl Abort, alloc: Global) -> Pieces {
    let place = place(1, 258);
    let pieces = vec![in alloc; Piece::At { place, length: 5 }].expect(rt, "memory");
    Pieces::new(pieces).expect(rt, "a good piece")
}

// 4,194,305 bytes at two places.
pub(crate) fn two_pieces(rt: &impl Abort, alloc: Global) -> Pieces {
    let (first, last) = (place(1, 258), place(2, 0));
    let first = Piece::At {
        place: first,
        length: 4_194_304,
    };
    let last = Piece::At {
        place: last,
        length: 1,
    };
    let pieces = vec![in alloc; first, last].expect(rt, "memory");
    Pieces::new(pieces).expect(rt, "two good pieces")
}

// Five bytes that the piece holds.
pub(crate) fn hello(rt: &impl Abort, alloc: Global) -> Pieces {
    pieces(rt, alloc, b"hello")
}

/// Content of these bytes, which are one piece.
pub(crate) fn pieces(rt: &impl Abort, alloc: Global, bytes: &[u8]) -> Pieces {
    let bytes = bytes.to_vec(alloc).expect(rt, "memory");
    let share = Share::new(alloc, bytes).expect(rt, "memory");
    let pieces = vec![in alloc; Piece::Bytes(share)].expect(rt, "memory");
    Pieces::new(pieces).expect(rt, "a good piece")
}
