//! Small values for tests. A test ends if memory runs out, so none of these functions returns an
//! error.
ghost use Rattle.std.specs.Prelude.{◌≡◌};

use stamp_types::{
    Acl, BlockId, Bytes, Items, Kept, Key, Level, Meta, Metadata, Moment, Policies, Policy, Props,
    Share, Shares, Text, Visible,
};
use std::alloc::Global;
use std::process::Abort;

pub(crate) fn text(rt: &impl Abort, alloc: Global, text: &str) -> Text {
    let text = String::from_str(alloc, text).expect(rt, "memory");
    Text::new(text).expect(rt, "a clean text")
}

// The bytes of a text.
pub(crate) fn bytes(rt: &impl Abort, alloc: Global, text: &str) -> Bytes {
    Bytes::new(text.as_bytes().to_vec(alloc).expect(rt, "memory"))
}

pub(crate) fn visible(rt: &impl Abort, alloc: Global, value: &str) -> Visible {
    Visible::new(text(rt, alloc, value)).expect(rt, "a visible text")
}

// Kept headers with no values: no type, no encoding, no sum.
pub(crate) fn kept(alloc: Global) -> Kept {
    Kept {
        content_type: Visible::empty(alloc),
        encoding: Visible::empty(alloc),
        language: Visible::empty(alloc),
        cache_control: Visible::empty(alloc),
        md5: None,
    }
}

// Metadata of one name and its value.
pub(crate) fn metadata(rt: &impl Abort, alloc: Global) -> Metadata {
    let name = text(rt, alloc, "colour");
    let value = visible(rt, alloc, "red");
    let metas = vec![in alloc; Meta { name, value }].expect(rt, "memory");
    Metadata::new(alloc, Items::new(metas))
        .expect(rt, "memory")
        .expect(rt, "good metadata")
}

// As many letters.
pub(crate) fn long_visible(rt: &impl Abort, alloc: Global, count: usize) -> Visible {
    let mut letters = String::new(alloc);
    for _letter in 0..count {
        letters.push('a').expect(rt, "memory");
    }
    Visible::new(Text::new(letters).expect(rt, "a clean text")).expect(rt, "a visible text")
}

// Metadata of one name, with the longest value.
pub(crate) fn long_metadata(rt: &impl Abort, alloc: Global) -> Metadata {
    let name = text(rt, alloc, "a");
    let value = long_visible(rt, alloc, 8191);
    let metas = vec![in alloc; Meta { name, value }].expect(rt, "memory");
    Metadata::new(alloc, Items::new(metas))
        .expect(rt, "memory")
        .expect(rt, "good metadata")
}

// Kept headers, with the longest content type.
pub(crate) fn long_props(rt: &impl Abort, alloc: Global) -> Props {
    let content_type = long_visible(rt, alloc, 16_384);
    let empty = || Visible::empty(alloc);
    Props::from_parts(alloc, content_type, empty(), empty(), empty(), None)
        .expect(rt, "memory")
        .expect(rt, "props")
}

// One stored policy, which gives only an expiry.
fn policies(rt: &impl Abort, alloc: Global) -> Policies {
    let policy = Policy {
        id: text(rt, alloc, "read-only"),
        start: None,
        expiry: Some(moment(rt)),
        letters: None,
    };
    let policies = vec![in alloc; policy].expect(rt, "memory");
    Policies::new(Items::new(policies)).expect(rt, "good policies")
}

// The level, and one stored policy.
pub(crate) fn acl(rt: &impl Abort, alloc: Global, level: Level) -> Acl {
    Acl {
        level,
        policies: policies(rt, alloc),
    }
}

pub(crate) fn key(rt: &impl Abort, alloc: Global, account: &str, container: &str) -> Key {
    Key {
        account: text(rt, alloc, account),
        container: text(rt, alloc, container),
    }
}

// `date -u -d 2012-10-01T12:00 +%s`, times 10,000,000.
pub(crate) fn moment(rt: &impl Abort) -> Moment {
    Moment::new(13_490_928_000_000_000).expect(rt, "a moment")
}

pub(crate) fn block_id(rt: &impl Abort, alloc: Global, bytes: &[u8]) -> BlockId {
    let bytes = bytes.to_vec(alloc).expect(rt, "memory");
    BlockId::new(Bytes::new(bytes)).expect(rt, "an id")
}

pub(crate) fn share(rt: &impl Abort, alloc: Global, bytes: &[u8]) -> Share
    ensures { result ≡ bytes.now }
{
    let bytes = bytes.to_vec(alloc).expect(rt, "memory");
    Share::new(alloc, bytes).expect(rt, "memory")
}

// A share of so many equal bytes.
pub(crate) fn long_share(rt: &impl Abort, alloc: Global, count: usize) -> Share {
    let bytes = vec![in alloc; 7; count].expect(rt, "memory");
    Share::new(alloc, bytes).expect(rt, "memory")
}

// The pieces as shares of one list.
pub(crate) fn shares(rt: &impl Abort, alloc: Global, pieces: &[&[u8]]) -> Shares {
    let mut shares = Shares::empty(alloc);
    for piece in pieces {
        let share = share(rt, alloc, piece);
        assert!(rt; shares.len() < 100 && share.len() < 100);
        shares.push(share).expect(rt, "memory");
    }
    shares
}
