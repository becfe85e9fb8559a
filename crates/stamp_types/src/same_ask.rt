//! Equality of what requests ask.
ghost use Rattle.std.specs.Prelude.{◌≡◌, ◌↔◌, IsTrue};
ghost use Rattle.stamp_types.specs.SameParts.{HasSameExtras, HasSameMarks, HasSameTarget};

use crate::args::{Args, Kept, Page};
use crate::ask::Ask;
use stamp_values::{Bytes, Credential, Meta, Signing};

fn same_kept(kept: &Kept, other: &Kept) -> bool
    ensures { IsTrue result ↔ (kept.now ≡ other.now) }
{
    kept.content_type == other.content_type
        && kept.encoding == other.encoding
        && kept.language == other.language
        && kept.cache_control == other.cache_control
        && kept.md5 == other.md5
}

fn same_page(page: &Page, other: &Page) -> bool
    ensures { IsTrue result ↔ (page.now ≡ other.now) }
{
    page.prefix == other.prefix
        && page.delimiter == other.delimiter
        && page.marker == other.marker
        && page.max == other.max
        && page.metadata == other.metadata
}

fn same_kept_headers(kept: &Option<Kept>, other: &Option<Kept>) -> bool
    ensures { IsTrue result ↔ (kept.now ≡ other.now) }
{
    match (kept, other) {
        (None, None) => true,
        (Some(kept), Some(other)) => same_kept(kept, other),
        _ => false,
    }
}

fn same_pages(page: &Option<Page>, other: &Option<Page>) -> bool
    ensures { IsTrue result ↔ (page.now ≡ other.now) }
{
    match (page, other) {
        (None, None) => true,
        (Some(page), Some(other)) => same_page(page, other),
        _ => false,
    }
}

fn same_metas(metas: &[Meta], others: &[Meta]) -> bool
    ensures { IsTrue result ↔ (metas.now ≡ others.now) }
{
    metas == others
}

fn same_values(values: &[Bytes], others: &[Bytes]) -> bool
    ensures { IsTrue result ↔ (values.now ≡ others.now) }
{
    values == others
}

fn same_signing(signing: &Signing, other: &Signing) -> bool
    ensures { IsTrue result ↔ (signing.now ≡ other.now) }
{
    signing.verb == other.verb
        && signing.headers.same(&other.headers)
        && signing.path == other.path
        && signing.query.same(&other.query)
}

fn same_credential(credential: &Credential, other: &Credential) -> bool
    ensures { IsTrue result ↔ (credential.now ≡ other.now) }
{
    match (credential, other) {
        (Credential::Shared(values), Credential::Shared(others)) => {
            same_values(values.as_slice(), others.as_slice())
        }
        (Credential::Token, Credential::Token) => true,
        (Credential::Anonymous, Credential::Anonymous) => true,
        _ => false,
    }
}

fn same_extras(args: &Args, other: &Args) -> bool
    ensures { IsTrue result ↔ HasSameExtras args.now other.now }
{
    args.if_match == other.if_match
        && args.if_none_match == other.if_none_match
        && args.content_md5 == other.content_md5
        && args.range == other.range
}

fn same_marks(args: &Args, other: &Args) -> bool
    ensures { IsTrue result ↔ HasSameMarks args.now other.now }
{
    args.level == other.level && args.block == other.block && args.kinds == other.kinds
}

fn same_args(args: &Args, other: &Args) -> bool
    ensures { IsTrue result ↔ (args.now ≡ other.now) }
{
    same_extras(args, other)
        && same_kept_headers(&args.kept, &other.kept)
        && same_metas(args.metadata.as_slice(), other.metadata.as_slice())
        && same_pages(&args.page, &other.page)
        && same_marks(args, other)
}

fn same_target(ask: &Ask, other: &Ask) -> bool
    ensures { IsTrue result ↔ HasSameTarget ask.now other.now }
{
    ask.op == other.op && ask.key.same(&other.key) && ask.blob == other.blob
}

impl Ask {
    /// Whether all parts are equal.
    pub fn same(&self, other: &Self) -> bool
        ensures { IsTrue result ↔ (self.now ≡ other.now) }
    {
        same_target(self, other)
            && same_args(&self.args, &other.args)
            && same_signing(&self.signing, &other.signing)
            && same_credential(&self.credential, &other.credential)
    }
}
