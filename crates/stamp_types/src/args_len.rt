//! How long the texts of a request are together.
ghost use Rattle.std.specs.Prelude.{◌≡◌, ◌↔◌, ◌+◌, ◌≤◌, IsTrue, IsSome, IfSome, length};
ghost use Rattle.stamp_values.specs.Limits.{args_limit};
ghost use Rattle.stamp_values.specs.MetadataLists.{metadata_len};
ghost use Rattle.stamp_types.specs.Requests.{given_len, kept_len, page_len, args_len};

use crate::args::{Args, Kept, Page};
use stamp_values::{ARGS_LIMIT, Meta, Text};

// Each function takes how many bytes are left of the limit. It answers how many bytes are left
// after its part, or `None` if the part has more bytes than are left. So no sum is made that could
// overflow.

fn left_after_text(left: usize, text: &Option<Text>) -> Option<usize>
    ensures fits { IsSome result ↔ (given_len text.now ≤ left) }
    ensures value { IfSome result (λ rest. given_len text.now + rest ≡ left) }
{
    match text {
        None => Some(left),
        Some(text) => left.checked_sub(text.as_str().len()),
    }
}

fn left_after_kept(left: usize, kept: &Option<Kept>) -> Option<usize>
    ensures fits { IsSome result ↔ (kept_len kept.now ≤ left) }
    ensures value { IfSome result (λ rest. kept_len kept.now + rest ≡ left) }
{
    match kept {
        None => Some(left),
        Some(kept) => left
            .checked_sub(kept.content_type.as_str().len())?
            .checked_sub(kept.encoding.as_str().len())?
            .checked_sub(kept.language.as_str().len())?
            .checked_sub(kept.cache_control.as_str().len()),
    }
}

fn left_after_metadata(left: usize, metas: &[Meta]) -> Option<usize>
    ensures fits { IsSome result ↔ (metadata_len metas.now ≤ left) }
    ensures value { IfSome result (λ rest. metadata_len metas.now + rest ≡ left) }
{
    let mut rest = left;
    for meta in metas {
        rest = rest
            .checked_sub(meta.name.as_str().len())?
            .checked_sub(meta.value.as_str().len())?;
    }
    Some(rest)
}

fn left_after_page(left: usize, page: &Option<Page>) -> Option<usize>
    ensures fits { IsSome result ↔ (page_len page.now ≤ left) }
    ensures value { IfSome result (λ rest. page_len page.now + rest ≡ left) }
{
    match page {
        None => Some(left),
        Some(page) => {
            let left = left_after_text(left, &page.prefix)?;
            let left = left_after_text(left, &page.delimiter)?;
            left_after_text(left, &page.marker)
        }
    }
}

fn left_after_args(left: usize, args: &Args) -> Option<usize>
    ensures fits { IsSome result ↔ (args_len args.now ≤ left) }
    ensures value { IfSome result (λ rest. args_len args.now + rest ≡ left) }
{
    let left = left_after_kept(left, &args.kept)?;
    let left = left_after_metadata(left, args.metadata.as_slice())?;
    let left = left_after_page(left, &args.page)?;
    match &args.block {
        None => Some(left),
        Some(id) => left.checked_sub(id.as_slice().len()),
    }
}

// Whether texts and ids have at most 16,384 bytes together.
pub(crate) fn are_args_short(args: &Args) -> bool
    ensures { IsTrue result ↔ (args_len args.now ≤ args_limit) }
{
    left_after_args(ARGS_LIMIT, args).is_some()
}
