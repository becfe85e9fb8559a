//! If-Match and If-None-Match, judged on the blob that a request names.
ghost use Rattle.std.specs.Prelude.{◌≡◌, ◌&&◌, not};
ghost use Rattle.std.specs.Option.{option_copied};
ghost use Rattle.stamp_values.specs.Operations.{has_conditions, writes};
ghost use Rattle.row_trees.specs.FoundParts.{sized};
ghost use Rattle.range_rows.specs.ObjectRules as rules;

use stamp_types::{Ask, Committed, Condition, Pieces};

// Whether the blob matches the condition. A blob that readers do not see matches no condition.
fn matches(blob: Option<&Committed<Pieces>>, wanted: Condition) -> bool
    ensures { result ≡ rules.matches (sized (option_copied blob.entry)) wanted }
{
    let Some(blob) = blob else {
        return false;
    };
    match wanted {
        Condition::Any => true,
        Condition::Count(etag) => blob.etag == etag,
        Condition::Never => false,
    }
}

// Whether the condition is sent, and the blob matches it.
fn meets(blob: Option<&Committed<Pieces>>, condition: Option<Condition>) -> bool
    ensures { result ≡ rules.meets (sized (option_copied blob.entry)) condition }
{
    match condition {
        Some(wanted) => matches(blob, wanted),
        None => false,
    }
}

// Whether the condition is sent, and the blob does not match it.
fn misses(blob: Option<&Committed<Pieces>>, condition: Option<Condition>) -> bool
    ensures { result ≡ rules.misses (sized (option_copied blob.entry)) condition }
{
    match condition {
        Some(wanted) => !matches(blob, wanted),
        None => false,
    }
}

// Whether the condition is sent, and it is `*`.
fn is_any(condition: Option<Condition>) -> bool
    ensures { result ≡ rules.is_any condition }
{
    matches!(condition, Some(Condition::Any))
}

/// Whether If-Match fails: the blob is not as the request wants it.
pub(crate) fn fails_if_match(blob: Option<&Committed<Pieces>>, ask: &Ask) -> bool
    ensures { result ≡ (has_conditions ask.now.op
        && rules.misses (sized (option_copied blob.entry)) ask.now.args.if_match) }
{
    ask.op.has_conditions() && misses(blob, ask.args.if_match)
}

// Whether If-None-Match fails: the blob is as the request does not want it.
fn fails_if_none_match(blob: Option<&Committed<Pieces>>, ask: &Ask) -> bool
    ensures { result ≡ (has_conditions ask.now.op
        && rules.meets (sized (option_copied blob.entry)) ask.now.args.if_none_match) }
{
    ask.op.has_conditions() && meets(blob, ask.args.if_none_match)
}

/// Whether If-None-Match fails on a request that reads.
pub(crate) fn is_not_modified(blob: Option<&Committed<Pieces>>, ask: &Ask) -> bool
    ensures { result ≡ (not (writes ask.now.op) && (has_conditions ask.now.op
        && rules.meets (sized (option_copied blob.entry)) ask.now.args.if_none_match)) }
{
    !ask.op.writes() && fails_if_none_match(blob, ask)
}

/// Whether If-None-Match fails on a request that writes, since the blob must not exist.
pub(crate) fn must_be_new(blob: Option<&Committed<Pieces>>, ask: &Ask) -> bool
    ensures { result ≡ (writes ask.now.op && (rules.is_any ask.now.args.if_none_match
        && (has_conditions ask.now.op
        && rules.meets (sized (option_copied blob.entry)) ask.now.args.if_none_match))) }
{
    ask.op.writes() && is_any(ask.args.if_none_match) && fails_if_none_match(blob, ask)
}

/// Whether If-None-Match fails on a request that writes, since the blob has the ETag.
pub(crate) fn has_unwanted_etag(blob: Option<&Committed<Pieces>>, ask: &Ask) -> bool
    ensures { result ≡ (writes ask.now.op && (not (rules.is_any ask.now.args.if_none_match)
        && (has_conditions ask.now.op
        && rules.meets (sized (option_copied blob.entry)) ask.now.args.if_none_match))) }
{
    ask.op.writes() && !is_any(ask.args.if_none_match) && fails_if_none_match(blob, ask)
}
