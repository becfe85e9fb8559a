//! The slots to which requests go.
ghost use Rattle.std.specs.Prelude.{◌≡◌, [], IfOk, false, unwrap_or};
ghost use Rattle.std.specs.Option.{option_and_then};
ghost use Rattle.stamp_values.specs.Operations.{names_container};
ghost use Rattle.stamp_model.specs.SeenContainers.{routed};

use stamp_types::{Key, Request, Text};
use std::alloc::{AllocError, Global};

// The marker of a list; the empty text if it has none.
fn marker(alloc: Global, request: &Request) -> Result<Text, AllocError>
    ensures { IfOk result (λ text. text
        ≡ unwrap_or (option_and_then (λ page. page.marker) request.now.ask.args.page) []) }
{
    match &request.ask().args.page {
        Some(page) => match &page.marker {
            Some(marker) => marker.clone(),
            None => Ok(Text::empty(alloc)),
        },
        None => Ok(Text::empty(alloc)),
    }
}

/// The first key that a List Containers looks at.
#[tactic(auto, using(crate::proofs::RouteLemmas::routed_by_marker))]
pub(crate) fn first_seen(alloc: Global, request: &Request) -> Result<Key, AllocError>
    ensures { IfOk result (λ key. names_container request.now.ask.op ≡ false → key ≡ routed request.now) }
{
    let account = request.ask().key.account.clone()?;
    let container = marker(alloc, request)?;
    Ok(Key { account, container })
}
