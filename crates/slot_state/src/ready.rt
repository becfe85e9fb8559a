//! A request is made ready before the lock of a slot is taken.
ghost use Rattle.std.specs.Prelude.{◌≡◌, IfOk};
ghost use Rattle.policy_book.specs.Judgements.{IsOfAsk};
ghost use Rattle.stamp_model.specs.SeenContainers.{routed};
ghost use Rattle.slot_state.specs.Markers.{marker_key, marker_of};

use crate::account_pairs::AccountPairs;
use policy_book::{Judged, judge};
use stamp_types::{Ask, Key, Moment, Request, Text};
use std::alloc::{AllocError, Global};

/// A request that is ready for the lock of a slot: what takes time without the slot is done. What its body says is read apart, since the slot keeps
/// parts of the reading.
#[derive(Drop)]
pub struct Ready<'a> {
    pub request: &'a Request,
    /// When the request is served.
    pub moment: Moment,
    /// The first key that the request looks at.
    pub first: Key,
    /// The judgement on the signature, by the key pair of the account that is in force; none if the stamp has no such account.
    pub judged: Option<Judged<'a>>,
    /// Whether an entry of the audit book is made, if the request is let in.
    pub is_audited: bool,
}

// The container at which a list begins: its marker, or the empty text.
fn marker(alloc: Global, ask: &Ask) -> Result<Text, AllocError>
    ensures { IfOk result (λ text. text ≡ marker_of ask.now) }
{
    let Some(page) = &ask.args.page else {
        return Ok(Text::empty(alloc));
    };
    match &page.marker {
        Some(marker) => marker.clone(),
        None => Ok(Text::empty(alloc)),
    }
}

/// The key of the marker at which a List Containers begins.
///
/// `AllocError` if memory runs out.
pub fn key_of_list(alloc: Global, ask: &Ask) -> Result<Key, AllocError>
    ensures { IfOk result (λ key. key ≡ marker_key ask.now) }
{
    let account = ask.key.account.clone()?;
    let container = marker(alloc, ask)?;
    Ok(Key { account, container })
}

// The key once more. No byte of it is copied.
fn copy_of(key: &Key) -> Result<Key, AllocError>
    ensures { IfOk result (λ copy. copy ≡ key.now) }
{
    key.clone()
}

// The first key that the request looks at.
fn first_key(alloc: Global, request: &Request) -> Result<Key, AllocError>
    ensures { IfOk result (λ key. key ≡ routed request.now) }
{
    let ask = request.ask();
    if ask.op.names_container() {
        return copy_of(&ask.key);
    }
    key_of_list(alloc, ask)
}

// The judgement on the signature, by the pair in force.
fn judgement<'a>(
    alloc: Global,
    pairs: &AccountPairs,
    request: &'a Request,
) -> Result<Option<Judged<'a>>, AllocError>
    ensures { IfOk result (λ judged. IsOfAsk judged request.now.ask) }
{
    let Some(pair) = pairs.of_account(&request.ask().key.account).last() else {
        return Ok(None);
    };
    let judged = judge(alloc, pair, request)?;
    Ok(Some(judged))
}

impl<'a> Ready<'a> {
    /// The request with its first key, and with the judgement on its signature by the pair in force among these pairs.
    ///
    /// `AllocError` if memory runs out.
    pub fn of(
        alloc: Global,
        pairs: &AccountPairs,
        request: &'a Request,
        moment: Moment,
        is_audited: bool,
    ) -> Result<Self, AllocError>
        ensures request { IfOk result (λ ready. ready.request.now ≡ request.now) }
        ensures moment { IfOk result (λ ready. ready.moment ≡ moment) }
        ensures first { IfOk result (λ ready. ready.first ≡ routed request.now) }
        ensures judged { IfOk result (λ ready. IsOfAsk ready.judged request.now.ask) }
        ensures audited { IfOk result (λ ready. ready.is_audited ≡ is_audited) }
    {
        let first = first_key(alloc, request)?;
        let judged = judgement(alloc, pairs, request)?;
        Ok(Self {
            request,
            moment,
            first,
            judged,
            is_audited,
        })
    }
}
