//! The key pairs of one account.
ghost use Rattle.std.specs.Prelude.{◌≡◌, ◌≤◌, ◌<◌, ◌∷◌, ◌++◌, [], IfOk, length, slice_get};
ghost use Rattle.std.specs.Arc.{arc_value};
ghost use Rattle.std.specs.Option.{option_copied, option_map};
ghost use Rattle.slot_state.specs.PairLists.{HasParts, joined};
ghost use Rattle.slot_state.specs.Pairs.{in_force};

use crate::chunk::Chunk;
use access_rules::Keys;
use stamp_values::Shared;
use std::alloc::{AllocError, Global};
use std::marker::Model;
use std::sync::Arc;

// So many pairs are in each chunk but the newest.
const CHUNK_LEN: usize = 64;

/// The key pairs of one account, the oldest pair first, seen as the list.
///
/// Each pair is shared, and so is each chunk of 64 pairs but the newest: a longer list copies one pointer for each older chunk, and at most 64
/// pointers to pairs.
#[derive(Drop)]
pub struct PairList {
    older: Vec<Shared<Chunk>>,
    newest: Chunk,
    len: usize,
}

impl Model for PairList {
    ghost use Rattle.std.specs.Prelude.{◌++◌, List};
    ghost use Rattle.access_rules.specs.declared.keys.Keys.{Keys};
    ghost use Rattle.slot_state.specs.PairLists.{HasParts, joined};

    ghost Value = { List Keys };

    ghost view = { λ l. joined l.older.items ++ l.newest };

    ghost invariant = { λ l. HasParts l.older.items l.newest l.len };
}

// The chunk at this place; none if there are not so many chunks.
fn chunk_at(older: &[Shared<Chunk>], at: usize) -> Option<&Chunk>
    ensures { option_copied result ≡ slice_get older.now at }
{
    match older.get(at) {
        Some(chunk) => Some(chunk.get()),
        None => None,
    }
}

// The same chunks, which both lists share.
#[tactic(auto, using(crate::proofs::PairLemmas::same_items))]
fn copies(older: &Vec<Shared<Chunk>>) -> Result<Vec<Shared<Chunk>>, AllocError>
    ensures { IfOk result (λ copy. copy.items ≡ older.now.items) }
{
    let copy = older.clone()?;
    Ok(copy)
}

// A copy of the chunk, which can be shared.
fn shared(alloc: Global, chunk: &Chunk) -> Result<Shared<Chunk>, AllocError>
    ensures { IfOk result (λ shared. shared ≡ chunk.now) }
{
    let copy = chunk.copied()?;
    let shared = Shared::new(alloc, copy)?;
    Ok(shared)
}

// The same chunks, and one more that comes last.
fn one_more(
    alloc: Global,
    older: &Vec<Shared<Chunk>>,
    chunk: &Chunk,
) -> Result<Vec<Shared<Chunk>>, AllocError>
    ensures { IfOk result (λ more. more.items ≡ older.now.items ++ chunk.now ∷ []) }
{
    let last = shared(alloc, chunk)?;
    let mut more = copies(older)?;
    more.push(last)?;
    Ok(more)
}

// The pairs of the chunk, and one more that comes last.
fn longer_chunk(chunk: &Chunk, pair: Arc<Keys>) -> Result<Chunk, AllocError>
    ensures { IfOk result (λ longer. longer ≡ chunk.now ++ arc_value pair ∷ []) }
{
    let mut longer = chunk.copied()?;
    longer.push(pair)?;
    Ok(longer)
}

// A list with one pair more in the newest chunk, which has room.
#[tactic(auto, using(crate::proofs::PartLemmas::parts_in_room, crate::proofs::PartLemmas::joined_in_room))]
fn in_room(
    older: &Vec<Shared<Chunk>>,
    newest: &Chunk,
    len: usize,
    pair: Arc<Keys>,
) -> Result<PairList, AllocError>
    requires parts { HasParts older.now.items newest.now len }
    requires room { length newest.now < 64 }
    requires count { len < 18_446_744_073_709_551_615 }
    ensures { IfOk result (λ list. list ≡ (joined older.now.items ++ newest.now) ++ arc_value pair ∷ []) }
{
    let newest = longer_chunk(newest, pair)?;
    let older = copies(older)?;
    Ok(PairList {
        older,
        newest,
        len: len + 1,
    })
}

// A list with one pair more, for which a chunk begins: the newest chunk is full.
#[tactic(auto, using(crate::proofs::PartLemmas::joined_after))]
fn after_chunk(
    alloc: Global,
    older: &Vec<Shared<Chunk>>,
    newest: &Chunk,
    len: usize,
    pair: Arc<Keys>,
) -> Result<PairList, AllocError>
    requires parts { HasParts older.now.items newest.now len }
    requires full { 64 ≤ length newest.now }
    requires count { len < 18_446_744_073_709_551_615 }
    ensures { IfOk result (λ list. list ≡ (joined older.now.items ++ newest.now) ++ arc_value pair ∷ []) }
{
    let begun = Chunk::of(alloc, pair)?;
    let older = one_more(alloc, older, newest)?;
    Ok(PairList {
        older,
        newest: begun,
        len: len + 1,
    })
}

impl PairList {
    /// No pairs. Takes no memory.
    #[tactic(auto, using(crate::proofs::PartLemmas::no_parts))]
    pub fn new(alloc: Global) -> Self
        ensures { result ≡ [] }
    {
        Self {
            older: Vec::new(alloc),
            newest: Chunk::new(alloc),
            len: 0,
        }
    }

    /// The same pairs, which both lists share.
    ///
    /// `AllocError` if memory runs out, or if a pair can have no further owner.
    pub fn copied(&self) -> Result<Self, AllocError>
        ensures { IfOk result (λ copy. copy ≡ self.now) }
    {
        let newest = self.newest.copied()?;
        let older = copies(&self.older)?;
        Ok(Self {
            older,
            newest,
            len: self.len,
        })
    }

    /// These pairs and one pair more, which comes last. Both lists share these pairs.
    ///
    /// `AllocError` if memory runs out, or if a pair can have no further owner, or if there are as many pairs as can be counted.
    pub fn longer(&self, alloc: Global, pair: Arc<Keys>) -> Result<Self, AllocError>
        ensures { IfOk result (λ list. list ≡ self.now ++ arc_value pair ∷ []) }
    {
        if self.len == usize::MAX {
            drop(pair);
            return Err(AllocError);
        }
        if self.newest.len() < CHUNK_LEN {
            return in_room(&self.older, &self.newest, self.len, pair);
        }
        after_chunk(alloc, &self.older, &self.newest, self.len, pair)
    }

    /// The list of one pair.
    ///
    /// `AllocError` if memory runs out.
    pub fn first(alloc: Global, pair: Arc<Keys>) -> Result<Self, AllocError>
        ensures { IfOk result (λ list. list ≡ arc_value pair ∷ []) }
    {
        let newest = Chunk::of(alloc, pair)?;
        Ok(Self {
            older: Vec::new(alloc),
            newest,
            len: 1,
        })
    }

    /// How many pairs there are.
    #[tactic(auto, using(crate::proofs::PartLemmas::counted))]
    pub fn len(&self) -> usize
        ensures { result ≡ length self.now }
    {
        self.len
    }

    /// The pair at this place, from 0 on; none if there are not so many pairs.
    #[tactic(auto, using(crate::proofs::PartLemmas::found_older, crate::proofs::PartLemmas::found_newest))]
    pub fn get(&self, at: usize) -> Option<&Arc<Keys>>
        ensures { option_map arc_value (option_copied result) ≡ slice_get self.now at }
    {
        match chunk_at(&self.older, at / CHUNK_LEN) {
            Some(chunk) => chunk.get(at % CHUNK_LEN),
            None => self.newest.get(at - CHUNK_LEN * self.older.len()),
        }
    }

    /// The pair in force, which is the last one, with all its owners.
    #[tactic(auto, using(crate::proofs::PartLemmas::last_newest))]
    pub fn last(&self) -> Option<&Arc<Keys>>
        ensures { option_map arc_value (option_copied result) ≡ in_force self.now }
    {
        self.newest.last()
    }

    /// The pair in force.
    pub fn current(&self) -> Option<&Keys>
        ensures { option_copied result ≡ in_force self.now }
    {
        match self.last() {
            Some(pair) => Some(pair),
            None => None,
        }
    }
}
