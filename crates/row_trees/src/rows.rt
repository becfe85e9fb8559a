//! The rows of a partition.
ghost use Rattle.std.specs.Prelude.{◌≡◌, IsOk, IsSome, IsTrue, IfOk, None, OnOk, OnErr};
ghost use Rattle.std.specs.Option.{option_copied};

use crate::container::Container;
use crate::found::Found;
use crate::new_row::NewRow;
use block_blobs::FoundBlocks;
use stamp_types::{Acl, Act, Change, Committed, Key, Pieces, Standing, StoredBlob, Text};
use stamp_values::Keyed;
use std::alloc::{AllocError, Global};
use std::marker::Model;

/// The containers of a partition and their blobs in memory, seen as the world that they make.
///
/// A container that was deleted stays with its count. A container that never was takes no memory.
/// Content is shared with the requests that brought it, and never copied.
#[derive(Drop)]
pub struct Rows {
    pub(crate) containers: Keyed<Container>,
}

impl Model for Rows {
    ghost use Rattle.std.specs.Prelude.{List};
    ghost use Rattle.stamp_types.specs.declared.piece.Piece.{Piece};
    ghost use Rattle.stamp_types.specs.World.{World};
    ghost use Rattle.row_trees.specs.BlobRows.{rows_code};

    ghost Value = { World (List Piece) };

    ghost coded = { rows_code };

    ghost view = { λ r. r.containers };
}

// The same change, with texts of its own. The content is shared.
fn copy_of(change: &Change) -> Result<Change, AllocError>
    ensures { IfOk result (λ copy. copy ≡ change.now) }
{
    change.clone()
}

impl Rows {
    ghost use Rattle.std.specs.FinMap as finite;
    ghost use Rattle.stamp_values.specs.Trees.{is_below, is_from};
    ghost use Rattle.stamp_types.specs.Changes.{is_act, is_committed};
    ghost use Rattle.stamp_types.specs.Pieces.{pieces_len};
    ghost use Rattle.stamp_types.specs.World.{part_at, part_value, no_part, blob_in, changed, changed_in, same_pieces};
    ghost use Rattle.stamp_types.specs.declared.act.Act.TheVariants as act;
    ghost use Rattle.block_blobs.specs.StoredRows.{blob_of_row};
    ghost use Rattle.row_trees.specs.Access.{acl_of};
    ghost use Rattle.row_trees.specs.Fits.{deletes, fits};
    ghost use Rattle.row_trees.specs.ListedBlocks.{AreFoundFor};

    /// No containers. Takes no memory.
    pub fn new(alloc: Global) -> Self
        ensures { result ≡ finite.empty }
    {
        Self {
            containers: Keyed::new(alloc),
        }
    }

    /// The container of the key, if it exists or was deleted.
    pub(crate) fn held(&self, key: &Key) -> Option<&Container>
        ensures { option_copied result ≡ finite.get self.now key.now }
    {
        self.containers.get(key)
    }

    // One more container.
    fn add(&mut self, key: Key, container: Container) -> Result<(), AllocError>
        ensures added { OnOk result (self.new ≡ finite.insert self.old key container) }
        ensures refused { OnErr result (self.new ≡ self.old) }
    {
        self.containers.insert(key, container)?;
        Ok(())
    }

    /// What the rows have of the container of the key: its count, what it has beside its blobs, and
    /// its blobs. Whoever asks more than one thing about a container finds it once.
    pub fn find(&self, key: &Key) -> Found<'_>
        ensures { result ≡ part_at self.now key.now }
    {
        Found {
            container: self.held(key),
        }
    }

    /// How many changes the container of the key has seen: 0 if the container never was.
    pub fn count(&self, key: &Key) -> u64
        ensures { result ≡ (part_at self.now key.now).count }
    {
        self.find(key).count()
    }

    /// What the container of the key has beside its blobs, if the container exists.
    pub fn container(&self, key: &Key) -> Option<&Standing>
        ensures { option_copied result ≡ (part_at self.now key.now).standing }
    {
        self.find(key).standing()
    }

    /// The level and the policies of the container of the key, if the container exists.
    pub fn acl(&self, key: &Key) -> Option<&Acl>
        ensures { option_copied result ≡ acl_of (part_at self.now key.now) }
    {
        self.find(key).acl()
    }

    /// What readers of a blob see, if the blob has a committed part.
    pub fn blob(&self, key: &Key, name: &Text) -> Option<&Committed<Pieces>>
        ensures value { option_copied result
            ≡ (blob_in (part_at self.now key.now) name.now).committed }
        ensures blocks { IsTrue (is_committed (option_copied result)) }
    {
        self.find(key).committed(name)
    }

    // The first change of a container that never was.
    fn add_changed(
        &mut self,
        alloc: Global,
        key: Key,
        act: Act,
        found: FoundBlocks,
    ) -> Result<(), AllocError>
        requires fits { IsTrue (fits (part_value pieces_len no_part) act) }
        requires valid { IsTrue (is_act act) }
        requires found { AreFoundFor no_part act found }
        ensures changed { OnOk result
            (self.new ≡ finite.insert self.old key (changed same_pieces act no_part)) }
        ensures refused { OnErr result (self.new ≡ self.old) }
    {
        let mut container = Container::none(alloc);
        container.take(alloc, act, found)?;
        self.add(key, container)
    }

    /// Makes a change that fits, with the blocks that were found for it in these rows, if it commits a
    /// list. The texts and the content of the change and the blocks move into the rows, and no byte of
    /// content is copied. No block is looked up. A deletion takes no memory.
    ///
    /// `AllocError` if memory runs out for a new row, its list of blocks or the tree of its
    /// uncommitted blocks. The rows are then as they were.
    #[tactic(auto, using(crate::proofs::Parts::same_world, crate::proofs::FitLemmas::no_deletion, crate::proofs::FitLemmas::act_of_change))]
    pub fn take_found(
        &mut self,
        alloc: Global,
        change: Change,
        found: FoundBlocks,
    ) -> Result<(), AllocError>
        requires fits { IsTrue
            (fits (part_value pieces_len (part_at self.old change.key)) change.act) }
        requires found { AreFoundFor (part_at self.old change.key) change.act found }
        ensures changed { OnOk result (self.new ≡ changed_in same_pieces self.old change) }
        ensures refused { OnErr result (self.new ≡ self.old) }
        ensures deletes { IsTrue (deletes change.act) → IsOk result }
    {
        let (key, act) = change.into_parts();
        match self.containers.get_mut(&key) {
            Some(container) => container.take(alloc, act, found),
            None => self.add_changed(alloc, key, act, found),
        }
    }

    /// Makes a change that fits, as a log says it: if it commits a list, its blocks are looked up
    /// first. The texts and the content of the change move into the rows, and no byte of content is
    /// copied. A deletion takes no memory.
    ///
    /// `AllocError` if memory runs out for the look-ups, a new row, its list of blocks or the tree of
    /// its uncommitted blocks, or if the content of a listed block can have no further owner. The rows
    /// are then as they were.
    #[tactic(auto, using(crate::proofs::FitLemmas::deletion_commits_nothing))]
    pub fn take(&mut self, alloc: Global, change: Change) -> Result<(), AllocError>
        requires { IsTrue (fits (part_value pieces_len (part_at self.old change.key)) change.act) }
        ensures changed { OnOk result (self.new ≡ changed_in same_pieces self.old change) }
        ensures refused { OnErr result (self.new ≡ self.old) }
        ensures deletes { IsTrue (deletes change.act) → IsOk result }
    {
        let found = self.found_for(alloc, &change)?;
        self.take_found(alloc, change, found)
    }

    /// Puts the row of a blob in the place of the row that the blob has, which is dropped. The row was made before, so that this takes no
    /// memory: the rows then are as a record of the row says it.
    pub fn replace_row(&mut self, key: &Key, row: &StoredBlob, new: NewRow)
        requires there { IsSome (finite.get (part_at self.old key.now).blobs row.now.blob) }
        requires made { new ≡ blob_of_row row.now }
        ensures changed { self.new ≡ changed_in same_pieces self.old (record {
          key = key.now;
          act = act.StoredBlob row.now;
        }) }
    {
        match self.containers.get_mut(key) {
            Some(container) => container.replace_row(row, new.row),
            None => unreachable!("the caller has seen that the blob has a row"),
        }
    }

    /// Takes the containers of `middle` and of each key after it out of the rows, and gives them. The
    /// containers of the keys before `middle` stay. Each container goes or stays whole: with its count,
    /// what it has beside its blobs, its blobs and their uncommitted blocks.
    ///
    /// `AllocError` if memory runs out. Each container is then where it was.
    pub fn split_off(&mut self, middle: &Key) -> Result<Self, AllocError>
        ensures below { OnOk result (self.new ≡ finite.retain_keys self.old (is_below middle.now)) }
        ensures from { IfOk result (λ upper.
            upper ≡ finite.retain_keys self.old (is_from middle.now)) }
        ensures refused { OnErr result (self.new ≡ self.old) }
    {
        let containers = self.containers.split_off(middle)?;
        Ok(Self { containers })
    }

    /// Makes a copy of a change, as `take` makes the change itself. The copy has texts of its own,
    /// and shares the content.
    ///
    /// `AllocError` if memory runs out, or the content can have no further owner. The rows are then
    /// as they were.
    pub fn apply(&mut self, alloc: Global, change: &Change) -> Result<(), AllocError>
        requires { IsTrue
            (fits (part_value pieces_len (part_at self.old change.now.key)) change.now.act) }
        ensures changed { OnOk result (self.new ≡ changed_in same_pieces self.old change.now) }
        ensures refused { OnErr result (self.new ≡ self.old) }
    {
        self.take(alloc, copy_of(change)?)
    }
}
