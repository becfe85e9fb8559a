//! The three streams of a partition.
ghost use Rattle.std.specs.Prelude.{◌≡◌};

use crate::changes::next_in;
use crate::data::put_content;
use crate::faults::TakeFault;
use crate::logging::{append_record, record_of};
use crate::part::{Part, part_at};
use crate::position::Position;
use extent_node::Wire;
use extent_seal::ReadFault;
use stamp_types::{Change, Piece, Pieces};
use stamp_values::Share;
use std::alloc::{AllocError, Global};
use std::marker::Model;
use stream_manager::{Settled, StoredFault, Stream};

/// The log of a partition, its data, and the rows of its last checkpoint (SOSP 2011, section 5).
///
/// Each block of the log and of the rows is the record of a change, and each content that such a change brings is in the data.
#[derive(Drop)]
pub struct Streams {
    pub(crate) alloc: Global,
    pub(crate) log: Stream,
    pub(crate) blobs: Stream,
    pub(crate) rows: Stream,
}

impl Model for Streams {
    ghost use Rattle.partition_stream.specs.Streams.{ThreeStreams};
    ghost use Rattle.partition_stream.specs.Storing.{AreKept};

    ghost Value = { ThreeStreams };

    ghost view = { λ s. record { log = s.log; blobs = s.blobs; rows = s.rows } };

    ghost invariant = { λ s. AreKept (record { log = s.log; blobs = s.blobs; rows = s.rows }) };
}

impl Streams {
    ghost use Rattle.std.specs.Prelude.{◌≡◌, ◌≢◌, ◌≤◌, ◌<◌, ◌⊎◌, ◌+◌, ◌++◌, ◌∷◌, ⊤, [], true, false, None, Err, IfOk, OnOk, OnErr, IsTrue, MatchOption, length, slice_range};
    ghost use Rattle.extent_seal.specs.Counting.{AsksNoOther, Grows, SomeAnswers, all_faults};
    ghost use Rattle.extent_seal.specs.Heard.{AsksAreHeard};
    ghost use Rattle.extent_seal.specs.declared.sealed.ReadFault.TheVariants.{Unreachable};
    ghost use Rattle.stamp_types.specs.Pieces.{is_held, piece_len};
    ghost use Rattle.stream_manager.specs.Counting.{CallsSettle, FailsSettle, kept_in};
    ghost use Rattle.stream_manager.specs.Places.{GoesOn, KeepsPlaces};
    ghost use Rattle.stream_manager.specs.Streams.{laid};
    ghost use Rattle.stream_manager.specs.declared.faults.StoredFault.TheVariants as stored_fault;
    ghost use Rattle.partition_stream.specs.Contents.{ArePlaced, EndsWithBlock, IsStored, bytes_at, extent_of};
    ghost use Rattle.partition_stream.specs.Counting.{CallsLog, CallsPut, CallsSeals, FailsLog, FailsPut, FailsSeals, sealed_extents};
    ghost use Rattle.partition_stream.specs.Outcomes.{IsKeptAt, IsLogged, IsLogSettled, IsLogSealed};
    ghost use Rattle.partition_stream.specs.Parts.{is_piece_in_last};
    ghost use Rattle.partition_stream.specs.Positions.{all_changes, changes_before};
    ghost use Rattle.partition_stream.specs.Storing.{AreKept, IsStoredChange};
    ghost use Rattle.partition_stream.specs.Streams.{AreSealed, HaveSameBlocks, HaveSameLimits, IsEmptyLast, logged};
    ghost use Rattle.partition_stream.specs.Sweeping.{AreFrom};
    ghost use Rattle.partition_stream.specs.Written.{written_len};
    ghost use Rattle.partition_stream.specs.declared.faults.TakeFault.TheVariants.{Busy, Doubt, NoMemory};

    /// Streams without a change and without data, whose extents of two or more blocks have at most `extent_bytes` bytes. Takes no memory.
    pub fn new(alloc: Global, extent_bytes: u32) -> Self
        ensures rows { (logged result).rows ≡ [] }
        ensures log { (logged result).log ≡ [] }
        ensures doubt { (logged result).doubt ≡ None }
        ensures data { laid result.blobs ≡ [] ∷ [] }
        ensures sealed { AreSealed result }
        ensures log_limit { result.log.limit ≡ extent_bytes }
        ensures blobs_limit { result.blobs.limit ≡ extent_bytes }
        ensures rows_limit { result.rows.limit ≡ extent_bytes }
    {
        Self {
            alloc,
            log: Stream::new(alloc, extent_bytes),
            blobs: Stream::new(alloc, extent_bytes),
            rows: Stream::new(alloc, extent_bytes),
        }
    }

    /// Tells the caller what the streams keep: their type has this as its invariant, which only this crate sees. Does nothing.
    pub fn kept(&self)
        ensures { AreKept self.now }
    {
        let _log = &self.log;
    }

    /// Puts content into the data, a block for each piece, and answers the pieces that say where these blocks are. No byte is copied.
    ///
    /// After a fault blocks may be left in the data to which nothing refers. Busy: a block was tried twice, or no node answered a seal.
    /// NoMemory: memory ran out before a node was called for a block. No block before it was excluded twice, and no seal failed.
    pub fn put_data<W: Wire>(
        &mut self,
        content: &Pieces,
        wire: &mut W,
    ) -> Result<Pieces, StoredFault>
        requires { IsTrue (is_held content.now) }
        ensures placed { IfOk result (λ ps. ArePlaced (laid self.new.blobs) content.now ps) }
        ensures after { IfOk result (λ ps. AreFrom (length self.old.blobs.sealed) ps) }
        ensures kept { KeepsPlaces (laid self.old.blobs) (laid self.new.blobs) }
        ensures follows { GoesOn (laid self.old.blobs) (laid self.new.blobs) }
        ensures log { self.new.log ≡ self.old.log }
        ensures rows { self.new.rows ≡ self.old.rows }
        ensures limit { self.new.blobs.limit ≡ self.old.blobs.limit }
        ensures called { CallsPut result (length content.now) (length self.old.blobs.sealed) (length self.new.blobs.sealed) (W.calls wire.old) (W.calls wire.new) }
        ensures counted { FailsPut result (W.faults wire.old) (W.faults wire.new) }
        ensures heard { result ≢ Err stored_fault.Busy → AsksAreHeard (W.calls wire.old) (W.calls wire.new) (W.faults wire.old) (W.faults wire.new) }
        ensures spent { result ≡ Err stored_fault.NoMemory → ((self.new.blobs ≡ self.old.blobs) × (wire.new ≡ wire.old)) ⊎ EndsWithBlock (laid self.new.blobs) }
    {
        put_content(self.alloc, &mut self.blobs, content, wire)
    }

    /// Appends the record of a change with its epoch to the log, and answers how many bytes the record has. An older doubt is settled first.
    ///
    /// Busy: the change is not in the log, since its record was tried twice, or no node answered the seal of a full extent or of an older
    /// doubt. Doubt: some delivery was not Done, and then no node answered; the change is in doubt until the next settle, seal or change.
    /// NoMemory: no node was called, and the streams are as they were.
    #[tactic(auto, using(extent_seal::proofs::HeardLemmas::heard_none))]
    pub fn log_change<W: Wire>(
        &mut self,
        change: &Change,
        epoch: u64,
        wire: &mut W,
    ) -> Result<u64, TakeFault>
        requires stored { IsStoredChange (laid self.old.blobs) change.now }
        ensures length { IfOk result (λ n. n ≡ written_len (change.now, epoch)) }
        ensures logged { IsLogged result self.old (change.now, epoch) self.new }
        ensures follows { GoesOn (laid self.old.log) (laid self.new.log) }
        ensures blobs { self.new.blobs ≡ self.old.blobs }
        ensures rows { self.new.rows ≡ self.old.rows }
        ensures limit { self.new.log.limit ≡ self.old.log.limit }
        ensures called { CallsLog result (length self.old.log.sealed) (length self.new.log.sealed) (W.calls wire.old) (W.calls wire.new) }
        ensures counted { FailsLog result (length self.old.log.sealed) (length self.new.log.sealed) (W.faults wire.old) (W.faults wire.new) }
        ensures heard { result ≢ Err Doubt → result ≢ Err Busy → AsksAreHeard (W.calls wire.old) (W.calls wire.new) (W.faults wire.old) (W.faults wire.new) }
        ensures unheard { result ≡ Err NoMemory → wire.new ≡ wire.old }
    {
        let block = record_of(self.alloc, change, epoch)?;
        append_record(&mut self.log, &block, wire)
    }

    /// Settles a doubt of the log, if there is one: the change that is in doubt is kept or dropped. A change that is kept has its record
    /// at the place that is answered.
    ///
    /// Busy: no node answered. NoMemory: no node was called. After both the streams are as they were, and the doubt stays.
    pub fn settle<W: Wire>(&mut self, wire: &mut W) -> Result<Settled, StoredFault>
        ensures settled { IsLogSettled result self.old self.new }
        ensures at { IsKeptAt result self.old.log self.new.log }
        ensures follows { GoesOn (laid self.old.log) (laid self.new.log) }
        ensures blobs { self.new.blobs ≡ self.old.blobs }
        ensures rows { self.new.rows ≡ self.old.rows }
        ensures limit { self.new.log.limit ≡ self.old.log.limit }
        ensures called { CallsSettle result (W.calls wire.old) (W.calls wire.new) }
        ensures counted { FailsSettle result (W.faults wire.old) (W.faults wire.new) }
        ensures heard { result ≢ Err stored_fault.Busy → AsksAreHeard (W.calls wire.old) (W.calls wire.new) (W.faults wire.old) (W.faults wire.new) }
    {
        self.log.settle(wire)
    }

    // Seals the log.
    #[tactic(auto, using(crate::proofs::CallLemmas::seal_calls))]
    fn seal_log<W: Wire>(&mut self, wire: &mut W) -> Result<(), StoredFault>
        ensures log { IsLogSealed result self.old self.new }
        ensures follows { GoesOn (laid self.old.log) (laid self.new.log) }
        ensures sealed { OnOk result (IsEmptyLast self.new.log) }
        ensures blobs { self.new.blobs ≡ self.old.blobs }
        ensures rows { self.new.rows ≡ self.old.rows }
        ensures limit { self.new.log.limit ≡ self.old.log.limit }
        ensures called { CallsSeals result (length self.old.log.sealed) (length self.new.log.sealed) (W.calls wire.old) (W.calls wire.new) }
        ensures once { length self.new.log.sealed ≤ length self.old.log.sealed + 1 }
        ensures counted { FailsSeals result (W.faults wire.old) (W.faults wire.new) }
        ensures heard { result ≢ Err stored_fault.Busy → AsksAreHeard (W.calls wire.old) (W.calls wire.new) (W.faults wire.old) (W.faults wire.new) }
    {
        self.log.seal(wire)
    }

    // Seals the data.
    #[tactic(auto, using(crate::proofs::CallLemmas::seal_calls))]
    fn seal_blobs<W: Wire>(&mut self, wire: &mut W) -> Result<(), StoredFault>
        ensures kept { KeepsPlaces (laid self.old.blobs) (laid self.new.blobs) }
        ensures follows { GoesOn (laid self.old.blobs) (laid self.new.blobs) }
        ensures sealed { OnOk result (IsEmptyLast self.new.blobs) }
        ensures log { self.new.log ≡ self.old.log }
        ensures rows { self.new.rows ≡ self.old.rows }
        ensures limit { self.new.blobs.limit ≡ self.old.blobs.limit }
        ensures called { CallsSeals result (length self.old.blobs.sealed) (length self.new.blobs.sealed) (W.calls wire.old) (W.calls wire.new) }
        ensures once { length self.new.blobs.sealed ≤ length self.old.blobs.sealed + 1 }
        ensures counted { FailsSeals result (W.faults wire.old) (W.faults wire.new) }
        ensures heard { result ≢ Err stored_fault.Busy → AsksAreHeard (W.calls wire.old) (W.calls wire.new) (W.faults wire.old) (W.faults wire.new) }
    {
        self.blobs.seal(wire)
    }

    // Seals the rows.
    #[tactic(auto, using(crate::proofs::CallLemmas::seal_calls))]
    fn seal_rows<W: Wire>(&mut self, wire: &mut W) -> Result<(), StoredFault>
        ensures same { (logged self.new).rows ≡ (logged self.old).rows }
        ensures sealed { OnOk result (IsEmptyLast self.new.rows) }
        ensures log { self.new.log ≡ self.old.log }
        ensures blobs { self.new.blobs ≡ self.old.blobs }
        ensures limit { self.new.rows.limit ≡ self.old.rows.limit }
        ensures called { CallsSeals result (length self.old.rows.sealed) (length self.new.rows.sealed) (W.calls wire.old) (W.calls wire.new) }
        ensures once { length self.new.rows.sealed ≤ length self.old.rows.sealed + 1 }
        ensures counted { FailsSeals result (W.faults wire.old) (W.faults wire.new) }
        ensures heard { result ≢ Err stored_fault.Busy → AsksAreHeard (W.calls wire.old) (W.calls wire.new) (W.faults wire.old) (W.faults wire.new) }
    {
        self.rows.seal(wire)
    }

    /// Seals the log, the data and the rows, and settles their doubts. A stream whose last extent is empty is left as it is.
    ///
    /// Busy: no node answered the seal of a stream. NoMemory: no node was called for a stream. After both some of the streams may be
    /// sealed: the log is sealed first, and the rows last, but no clause says so.
    pub fn seal<W: Wire>(&mut self, wire: &mut W) -> Result<(), StoredFault>
        ensures sealed { OnOk result (AreSealed self.new) }
        ensures log { IsLogSealed result self.old self.new }
        ensures rows { (logged self.new).rows ≡ (logged self.old).rows }
        ensures kept { KeepsPlaces (laid self.old.blobs) (laid self.new.blobs) }
        ensures log_follows { GoesOn (laid self.old.log) (laid self.new.log) }
        ensures blobs_follow { GoesOn (laid self.old.blobs) (laid self.new.blobs) }
        ensures limits { HaveSameLimits self.old self.new }
        ensures called { CallsSeals result (sealed_extents self.old) (sealed_extents self.new) (W.calls wire.old) (W.calls wire.new) }
        ensures once { sealed_extents self.new ≤ sealed_extents self.old + 3 }
        ensures counted { FailsSeals result (W.faults wire.old) (W.faults wire.new) }
        ensures heard { result ≢ Err stored_fault.Busy → AsksAreHeard (W.calls wire.old) (W.calls wire.new) (W.faults wire.old) (W.faults wire.new) }
    {
        self.seal_log(wire)?;
        self.seal_blobs(wire)?;
        self.seal_rows(wire)?;
        Ok(())
    }

    /// Streams with the same changes and the same data, which share the sealed extents. No block is copied.
    ///
    /// `AllocError`: the streams are as they were.
    pub fn share(&mut self) -> Result<Self, AllocError>
        requires { AreSealed self.old }
        ensures same { self.new ≡ self.old }
        ensures shared { IfOk result (λ s. HaveSameBlocks self.old s) }
        ensures sealed { IfOk result (λ s. AreSealed s) }
        ensures limits { IfOk result (λ s. HaveSameLimits self.old s) }
    {
        let log = self.log.share()?;
        let blobs = self.blobs.share()?;
        let rows = self.rows.share()?;
        Ok(Self {
            alloc: self.alloc,
            log,
            blobs,
            rows,
        })
    }

    /// The bytes of a piece from `start` up to but not including `end`. No byte is copied.
    ///
    /// Unreachable: every node with a copy was asked, and answered no. NoMemory: the bytes can have no further owner.
    pub fn read_part<W: Wire>(
        &self,
        piece: &Piece,
        start: usize,
        end: usize,
        wire: &mut W,
    ) -> Result<Share, ReadFault>
        requires stored { IsStored (laid self.now.blobs) piece.now }
        requires order { start ≤ end }
        requires within { end ≤ piece_len piece.now }
        ensures read { IfOk result (λ s. s ≡ slice_range (bytes_at (laid self.now.blobs) piece.now) start end) }
        ensures unreachable { result ≡ Err Unreachable → all_faults (W.faults wire.old) < all_faults (W.faults wire.new) }
        ensures grown { Grows (W.faults wire.old) (W.faults wire.new) }
        ensures heard { result ≢ Err Unreachable → AsksAreHeard (W.calls wire.old) (W.calls wire.new) (W.faults wire.old) (W.faults wire.new) }
        ensures answered { result ≢ Err Unreachable → SomeAnswers (kept_in self.now.blobs.sealed (extent_of piece.now)) (W.calls wire.old) (W.calls wire.new) (W.faults wire.old) (W.faults wire.new) }
        ensures discarded { AsksNoOther (kept_in self.now.blobs.sealed (extent_of piece.now)) (W.calls wire.old) (W.calls wire.new) }
    {
        match piece {
            Piece::At { place, .. } => {
                let block = self.blobs.read(*place, wire)?;
                match block.slice(start, end) {
                    Ok(part) => Ok(part),
                    Err(AllocError) => Err(ReadFault::NoMemory),
                }
            }
            Piece::Bytes(_) => unreachable!("content that is stored is at places"),
        }
    }

    /// The bytes of a piece from `start` up to but not including `end`, to be read without the streams. No byte is copied.
    ///
    /// If the block of the piece is in the last extent of the data, the bytes are read now. If it is in a sealed extent, no node is
    /// called, and this extent gets its count of owners when it is first shared. Unreachable: each node was asked for a block of the
    /// last extent, and answered no. NoMemory: memory ran out for the count of owners, or the bytes can have no further owner.
    #[tactic(auto, using(extent_seal::proofs::HeardLemmas::heard_none))]
    pub fn part<W: Wire>(
        &mut self,
        piece: &Piece,
        start: usize,
        end: usize,
        wire: &mut W,
    ) -> Result<Part, ReadFault>
        requires stored { IsStored (laid self.old.blobs) piece.now }
        requires order { start ≤ end }
        requires within { end ≤ piece_len piece.now }
        ensures part { IfOk result (λ p. p.bytes ≡ slice_range (bytes_at (laid self.old.blobs) piece.now) start end) }
        ensures read { IfOk result (λ p. p.is_read ≡ is_piece_in_last self.old.blobs piece.now) }
        ensures same { self.new ≡ self.old }
        ensures unheard { is_piece_in_last self.old.blobs piece.now ≡ false → wire.new ≡ wire.old }
        ensures unreachable { result ≡ Err Unreachable → all_faults (W.faults wire.old) < all_faults (W.faults wire.new) }
        ensures grown { Grows (W.faults wire.old) (W.faults wire.new) }
        ensures heard { result ≢ Err Unreachable → AsksAreHeard (W.calls wire.old) (W.calls wire.new) (W.faults wire.old) (W.faults wire.new) }
    {
        match piece {
            Piece::At { place, .. } => part_at(&mut self.blobs, *place, start, end, wire),
            Piece::Bytes(_) => unreachable!("content that is stored is at places"),
        }
    }

    // The next change of the rows. If there is none, the position is then before the first change of the log.
    #[tactic(auto, using(extent_seal::proofs::HeardLemmas::heard_none))]
    fn next_row<W: Wire>(
        &self,
        position: &mut Position,
        wire: &mut W,
    ) -> Result<Option<(Change, u64)>, ReadFault>
        requires { position.old.in_log ≡ false }
        ensures next { IfOk result (λ o. MatchOption o (changes_before self.now position.new ≡ changes_before self.now position.old)
            (λ c. changes_before self.now position.new ≡ changes_before self.now position.old ++ c ∷ [])) }
        ensures over { IfOk result (λ o. MatchOption o (position.new.in_log ≡ true) (λ c. ⊤)) }
        ensures unheard { IfOk result (λ o. MatchOption o (wire.new ≡ wire.old) (λ c. ⊤)) }
        ensures refused { OnErr result (position.new ≡ position.old) }
        ensures unreachable { result ≡ Err Unreachable → all_faults (W.faults wire.old) < all_faults (W.faults wire.new) }
        ensures grown { Grows (W.faults wire.old) (W.faults wire.new) }
        ensures heard { result ≢ Err Unreachable → AsksAreHeard (W.calls wire.old) (W.calls wire.new) (W.faults wire.old) (W.faults wire.new) }
    {
        match next_in(
            &self.rows,
            self.alloc,
            position.extent,
            position.index,
            wire,
        )? {
            Some(next) => {
                position.extent = next.extent;
                position.index = next.index;
                Ok(Some((next.change, next.epoch)))
            }
            None => {
                position.in_log = true;
                position.extent = 0;
                position.index = 0;
                Ok(None)
            }
        }
    }

    // The next change of the log.
    #[tactic(auto, using(extent_seal::proofs::HeardLemmas::heard_none))]
    fn next_logged<W: Wire>(
        &self,
        position: &mut Position,
        wire: &mut W,
    ) -> Result<Option<(Change, u64)>, ReadFault>
        requires { position.old.in_log ≡ true }
        ensures next { IfOk result (λ o. MatchOption o (changes_before self.now position.old ≡ all_changes self.now)
            (λ c. changes_before self.now position.new ≡ changes_before self.now position.old ++ c ∷ [])) }
        ensures ended { IfOk result (λ o. MatchOption o (position.new ≡ position.old) (λ c. ⊤)) }
        ensures refused { OnErr result (position.new ≡ position.old) }
        ensures unreachable { result ≡ Err Unreachable → all_faults (W.faults wire.old) < all_faults (W.faults wire.new) }
        ensures grown { Grows (W.faults wire.old) (W.faults wire.new) }
        ensures heard { result ≢ Err Unreachable → AsksAreHeard (W.calls wire.old) (W.calls wire.new) (W.faults wire.old) (W.faults wire.new) }
    {
        match next_in(&self.log, self.alloc, position.extent, position.index, wire)? {
            Some(next) => {
                position.extent = next.extent;
                position.index = next.index;
                Ok(Some((next.change, next.epoch)))
            }
            None => Ok(None),
        }
    }

    /// The change after a position, with its epoch. The position is then after this change. `None` if there is no change after it: the
    /// position then stays after the last change.
    ///
    /// The changes of the rows come first, and then those of the log, each in the order in which they were made. A change that is in
    /// doubt is not among them. After a fault no change was passed. Unreachable: every node with a copy of a block was asked, and answered
    /// no. NoMemory: memory ran out for the change, or its block can have no further owner.
    #[tactic(auto, using(extent_seal::proofs::HeardLemmas::heard_then))]
    pub fn next_change<W: Wire>(
        &self,
        position: &mut Position,
        wire: &mut W,
    ) -> Result<Option<(Change, u64)>, ReadFault>
        ensures next { IfOk result (λ o. MatchOption o (changes_before self.now position.old ≡ all_changes self.now)
            (λ c. changes_before self.now position.new ≡ changes_before self.now position.old ++ c ∷ [])) }
        ensures ended { IfOk result (λ o. MatchOption o
            (changes_before self.now position.new ≡ changes_before self.now position.old) (λ c. ⊤)) }
        ensures refused { OnErr result (changes_before self.now position.new ≡ changes_before self.now position.old) }
        ensures unreachable { result ≡ Err Unreachable → all_faults (W.faults wire.old) < all_faults (W.faults wire.new) }
        ensures grown { Grows (W.faults wire.old) (W.faults wire.new) }
        ensures heard { result ≢ Err Unreachable → AsksAreHeard (W.calls wire.old) (W.calls wire.new) (W.faults wire.old) (W.faults wire.new) }
    {
        if position.in_log {
            return self.next_logged(position, wire);
        }
        match self.next_row(position, wire)? {
            Some(change) => Ok(Some(change)),
            None => self.next_logged(position, wire),
        }
    }
}
