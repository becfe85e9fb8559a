//! The rows of a range of keys, in streams and in memory.
ghost use Rattle.std.specs.Prelude.{◌≡◌};

mod checkpoint;
mod repair;
mod stepping;
mod sweeping;
mod wasting;

use crate::cutting::{UpperHalf, ends_of, share_upper};
use crate::faults::Ended;
use crate::key_range::KeyRange;
use crate::loading::rows_of;
use crate::logging::put_and_log;
use crate::noting::{note, note_loaded, note_settled};
use crate::row_doubt::{end_row, is_row};
use crate::sealed::{AllSealed, note_sealed};
use crate::sweep::{Sweep, keep_sweep};
use crate::unloaded::Unloaded;
use crate::waste::{ChangeWeight, FoundForChange, Waste, bound_of, named_by, recounted};
use block_blobs::FoundBlocks;
use body_forms::Draft;
use extent_node::Wire;
use extent_seal::ReadFault;
use partition_stream::{Part, Streams, TakeFault};
use range_rows::Span;
use row_trees::{Found, NewRow, Rows};
use stamp_types::{Change, Key, Piece};
use std::alloc::{AllocError, Global};
use std::marker::Model;
use stream_manager::StoredFault;
pub use sweeping::SweptAway;
use tickets::{Answer, Unreachable, make_answer};

/// The rows of a range of keys. Streams keep them, and they are in memory while they are loaded (SOSP 2011, section 5).
#[derive(Drop)]
pub struct StoredRows {
    alloc: Global,
    streams: Streams,
    // How many bytes an extent of two or more blocks may have, in each of the streams and in those that take their place.
    extent_bytes: u32,
    // The rows that the streams mean, while they are loaded.
    rows: Option<Rows>,
    range: KeyRange,
    // The change that is in doubt, as the log may keep it: a change that was taken, or a row that a sweep has written.
    doubt: Option<Change>,
    // The row of a blob that memory will have if the row in doubt is kept, so that the end of the doubt takes no memory.
    spare: Option<NewRow>,
    // What the streams have, and what exists of it. It is not seen in contracts.
    waste: Waste,
    // Whether a list is answered by a ticket, whose fetch writes its text. It is not seen in contracts.
    gathers_lists: bool,
    // The sweep that is under way. It is not seen in contracts.
    sweep: Option<Sweep>,
}

impl Model for StoredRows {
    ghost use Rattle.std.specs.Option.{is_some};
    ghost use Rattle.stored_rows.specs.States.{Stored};
    ghost use Rattle.stored_rows.specs.Loaded.{AreLimited};

    ghost Value = { Stored };

    ghost view = { λ s. record { streams = s.streams; range = s.range; is_loaded = is_some s.rows } };

    ghost invariant = { λ s. AreLimited s.extent_bytes s.streams s.rows s.doubt s.range s.sweep s.spare };
}

impl StoredRows {
    ghost use Rattle.std.specs.Prelude.{◌≡◌, ◌≢◌, ◌≤◌, ◌+◌, ◌<◌, ◌^◌, true, false, is_none, is_some, All, None, Some, Ok, Err, IfSome, IfOk, IsErr, IsTrue, MatchOption, OnOk, OnErr, length, slice_range};
    ghost use Rattle.std.specs.List.{flat_map, list_all};
    ghost use Rattle.std.specs.Option.{option_copied};
    ghost use Rattle.extent_seal.specs.Counting.{Grows, all_faults};
    ghost use Rattle.extent_seal.specs.Heard.{AsksAreHeard};
    ghost use Rattle.extent_seal.specs.declared.sealed.ReadFault.TheVariants as read_fault;
    ghost use Rattle.stamp_types.specs.ActKinds.{is_row};
    ghost use Rattle.stamp_types.specs.Changes.{content_of};
    ghost use Rattle.stamp_types.specs.Contents.{EachContent};
    ghost use Rattle.stamp_types.specs.Pieces.{is_held, piece_len, pieces_len};
    ghost use Rattle.stamp_types.specs.Requests.{Asked};
    ghost use Rattle.stamp_types.specs.World.{no_part, part_value};
    ghost use Rattle.stamp_values.specs.declared.key.Key.{Key};
    ghost use Rattle.row_trees.specs.Fits.{commits, fits};
    ghost use Rattle.stream_manager.specs.Streams.{laid};
    ghost use Rattle.stream_manager.specs.declared.faults.StoredFault.TheVariants as stored_fault;
    ghost use Rattle.partition_stream.specs.Compactions.{HaveLimit};
    ghost use Rattle.partition_stream.specs.Contents.{AreStored, IsStored, bytes_at};
    ghost use Rattle.partition_stream.specs.Parts.{is_piece_in_last};
    ghost use Rattle.partition_stream.specs.Storing.{AreKept};
    ghost use Rattle.partition_stream.specs.Streams.{AreSealed, HaveSameLimits};
    ghost use Rattle.range_rows.specs.SentContent as sent;
    ghost use Rattle.range_rows.specs.SentContent.{AreShort, bytes_sent, is_within, span_bytes, with_content};
    ghost use Rattle.tickets.specs.Answers.{IsAnswerIf, IsSpanStored, are_in_last};
    ghost use Rattle.stored_rows.specs.Counting.{FailsStored, FailsTake};
    ghost use Rattle.stored_rows.specs.Heard.{HearsStored, HearsTake};
    ghost use Rattle.stored_rows.specs.Loaded.{AreRowsOf};
    ghost use Rattle.stored_rows.specs.Ranges.{covers};
    ghost use Rattle.stored_rows.specs.States.{AreFoundIn, IsHalf, SettlesRows, IsTaken, MeansTheSame, bytes_of, doubt_of, own_doubt_of, pieces_of};

    /// The rows of a range without a container, which are loaded. The extents of their streams, and of those that take the place of these
    /// streams later, have at most `extent_bytes` bytes if they have two or more blocks. Takes no memory.
    pub fn new(alloc: Global, extent_bytes: u32, range: KeyRange) -> Self
        ensures none { (key : Key) → pieces_of result key ≡ no_part }
        ensures sure { doubt_of result ≡ None }
        ensures loaded { result.is_loaded ≡ true }
        ensures range { result.range ≡ range }
        ensures limits { HaveLimit extent_bytes result.streams }
    {
        Self {
            alloc,
            streams: Streams::new(alloc, extent_bytes),
            extent_bytes,
            rows: Some(Rows::new(alloc)),
            range,
            doubt: None,
            spare: None,
            waste: Waste::none(),
            gathers_lists: false,
            sweep: None,
        }
    }

    /// The same rows, of which lists are gathered: a list is answered by a ticket, and the text of its reply is written when the ticket is fetched.
    /// So a lock need not be held while the text is written. Both halves of a cut keep this.
    pub fn gathering_lists(self) -> Self
        ensures { result ≡ self }
    {
        let mut gathering = self;
        gathering.gathers_lists = true;
        gathering
    }

    /// Whether lists are gathered.
    pub fn gathers_lists(&self) -> bool {
        self.gathers_lists
    }

    /// Whether the rows are in memory.
    pub fn is_loaded(&self) -> bool
        ensures { result ≡ self.now.is_loaded }
    {
        self.rows.is_some()
    }

    /// Whether the key is in the range.
    pub fn covers(&self, key: &Key) -> bool
        ensures { result ≡ covers self.now.range key.now }
    {
        self.range.covers(key)
    }

    /// The first key of the range.
    pub fn first(&self) -> &Key
        ensures { result.now ≡ self.now.range.from }
    {
        &self.range.from
    }

    /// The first key past the range, if there is one.
    pub fn end(&self) -> Option<&Key>
        ensures { option_copied result ≡ self.now.range.to }
    {
        self.range.to.as_ref()
    }

    /// Whether a change that was taken is in doubt.
    pub fn has_doubt(&self) -> bool
        ensures { result ≡ is_some (own_doubt_of self.now) }
    {
        match &self.doubt {
            Some(change) => !is_row(change.act()),
            None => false,
        }
    }

    /// Whether nothing is in doubt: neither a change that was taken nor a row that a sweep has written.
    pub fn is_sure(&self) -> bool
        ensures { result ≡ is_none (doubt_of self.now) }
    {
        self.doubt.is_none()
    }

    // Whether a row that a sweep has written is in doubt.
    fn has_row_doubt(&self) -> bool
        ensures row { IsTrue result → own_doubt_of self.now ≡ None }
        ensures sure { result ≡ false → own_doubt_of self.now ≡ doubt_of self.now }
    {
        match &self.doubt {
            Some(change) => is_row(change.act()),
            None => false,
        }
    }

    /// The rows, if they are loaded: each container of the range as the streams mean it, and no other container.
    pub fn rows(&self) -> Option<&Rows>
        ensures { MatchOption result (self.now.is_loaded ≡ false) (λ w. (self.now.is_loaded ≡ true) × AreRowsOf self.now.range self.now.streams w.now) }
    {
        self.rows.as_ref()
    }

    /// Tells the caller what the streams keep: each content of a container is stored in the data, so the sizes of a container are those
    /// of its bytes. Does nothing.
    pub fn kept(&self)
        ensures kept { AreKept self.now.streams }
        ensures stored { (key : Key) → EachContent (AreStored (laid self.now.streams.blobs)) (pieces_of self.now key) }
        ensures sizes { (key : Key) → part_value pieces_len (pieces_of self.now key) ≡ part_value length (bytes_of self.now key) }
    {
        self.streams.kept();
    }

    /// What the rows have of a container of the range, in pieces. Each content is stored, so the sizes are those of the bytes.
    pub fn find(&self, key: &Key) -> Found<'_>
        requires loaded { self.now.is_loaded ≡ true }
        requires covered { covers self.now.range key.now ≡ true }
        ensures pieces { result ≡ pieces_of self.now key.now }
        ensures stored { EachContent (AreStored (laid self.now.streams.blobs)) (pieces_of self.now key.now) }
        ensures sizes { part_value pieces_len (pieces_of self.now key.now) ≡ part_value length (bytes_of self.now key.now) }
    {
        self.kept();
        match &self.rows {
            Some(rows) => rows.find(key),
            None => unreachable!("the rows are loaded"),
        }
    }

    /// Whether a change of a container of the range fits the container, as `take` requires it.
    ///
    /// `AllocError` if memory runs out while the blocks of a list are looked up, or if the content of a block can have no further owner.
    pub fn fits(&self, change: &Change) -> Result<bool, AllocError>
        requires loaded { self.now.is_loaded ≡ true }
        requires covered { covers self.now.range change.now.key ≡ true }
        ensures fits { IfOk result (λ answer. answer ≡ fits (part_value pieces_len (pieces_of self.now change.now.key)) change.now.act) }
        ensures memory { IsErr result → IsTrue (commits change.now.act) }
    {
        match &self.rows {
            Some(rows) => rows.fits(self.alloc, change),
            None => unreachable!("the rows are loaded"),
        }
    }

    /// The bytes of a piece from `start` up to but not including `end`, to be read without the rows and their streams. No byte is copied.
    ///
    /// If the block of the piece is in the last extent of the data, the bytes are read now. Unreachable: each node was asked for a block of
    /// the last extent, and answered no. NoMemory: memory ran out, or the bytes can have no further owner.
    pub fn part<W: Wire>(
        &mut self,
        piece: &Piece,
        start: usize,
        end: usize,
        wire: &mut W,
    ) -> Result<Part, ReadFault>
        requires stored { IsStored (laid self.old.streams.blobs) piece.now }
        requires order { start ≤ end }
        requires within { end ≤ piece_len piece.now }
        ensures part { IfOk result (λ p. p.bytes ≡ slice_range (bytes_at (laid self.old.streams.blobs) piece.now) start end) }
        ensures read { IfOk result (λ p. p.is_read ≡ is_piece_in_last self.old.streams.blobs piece.now) }
        ensures same { self.new ≡ self.old }
        ensures unheard { is_piece_in_last self.old.streams.blobs piece.now ≡ false → wire.new ≡ wire.old }
        ensures unreachable { result ≡ Err read_fault.Unreachable → all_faults (W.faults wire.old) < all_faults (W.faults wire.new) }
        ensures grown { Grows (W.faults wire.old) (W.faults wire.new) }
        ensures heard { result ≢ Err read_fault.Unreachable → AsksAreHeard (W.calls wire.old) (W.calls wire.new) (W.faults wire.old) (W.faults wire.new) }
    {
        self.streams.part(piece, start, end, wire)
    }

    /// What a request is answered: the frame with the content of the spans after its body. No byte of content is copied.
    ///
    /// It is Done if each span is in the last extent of the data: its bytes are read now. If the spans are those of a request's reply, the
    /// content is what the container of the request sends as it is in bytes. `gathers` says whether a list whose text is not written yet is Later.
    /// Unreachable: every node was asked for a block of the last extent, and answered no.
    pub fn answer<W: Wire>(
        &mut self,
        frame: Draft,
        spans: &[Span],
        gathers: bool,
        wire: &mut W,
    ) -> Result<Answer, Unreachable>
        requires stored { All (IsSpanStored (laid self.old.streams.blobs)) spans.now }
        requires within { IsTrue (list_all is_within spans.now) }
        requires short { AreShort frame.body spans.now }
        ensures read { IfOk result (λ a. IsAnswerIf gathers a (are_in_last self.old.streams.blobs spans.now)
            (with_content frame (flat_map (span_bytes (bytes_at (laid self.old.streams.blobs))) spans.now))) }
        ensures sent { (q : Asked) → spans.now ≡ sent.spans (pieces_of self.old q.ask.key) q
            → IfOk result (λ a. IsAnswerIf gathers a (are_in_last self.old.streams.blobs spans.now)
            (with_content frame (bytes_sent (bytes_of self.old q.ask.key) q))) }
        ensures same { self.new ≡ self.old }
        ensures unreachable { OnErr result (all_faults (W.faults wire.old) < all_faults (W.faults wire.new)) }
        ensures grown { Grows (W.faults wire.old) (W.faults wire.new) }
        ensures heard { OnOk result (AsksAreHeard (W.calls wire.old) (W.calls wire.new) (W.faults wire.old) (W.faults wire.new)) }
    {
        self.streams.kept();
        make_answer(self.alloc, &mut self.streams, frame, spans, gathers, wire)
    }

    // Puts the content of a change into the data, logs the change, and then makes it in the rows that are loaded. If the change was logged,
    // `written` is then how many bytes its record has.
    fn take_change<W: Wire>(
        &mut self,
        change: Change,
        found: Option<FoundBlocks>,
        epoch: u64,
        written: &mut u64,
        wire: &mut W,
    ) -> Result<(), TakeFault>
        requires covered { covers self.old.range change.key ≡ true }
        requires plain { is_row change.act ≡ false }
        requires held { IfSome (content_of change.act) (λ ps. IsTrue (is_held ps)) }
        requires fits { IsTrue (fits (part_value pieces_len (pieces_of self.old change.key)) change.act) }
        requires found { IfSome found (AreFoundIn self.old change) }
        requires sure { doubt_of self.old ≡ None }
        ensures taken { IsTaken result self.old (change, epoch) self.new }
        ensures limits { HaveSameLimits self.old.streams self.new.streams }
        ensures counted { FailsTake result (W.faults wire.old) (W.faults wire.new) }
        ensures heard { HearsTake result (W.calls wire.old) (W.calls wire.new) (W.faults wire.old) (W.faults wire.new) }
    {
        keep_sweep(&mut self.sweep, &self.rows, &change);
        let logged = put_and_log(&mut self.streams, change, epoch, written, wire);
        note(self.alloc, &mut self.rows, &mut self.doubt, logged, found)
    }

    // The finding for a change in the rows, if they are loaded and memory is left.
    fn found_for(&self, change: &Change) -> Option<FoundForChange>
        requires covered { covers self.now.range change.now.key ≡ true }
        requires fits { IsTrue (fits (part_value pieces_len (pieces_of self.now change.now.key)) change.now.act) }
        ensures { IfSome result (λ found. AreFoundIn self.now change.now found.blocks) }
    {
        let Some(rows) = &self.rows else {
            return None;
        };
        let Ok(blocks) = rows.found_for(self.alloc, change) else {
            return None;
        };
        let container = rows.find(change.key());
        let blob = named_by(&container, change.act());
        let weight = ChangeWeight::of(self.alloc, &container, &blob, &blocks, change);
        Some(FoundForChange { blocks, weight })
    }

    // Takes a change for which this was found, as `take` says it.
    fn take_found<W: Wire>(
        &mut self,
        change: Change,
        found: Option<FoundForChange>,
        epoch: u64,
        wire: &mut W,
    ) -> Result<(), TakeFault>
        requires covered { covers self.old.range change.key ≡ true }
        requires plain { is_row change.act ≡ false }
        requires held { IfSome (content_of change.act) (λ ps. IsTrue (is_held ps)) }
        requires fits { IsTrue (fits (part_value pieces_len (pieces_of self.old change.key)) change.act) }
        requires found { IfSome found (λ f. AreFoundIn self.old change f.blocks) }
        requires sure { doubt_of self.old ≡ None }
        ensures taken { IsTaken result self.old (change, epoch) self.new }
        ensures limits { HaveSameLimits self.old.streams self.new.streams }
        ensures counted { FailsTake result (W.faults wire.old) (W.faults wire.new) }
        ensures heard { HearsTake result (W.calls wire.old) (W.calls wire.new) (W.faults wire.old) (W.faults wire.new) }
    {
        let (blocks, weight) = match found {
            Some(FoundForChange { blocks, weight }) => (Some(blocks), weight),
            None => (None, ChangeWeight::of_content(&change)),
        };
        let mut written = bound_of(&change);
        let taken = self.take_change(change, blocks, epoch, &mut written, wire);
        self.waste = self.waste.after(weight, written, taken);
        taken
    }

    /// Puts the content of a change into the data, logs the change with its epoch, and then makes it in the rows that are loaded. No byte is
    /// copied. With what a decision `found` for the change in these rows, neither a block of a list nor the weight of the change is looked up
    /// again.
    ///
    /// If the rows find no memory they are dropped, and the change is counted. Busy and NoMemory: the change is not counted. Doubt: it is
    /// not known whether it is counted until the next settle. After a fault blocks may be left in the data to which nothing refers.
    pub fn take<W: Wire>(
        &mut self,
        change: Change,
        found: Option<FoundForChange>,
        epoch: u64,
        wire: &mut W,
    ) -> Result<(), TakeFault>
        requires covered { covers self.old.range change.key ≡ true }
        requires plain { is_row change.act ≡ false }
        requires held { IfSome (content_of change.act) (λ ps. IsTrue (is_held ps)) }
        requires fits { IsTrue (fits (part_value pieces_len (pieces_of self.old change.key)) change.act) }
        requires found { IfSome found (λ f. AreFoundIn self.old change f.blocks) }
        requires sure { doubt_of self.old ≡ None }
        ensures taken { IsTaken result self.old (change, epoch) self.new }
        ensures limits { HaveSameLimits self.old.streams self.new.streams }
        ensures counted { FailsTake result (W.faults wire.old) (W.faults wire.new) }
        ensures heard { HearsTake result (W.calls wire.old) (W.calls wire.new) (W.faults wire.old) (W.faults wire.new) }
    {
        let found = match found {
            Some(found) => Some(found),
            None => self.found_for(&change),
        };
        self.take_found(change, found, epoch, wire)
    }

    /// Makes the rows of the changes that the streams keep, if they are not loaded.
    ///
    /// After a fault they are not loaded, as before. Busy: each node with a copy of some extent was asked, and answered no. NoMemory: memory
    /// ran out for the rows.
    #[tactic(auto, using(extent_seal::proofs::HeardLemmas::heard_none))]
    pub fn load<W: Wire>(&mut self, wire: &mut W) -> Result<(), StoredFault>
        ensures loaded { OnOk result (self.new ≡ record self.old { is_loaded = true }) }
        ensures refused { OnErr result (self.new ≡ self.old) }
        ensures counted { FailsStored result (W.faults wire.old) (W.faults wire.new) }
        ensures heard { HearsStored result (W.calls wire.old) (W.calls wire.new) (W.faults wire.old) (W.faults wire.new) }
        ensures unheard { self.old.is_loaded ≡ true → wire.new ≡ wire.old }
    {
        if self.rows.is_some() {
            return Ok(());
        }
        let made = rows_of(self.alloc, &self.streams, &self.range, wire);
        let loaded = note_loaded(&mut self.rows, made);
        self.waste = recounted(self.alloc, self.waste, &self.rows, &self.sweep);
        loaded
    }

    /// Takes the rows out of memory, and gives them. A change that is in doubt stays in doubt.
    pub fn unload(&mut self) -> Unloaded
        ensures left { self.new ≡ record self.old { is_loaded = false } }
        ensures rows { MatchOption result.rows (self.old.is_loaded ≡ false) (λ w. (self.old.is_loaded ≡ true) × AreRowsOf self.old.range self.old.streams w) }
    {
        Unloaded {
            rows: self.rows.take(),
        }
    }

    /// Settles a change that was taken and is in doubt, if there is one. If it is kept, the rows that are loaded make it. A row in doubt is left.
    ///
    /// If the rows find no memory for it they are dropped, and the change is counted. Busy: no node answered. NoMemory: no node was called.
    /// After both the doubt is as it was.
    #[tactic(auto, using(extent_seal::proofs::HeardLemmas::heard_none))]
    pub fn settle<W: Wire>(&mut self, wire: &mut W) -> Result<Ended, StoredFault>
        ensures settled { SettlesRows result self.old self.new }
        ensures limits { HaveSameLimits self.old.streams self.new.streams }
        ensures data { self.new.streams.blobs ≡ self.old.streams.blobs }
        ensures counted { FailsStored result (W.faults wire.old) (W.faults wire.new) }
        ensures heard { HearsStored result (W.calls wire.old) (W.calls wire.new) (W.faults wire.old) (W.faults wire.new) }
    {
        if self.has_row_doubt() {
            return Ok(Ended::Clean);
        }
        self.settle_own(wire)
    }

    // Settles a change that was taken, if it is in doubt.
    fn settle_own<W: Wire>(&mut self, wire: &mut W) -> Result<Ended, StoredFault>
        requires { own_doubt_of self.old ≡ doubt_of self.old }
        ensures settled { SettlesRows result self.old self.new }
        ensures limits { HaveSameLimits self.old.streams self.new.streams }
        ensures data { self.new.streams.blobs ≡ self.old.streams.blobs }
        ensures counted { FailsStored result (W.faults wire.old) (W.faults wire.new) }
        ensures heard { HearsStored result (W.calls wire.old) (W.calls wire.new) (W.faults wire.old) (W.faults wire.new) }
    {
        self.streams.kept();
        let settled = self.streams.settle(wire);
        note_settled(self.alloc, &mut self.rows, &mut self.doubt, settled)
    }

    // Settles a row that is in doubt.
    fn settle_row<W: Wire>(&mut self, wire: &mut W) -> Result<(), StoredFault>
        requires own { own_doubt_of self.old ≡ None }
        ensures means { (key : Key) → bytes_of self.new key ≡ bytes_of self.old key }
        ensures range { self.new.range ≡ self.old.range }
        ensures loaded { self.new.is_loaded ≡ self.old.is_loaded }
        ensures sure { OnOk result (doubt_of self.new ≡ None) }
        ensures own { own_doubt_of self.new ≡ None }
        ensures limits { HaveSameLimits self.old.streams self.new.streams }
        ensures data { self.new.streams.blobs ≡ self.old.streams.blobs }
        ensures counted { FailsStored result (W.faults wire.old) (W.faults wire.new) }
        ensures heard { HearsStored result (W.calls wire.old) (W.calls wire.new) (W.faults wire.old) (W.faults wire.new) }
    {
        self.streams.kept();
        let settled = self.streams.settle(wire);
        end_row(&mut self.rows, &mut self.doubt, &mut self.spare, settled)
    }

    /// Ends the doubt of a row that a sweep has written, if there is one: the row is kept or dropped. Each container is as it was. A caller ends it
    /// before it writes or seals, and answers whether a row was in doubt: what was found in the rows before is then found anew.
    ///
    /// Busy: no node answered. NoMemory: no node was called. After both the row is in doubt as before.
    #[tactic(auto, using(extent_seal::proofs::HeardLemmas::heard_none))]
    pub fn end_row_doubt<W: Wire>(&mut self, wire: &mut W) -> Result<bool, StoredFault>
        requires own { own_doubt_of self.old ≡ None }
        ensures means { (key : Key) → bytes_of self.new key ≡ bytes_of self.old key }
        ensures range { self.new.range ≡ self.old.range }
        ensures loaded { self.new.is_loaded ≡ self.old.is_loaded }
        ensures sure { OnOk result (doubt_of self.new ≡ None) }
        ensures own { own_doubt_of self.new ≡ None }
        ensures still { result ≡ Ok false → self.new ≡ self.old }
        ensures limits { HaveSameLimits self.old.streams self.new.streams }
        ensures data { self.new.streams.blobs ≡ self.old.streams.blobs }
        ensures counted { FailsStored result (W.faults wire.old) (W.faults wire.new) }
        ensures heard { HearsStored result (W.calls wire.old) (W.calls wire.new) (W.faults wire.old) (W.faults wire.new) }
    {
        if !self.has_row_doubt() {
            return Ok(false);
        }
        match self.settle_row(wire) {
            Ok(()) => Ok(true),
            Err(fault) => Err(fault),
        }
    }

    /// Seals the streams. Each container is as it was, also after a fault.
    ///
    /// Busy: no node answered the seal of a stream. NoMemory: memory ran out.
    pub fn seal<W: Wire>(&mut self, wire: &mut W) -> Result<AllSealed, StoredFault>
        requires sure { doubt_of self.old ≡ None }
        ensures same { MeansTheSame self.old self.new }
        ensures doubt { doubt_of self.new ≡ None }
        ensures sealed { OnOk result (AreSealed self.new.streams) }
        ensures limits { HaveSameLimits self.old.streams self.new.streams }
        ensures counted { FailsStored result (W.faults wire.old) (W.faults wire.new) }
        ensures heard { HearsStored result (W.calls wire.old) (W.calls wire.new) (W.faults wire.old) (W.faults wire.new) }
    {
        self.streams.kept();
        let sealed = self.streams.seal(wire);
        note_sealed(sealed)
    }

    // The upper half with the same streams. A sweep that is under way goes on in both halves.
    fn halve(&mut self, middle: Key, upper: KeyRange) -> Result<Self, StoredFault>
        requires sure { doubt_of self.old ≡ None }
        requires sealed { AreSealed self.old.streams }
        requires covered { covers self.old.range middle ≡ true }
        requires upper { upper ≡ record { from = middle; to = self.old.range.to } }
        ensures lower { OnOk result (IsHalf (record self.old.range { to = Some middle }) self.old self.new) }
        ensures upper { IfOk result (λ half. IsHalf upper self.old half) }
        ensures limits { HaveSameLimits self.old.streams self.new.streams }
        ensures own_limits { IfOk result (λ half. HaveSameLimits self.old.streams half.streams) }
        ensures refused { OnErr result (MeansTheSame self.old self.new × (doubt_of self.new ≡ None)) }
        ensures memory { result ≢ Err stored_fault.Busy }
    {
        match share_upper(
            self.alloc,
            &mut self.streams,
            &mut self.rows,
            &self.sweep,
            &middle,
        ) {
            Ok(
                UpperHalf {
                    streams,
                    rows,
                    sweep,
                },
            ) => {
                self.range.to = Some(middle);
                let waste = recounted(self.alloc, self.waste, &rows, &sweep);
                self.waste = recounted(self.alloc, self.waste, &self.rows, &self.sweep);
                Ok(Self {
                    alloc: self.alloc,
                    streams,
                    extent_bytes: self.extent_bytes,
                    rows,
                    range: upper,
                    doubt: None,
                    spare: None,
                    waste,
                    gathers_lists: self.gathers_lists,
                    sweep,
                })
            }
            Err(AllocError) => Err(StoredFault::NoMemory),
        }
    }

    /// Cuts the range at a key: what is below the key stays, and what is from the key on is answered. Both halves share the sealed extents.
    /// Both halves are loaded if the rows were loaded. A sweep that is under way goes on in both halves, each for its own range. Each half
    /// ends it by itself, and gives up its own handles of what came before the mark.
    ///
    /// After a fault nothing was cut. Busy: no node answered the seal of a stream. NoMemory: memory ran out.
    #[tactic(auto, using(extent_seal::proofs::HeardLemmas::heard_none, crate::proofs::HeardLemmas::hears_any))]
    pub fn cut<W: Wire>(&mut self, middle: &Key, wire: &mut W) -> Result<Self, StoredFault>
        requires sure { doubt_of self.old ≡ None }
        requires covered { covers self.old.range middle.now ≡ true }
        ensures lower { OnOk result (IsHalf (record self.old.range { to = Some middle.now }) self.old self.new) }
        ensures upper { IfOk result (λ upper. IsHalf (record { from = middle.now; to = self.old.range.to }) self.old upper) }
        ensures limits { HaveSameLimits self.old.streams self.new.streams }
        ensures own_limits { IfOk result (λ upper. HaveSameLimits self.old.streams upper.streams) }
        ensures refused { OnErr result (MeansTheSame self.old self.new × (doubt_of self.new ≡ None)) }
        ensures counted { FailsStored result (W.faults wire.old) (W.faults wire.new) }
        ensures heard { HearsStored result (W.calls wire.old) (W.calls wire.new) (W.faults wire.old) (W.faults wire.new) }
    {
        let Ok((end, upper)) = ends_of(&self.range, middle) else {
            return Err(StoredFault::NoMemory);
        };
        match self.seal(wire) {
            Ok(_sealed) => self.halve(end, upper),
            Err(fault) => {
                drop(end);
                drop(upper);
                Err(fault)
            }
        }
    }
}
