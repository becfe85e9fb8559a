//! The end of a sweep: the front of log and data, and the rows, are given up (SOSP 2011, section 5).
ghost use Rattle.std.specs.Prelude.{◌≡◌};

use crate::mark::Mark;
use crate::streams::Streams;
use std::alloc::AllocError;
use stream_manager::{HandleRoom, Stream};

/// What streams gave up: a handle of each extent that had a block, and the rows. To drop them takes time for each of their blocks, so a
/// caller may drop them once it holds no lock.
#[derive(Drop)]
pub struct GivenUp {
    handles: HandleRoom,
    rows: Stream,
}

impl Streams {
    ghost use Rattle.std.specs.Prelude.{◌≡◌, ◌≤◌, ◌++◌, [], IfOk, None, length};
    ghost use Rattle.stamp_values.specs.declared.key.Key.{Key};
    ghost use Rattle.partition_stream.specs.Meanings.{held_of};
    ghost use Rattle.partition_stream.specs.Streams.{logged};
    ghost use Rattle.partition_stream.specs.Sweeping.{GivesUpBefore, LieFrom, filled_before, handles_before, made_from, mark_of};

    /// How many extents of the log and of the data are sealed now. A sweep that begins now has this mark.
    pub fn mark(&self) -> Mark
        ensures { result ≡ mark_of self.now }
    {
        Mark {
            log: self.log.sealed_count(),
            blobs: self.blobs.sealed_count(),
        }
    }

    /// Room for the handles of all extents before the mark of a sweep that begins now. An extent without a block needs no room.
    ///
    /// `AllocError` if memory runs out.
    #[tactic(auto, using(crate::proofs::SweepingLemmas::room_now))]
    pub fn sweep_room(&self) -> Result<HandleRoom, AllocError>
        ensures empty { IfOk result (λ r. r.extents ≡ []) }
        ensures room { IfOk result (λ r. r.room ≡ handles_before (mark_of self.now) self.now) }
    {
        match self
            .log
            .filled_count()
            .checked_add(self.blobs.filled_count())
        {
            Some(count) => HandleRoom::new(self.alloc, count),
            None => Err(AllocError),
        }
    }

    /// Gives up the extents of the log and of the data before the mark, and the rows, in one call. The streams then mean what the changes
    /// since the mark make of containers that never were.
    ///
    /// All content of these changes was put since the mark. A doubt of the log is settled before, so that no change is forgotten. The room
    /// was made when the sweep began, so no memory is taken. No node is called.
    pub fn give_up_before(&mut self, mark: Mark, room: HandleRoom) -> GivenUp
        requires sure { (logged self.old).doubt ≡ None }
        requires log { mark.log ≤ length self.old.log.sealed }
        requires blobs { mark.blobs ≤ length self.old.blobs.sealed }
        requires from { LieFrom mark self.old }
        requires room { handles_before mark self.old ≤ room.room }
        ensures left { GivesUpBefore mark self.old self.new }
        ensures means { (key : Key) → held_of (logged self.new) key ≡ made_from mark self.old key }
        ensures given { result.handles.extents ≡ room.extents ++ filled_before mark self.old }
        ensures rows { result.rows ≡ self.old.rows }
    {
        let mut handles = room;
        self.log.give_up_front(mark.log, &mut handles);
        self.blobs.give_up_front(mark.blobs, &mut handles);
        let rows = self.rows.take();
        GivenUp { handles, rows }
    }
}
