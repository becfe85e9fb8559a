//! Histories that only proofs read.
ghost use Rattle.std.specs.Prelude.{◌≡◌, IfOk};

use crate::event::Event;
use crate::histories::Histories;
use http_server::Log;
use stamp_types::{Key, Past};
use std::alloc::{AllocError, Global};

/// Histories that take no memory: what happened to them is told to proofs alone.
#[derive(Drop)]
pub struct ProvedHistories {
    log: Log<Key, Event>,
}

// One more owner of the entry's request. Takes no memory.
fn copy_of(entry: &Past) -> Result<Past, AllocError>
    ensures { IfOk result (λ copy. copy ≡ entry.now) }
{
    entry.clone()
}

impl Histories for ProvedHistories {
    ghost use Rattle.slot_state.specs.Told.{told};
    ghost use Rattle.slot_state.specs.Told.{told_none_is_empty};

    ghost held = { λ s. told s.log.items };

    ghost none_is_empty = { λ s. told_none_is_empty s.log.items };

    fn none(alloc: Global) -> Self {
        let _alloc = alloc;
        Self { log: Log::new() }
    }

    fn push(&mut self, alloc: Global, entry: &Past) -> Result<(), AllocError> {
        let _alloc = alloc;
        let event = Event::Pushed(copy_of(entry)?);
        self.log = self.log.and(&entry.request.ask().key, &event);
        Ok(())
    }

    fn take_back(&mut self, key: &Key) {
        self.log = self.log.and(key, &Event::TakenBack);
    }

    fn halves(&self, alloc: Global, middle: &Key) -> Result<(Self, Self), AllocError> {
        let below = self.log.and(middle, &Event::Below);
        let from = self.log.and(middle, &Event::From);
        Ok((Self { log: below }, Self { log: from }))
    }
}
