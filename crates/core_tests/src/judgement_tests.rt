//! Requests whose signatures were judged before.
ghost use Rattle.std.specs.Prelude.{⊤};

use crate::requests::{CREATE, CREATED, PUT, PUT_BY_NEW};
use crate::samples::{begins, pair_with, says};
use crate::stored_samples::{Streamed, empty_slot, is_covered, reply_of};
use access_rules::Keys;
use http_front::Service;
use policy_book::judge;
use range_rows::Reading;
use stamp_types::{Moment, Reply, Request};
use std::alloc::{AllocError, Global};
use std::process::Abort;
use std::sync::Arc;

/// A slot that gets each request with its body read and its signature judged, under these keys.
#[derive(Drop)]
struct Judging {
    streamed: Box<Streamed>,
    keys: Arc<Keys>,
}

impl Service for Judging {
    ghost World = { ⊤ };

    ghost world = { λ s. tt };

    ghost answers = { λ old asked moment reply new. ⊤ };

    ghost starves = { λ old new. ⊤ };

    fn answer(
        &mut self,
        alloc: Global,
        request: Request,
        moment: Moment,
    ) -> Result<Reply, AllocError> {
        let judged = judge(alloc, &self.keys, &request)?;
        let reading = Reading::of(alloc, &request)?;
        let Streamed { slot, wire, .. } = &mut *self.streamed;
        if !is_covered(alloc, slot, &request)? {
            return Err(AllocError);
        }
        let answer = slot.serve_read(alloc, &request, Some(&judged), reading, moment, wire);
        reply_of(answer, wire)
    }
}

// A slot with a pair whose keys are `key1` and `key2`. Signatures are judged by another pair, if `first` is not `key1` or the epoch is not 0.
fn with_judge(rt: &impl Abort, alloc: Global, first: &[u8], epoch: u64) -> Box<Judging> {
    let keys = pair_with(rt, alloc, "devstoreaccount1", first, epoch);
    let judging = Judging {
        streamed: empty_slot(rt, alloc),
        keys: Arc::new(alloc, keys).expect(rt, "memory"),
    };
    Box::new(alloc, judging).expect(rt, "memory")
}

// The blob is put by the key of the slot's pair, and is refused by another key, whatever pair judged the signatures.
fn serves_by_its_pair(rt: &impl Abort, alloc: Global, judging: &mut Judging) {
    assert!(rt; begins(rt, alloc, judging, CREATE, CREATED));
    assert!(rt; says(rt, alloc, judging, PUT_BY_NEW, "Refused by rule K5."));
    assert!(rt; begins(rt, alloc, judging, PUT, CREATED));
}

#[test]
fn a_judgement_changes_no_reply(rt: HostRuntime) {
    let cases: [(&[u8], u64); 3] = [(b"key1", 0), (b"new1", 0), (b"new1", 1)];
    for (first, epoch) in cases {
        let mut judging = with_judge(&rt, rt.alloc(), first, epoch);
        serves_by_its_pair(&rt, rt.alloc(), &mut *judging);
    }
}
