//! A slot enters a request, and a slot is split. Both are of a stamp without accounts, whose history has no other entries.
ghost use Rattle.std.specs.Prelude.{◌≡◌, ◌∷◌, []};
ghost use Rattle.served_history.specs.declared.entry.Entry.TheVariants.{Opened};

use crate::entry::TimedCall;
use crate::history::{Account, NewHistory};
use crate::laws::two_connections_agree;
use crate::slot_history::SlotHistory;
use request_form::read_head;
use stamp_types::{Body, Key, Moment, Request, Text};
use std::alloc::Global;
use std::marker::Brand;
use std::process::Abort;

// A Get Blob without a signature.
const GET: &[u8] = b"GET /acct/box/a HTTP/1.1\r\nHost: h\r\nx-ms-version: 2012-02-12\r\n\r\n";

fn request(rt: &impl Abort, alloc: Global) -> Request {
    let head = read_head(alloc, GET).expect(rt, "a head");
    assert!(rt; head.body_len() == 0);
    head.with_body(Body::empty())
}

fn key(rt: &impl Abort, alloc: Global, name: &str) -> Key {
    let text = String::from_str(alloc, name).expect(rt, "memory");
    let other = String::from_str(alloc, name).expect(rt, "memory");
    Key {
        account: Text::new(text).expect(rt, "a text"),
        container: Text::new(other).expect(rt, "a text"),
    }
}

// A slot of all keys enters a request. Then the slot and a connection know beginnings of one history.
fn enters_a_request<A: Account>(rt: &impl Abort, alloc: Global, history: NewHistory)
    requires book { history.book ≡ A.history }
    requires fresh { history.next ≡ 0 }
    requires log { history.log ≡ Opened [] ∷ [] }
{
    let mut history = history;
    let mut known = history.front::<A>(); // a connection knows this
    // The lock of slot 0 keeps this value. The slot has all keys.
    let mut slot = SlotHistory::new(history.word::<A>(0), known.again());
    let request = request(rt, alloc); // a Get Blob of /acct/box/a
    // Under the lock the slot serves the request. The account has no key pair, and no slot comes after.
    let call = TimedCall {
        request: &request,
        moment: Moment::first(),
        keys: None,
        bound: None,
    };
    assert!(rt; slot.enter(&mut known, &call)); // otherwise the slot is poisoned
    two_connections_agree(&known, &slot.front()); // a law: both know beginnings of one history
}

// A slot of all keys is split. Then both slots know beginnings of one history.
fn split_first<A: Account>(rt: &impl Abort, history: NewHistory, middle: &Key)
    requires book { history.book ≡ A.history }
    requires fresh { history.next ≡ 0 }
    requires log { history.log ≡ Opened [] ∷ [] }
{
    let mut history = history;
    let front = history.front::<A>();
    let mut lower = SlotHistory::new(history.word::<A>(0), front);
    let spare = history.word::<A>(1);
    let upper = lower.split(spare, middle).expect(rt, "an upper slot");
    two_connections_agree(&lower.front(), &upper.front());
}

#[test]
fn a_slot_enters_a_request(rt: HostRuntime) {
    let history = NewHistory::new(&[]);
    enters_a_request::<Brand>(&rt, rt.alloc(), history);
}

#[test]
fn a_split_makes_two_slots(rt: HostRuntime) {
    let history = NewHistory::new(&[]);
    split_first::<Brand>(&rt, history, &key(&rt, rt.alloc(), "middle"));
}
