//! A slot is swept while no request comes. The signatures were made outside of this repository's code.
ghost use Rattle.std.specs.Prelude.{◌≡◌, ◌∷◌, []};
ghost use Rattle.served_history.specs.declared.entry.Entry.TheVariants.{Opened};

use crate::machine::Machine;
use crate::serving_tests::{CREATE, Noon, first_pairs};
use crate::sweeper::{Bell, sweep_until};
use access_rules::Keys;
use http_front::{Connection, End, run};
use served_history::{Account, NewHistory};
use served_slots::{Reserve, Slots, SlotsService};
use std::alloc::Global;
use std::marker::Brand;
use std::process::Abort;
use std::sync::Wait;
use std::test::Fail;
use std::thread;
use std::thread::Threads;
use std::time::{Clock, Duration};

// The head of a Put Block of 1,200,000 bytes, signed by `key1`.
const PUT_BLOCK: &[u8] =
    b"PUT /devstoreaccount1/pics/a.txt?comp=block&blockid=AAAA HTTP/1.1\r\nx-ms-date: Mon, 01 Oct 2012 12:00:00 GMT\r\nx-ms-version: 2012-02-12\r\nContent-Length: 1200000\r\nAuthorization: SharedKey devstoreaccount1:E5aljUBDkjiuJkb9LCABxpDh808KAPG2ZvKNzGdmhes=\r\n\r\n";

const CREATED: &[u8] = b"HTTP/1.1 201 Created\r\n";

// How many milliseconds the slot is left alone. It is more than the longest pause between two looks.
const REST: u64 = 3_000;

// Whether a request is answered as a success.
fn is_done<A: Account, R: Wait + Clock>(
    rt: &R,
    alloc: Global,
    client: &mut SlotsService<'_, A, R>,
    request: &[u8],
) -> bool {
    let noon = Noon(rt);
    let mut connection = Connection::new(alloc, request, Vec::new(alloc), 1_000);
    let end = run(alloc, &mut connection, &mut Machine::new(&noon), client);
    let (_, out) = connection.into_parts();
    end == Ok(End::Clean) && out.starts_with(CREATED)
}

// A block is put. It is not committed, so it counts as wasted before a sweep. If memory is short, so much is worth a sweep.
fn waste<A: Account, R: Wait + Clock + Abort>(
    rt: &R,
    alloc: Global,
    client: &mut SlotsService<'_, A, R>,
) {
    let mut request = PUT_BLOCK.to_vec(alloc).expect(rt, "memory");
    let body = vec![in alloc; 7u8; 1_200_000].expect(rt, "memory");
    request
        .extend_from_slice(body.as_slice())
        .expect(rt, "memory");
    assert!(rt; is_done(rt, alloc, client, request.as_slice()));
}

// The first time the test itself sweeps what is wasted. The second time the sweeper does, and nobody else.
fn sweeps_alone<A: Account + Send + Sync, R: Threads + Wait + Clock + Abort + Sync>(
    rt: &R,
    alloc: Global,
    pairs: Vec<Keys>,
    history: NewHistory,
)
    requires book { history.book ≡ A.history }
    requires fresh { history.next ≡ 0 }
    requires log { history.log ≡ Opened pairs.items ∷ [] }
{
    let (slots, front) = Slots::<A>::new(alloc, pairs, history).expect(rt, "memory");
    let reserve = Reserve::new(alloc);
    assert!(rt; reserve.give_up(rt));
    let mut client = SlotsService::new(rt, &slots, front);
    assert!(rt; is_done(rt, alloc, &mut client, CREATE));
    waste(rt, alloc, &mut client);
    assert!(rt; slots.tend_garbage(rt, alloc, true));
    assert!(rt; !slots.tend_garbage(rt, alloc, true));
    waste(rt, alloc, &mut client);
    let bell = Bell::new();
    thread::join(
        rt,
        || sweep_until(rt, rt, alloc, &slots, &reserve, &bell),
        || {
            thread::sleep(rt, Duration::from_millis(REST));
            bell.ring(rt);
        },
    );
    assert!(rt; !slots.tend_garbage(rt, alloc, true));
}

#[test]
fn a_slot_is_swept_to_which_no_request_comes(rt: HostRuntime) -> Result<(), Fail> {
    let (_, pairs) = first_pairs(rt.alloc())?;
    let history = NewHistory::new(&pairs);
    sweeps_alone::<Brand, _>(&rt, rt.alloc(), pairs, history);
    Ok(())
}
