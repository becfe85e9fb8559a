//! The garbage of one connection is swept away, in steps of other requests or of nobody's. Signatures were made outside of this repository's code.
ghost use Rattle.std.specs.Prelude.{◌≡◌, ◌∷◌, []};
ghost use Rattle.served_history.specs.declared.entry.Entry.TheVariants.{Opened};

use crate::connection::SlotsService;
use crate::slots::Slots;
use crate::slots_tests::{CREATE_PICS, CREATED, pairs, sent};
use access_rules::Keys;
use served_history::{Account, NewHistory};
use std::alloc::Global;
use std::marker::Brand;
use std::process::Abort;
use std::sync::Wait;

// The head of a Put Block of 3,500,000 bytes, signed by `key1`.
const PUT_BLOCK: &[u8] =
    b"PUT /devstoreaccount1/pics/a.txt?comp=block&blockid=AAAA HTTP/1.1\r\nx-ms-date: Mon, 01 Oct 2012 12:00:00 GMT\r\nx-ms-version: 2012-02-12\r\nContent-Length: 3500000\r\nAuthorization: SharedKey devstoreaccount1:nEov6sNyTR++xDdeS1fSSQbYU+lTqqbgLXdRS+TMJi0=\r\n\r\n";

// The same for 1,200,000 bytes, which are more than 1 MiB.
const PUT_LITTLE: &[u8] =
    b"PUT /devstoreaccount1/pics/a.txt?comp=block&blockid=AAAA HTTP/1.1\r\nx-ms-date: Mon, 01 Oct 2012 12:00:00 GMT\r\nx-ms-version: 2012-02-12\r\nContent-Length: 1200000\r\nAuthorization: SharedKey devstoreaccount1:E5aljUBDkjiuJkb9LCABxpDh808KAPG2ZvKNzGdmhes=\r\n\r\n";

// The query of a token by which blobs of `pics` are read and written, signed by `key1`.
const TOKEN: &str =
    "?sv=2012-02-12&sr=c&sp=rw&se=2030-01-01T00%3A00%3A00Z&sig=siUQE86Zk%2BhAnfzvvG0U2gm2xrCDrqCUVLbC%2FZptNBE%3D";

// The rest of a Put Blob of `hello`, and of a Get Blob.
const PUT_REST: &str =
    " HTTP/1.1\r\nHost: 127.0.0.1:10000\r\nContent-Length: 5\r\nx-ms-blob-type: BlockBlob\r\n\r\nhello";

const GET_REST: &str = " HTTP/1.1\r\nHost: 127.0.0.1:10000\r\n\r\n";

// Ten blobs. With the container and the blob that has the blocks they are twelve rows.
const NAMES: [&str; 10] = ["b0", "b1", "b2", "b3", "b4", "b5", "b6", "b7", "b8", "b9"];

// The answer to a request on a blob of `pics`, which begins and ends so.
fn asked<A: Account, R: Wait + Abort>(
    rt: &R,
    alloc: Global,
    connection: &mut SlotsService<'_, A, R>,
    verb: &str,
    name: &str,
    rest: &str,
) -> Vec<u8> {
    let mut request = String::from_str(alloc, verb).expect(rt, "memory");
    for part in [" /devstoreaccount1/pics/", name, TOKEN, rest] {
        request.push_str(part).expect(rt, "memory");
    }
    sent(rt, alloc, connection, request.as_bytes())
}

// Whether `hello` was put into a blob.
fn is_put<A: Account, R: Wait + Abort>(
    rt: &R,
    alloc: Global,
    connection: &mut SlotsService<'_, A, R>,
    name: &str,
) -> bool {
    asked(rt, alloc, connection, "PUT", name, PUT_REST).starts_with(CREATED)
}

// Whether a blob has `hello`.
fn has_hello<A: Account, R: Wait + Abort>(
    rt: &R,
    alloc: Global,
    connection: &mut SlotsService<'_, A, R>,
    name: &str,
) -> bool {
    asked(rt, alloc, connection, "GET", name, GET_REST).ends_with(b"\r\n\r\nhello")
}

// The container, with ten blobs.
fn fill<A: Account, R: Wait + Abort>(
    rt: &R,
    alloc: Global,
    connection: &mut SlotsService<'_, A, R>,
) {
    assert!(rt; sent(rt, alloc, connection, CREATE_PICS).starts_with(CREATED));
    for name in NAMES {
        assert!(rt; is_put(rt, alloc, connection, name));
    }
}

// A block of so many bytes is put so many times under one id. A block that is not committed counts as wasted before a sweep.
fn put_blocks<A: Account, R: Wait + Abort>(
    rt: &R,
    alloc: Global,
    connection: &mut SlotsService<'_, A, R>,
    head: &[u8],
    size: usize,
    puts: u32,
) {
    let mut request = head.to_vec(alloc).expect(rt, "memory");
    let body = vec![in alloc; 7u8; size].expect(rt, "memory");
    request
        .extend_from_slice(body.as_slice())
        .expect(rt, "memory");
    for _put in 0..puts {
        assert!(rt; sent(rt, alloc, connection, request.as_slice()).starts_with(CREATED));
    }
}

// More than 16 MiB are wasted.
fn waste<A: Account, R: Wait + Abort>(
    rt: &R,
    alloc: Global,
    connection: &mut SlotsService<'_, A, R>,
) {
    put_blocks(rt, alloc, connection, PUT_BLOCK, 3_500_000, 5);
}

// A little is wasted. It is swept away only if memory is short.
fn waste_little<A: Account, R: Wait + Abort>(
    rt: &R,
    alloc: Global,
    connection: &mut SlotsService<'_, A, R>,
) {
    put_blocks(rt, alloc, connection, PUT_LITTLE, 1_200_000, 1);
}

// Each blob is as it was.
fn are_kept<A: Account, R: Wait + Abort>(
    rt: &R,
    alloc: Global,
    connection: &mut SlotsService<'_, A, R>,
) {
    for name in NAMES {
        assert!(rt; has_hello(rt, alloc, connection, name));
    }
}

// The garbage of the writer is swept by the next Puts of the reader: four rows at each. Its Gets make no step.
fn sweeps_for_another<A: Account, R: Wait + Abort>(
    rt: &R,
    alloc: Global,
    pairs: Vec<Keys>,
    history: NewHistory,
)
    requires book { history.book ≡ A.history }
    requires fresh { history.next ≡ 0 }
    requires log { history.log ≡ Opened pairs.items ∷ [] }
{
    let (slots, front) = Slots::<A>::new(alloc, pairs, history).expect(rt, "memory");
    let mut writer = SlotsService::new(rt, &slots, front.again());
    let mut reader = SlotsService::new(rt, &slots, front);
    fill(rt, alloc, &mut writer);
    waste(rt, alloc, &mut writer);
    are_kept(rt, alloc, &mut reader);
    assert!(rt; slots.is_to_sweep(rt, false) && !slots.is_sweeping(rt));
    assert!(rt; is_put(rt, alloc, &mut reader, "b0"));
    assert!(rt; slots.is_sweeping(rt));
    are_kept(rt, alloc, &mut reader);
    assert!(rt; slots.is_sweeping(rt));
    for name in ["b1", "b2", "b3"] {
        assert!(rt; is_put(rt, alloc, &mut reader, name));
    }
    assert!(rt; !slots.is_to_sweep(rt, false));
    assert!(rt; slots.drop_left(rt)); // the last Put has left what was given up
    assert!(rt; !slots.drop_left(rt));
    are_kept(rt, alloc, &mut writer);
}

#[test]
fn puts_sweep_what_a_connection_wastes(rt: HostRuntime) {
    let pairs = pairs(&rt, rt.alloc());
    let history = NewHistory::new(&pairs);
    sweeps_for_another::<Brand, _>(&rt, rt.alloc(), pairs, history);
}

// A slot to which nobody writes is swept in a few steps.
fn sweeps_at_rest<A: Account, R: Wait + Abort>(
    rt: &R,
    alloc: Global,
    pairs: Vec<Keys>,
    history: NewHistory,
)
    requires book { history.book ≡ A.history }
    requires fresh { history.next ≡ 0 }
    requires log { history.log ≡ Opened pairs.items ∷ [] }
{
    let (slots, front) = Slots::<A>::new(alloc, pairs, history).expect(rt, "memory");
    let mut client = SlotsService::new(rt, &slots, front);
    fill(rt, alloc, &mut client);
    assert!(rt; !slots.tend_garbage(rt, alloc, true));
    waste_little(rt, alloc, &mut client);
    assert!(rt; !slots.tend_garbage(rt, alloc, false));
    assert!(rt; slots.is_to_sweep(rt, true));
    assert!(rt; slots.tend_garbage(rt, alloc, true));
    for _step in 0..8 {
        let _is_left = slots.tend_garbage(rt, alloc, true);
    }
    assert!(rt; !slots.is_to_sweep(rt, true));
    assert!(rt; !slots.tend_garbage(rt, alloc, true));
    are_kept(rt, alloc, &mut client);
}

#[test]
fn a_slot_at_rest_is_swept(rt: HostRuntime) {
    let pairs = pairs(&rt, rt.alloc());
    let history = NewHistory::new(&pairs);
    sweeps_at_rest::<Brand, _>(&rt, rt.alloc(), pairs, history);
}

// A little is wasted, and swept away at once since memory is short.
fn sweeps_in_need<A: Account, R: Wait + Abort>(
    rt: &R,
    alloc: Global,
    pairs: Vec<Keys>,
    history: NewHistory,
)
    requires book { history.book ≡ A.history }
    requires fresh { history.next ≡ 0 }
    requires log { history.log ≡ Opened pairs.items ∷ [] }
{
    let (slots, front) = Slots::<A>::new(alloc, pairs, history).expect(rt, "memory");
    let mut client = SlotsService::new(rt, &slots, front);
    fill(rt, alloc, &mut client);
    waste_little(rt, alloc, &mut client);
    assert!(rt; slots.is_to_sweep(rt, true) && !slots.is_to_sweep(rt, false));
    assert!(rt; slots.collect(rt, alloc));
    assert!(rt; !slots.is_to_sweep(rt, true));
    assert!(rt; !slots.collect(rt, alloc));
    are_kept(rt, alloc, &mut client);
}

#[test]
fn a_little_is_swept_away_if_memory_is_short(rt: HostRuntime) {
    let pairs = pairs(&rt, rt.alloc());
    let history = NewHistory::new(&pairs);
    sweeps_in_need::<Brand, _>(&rt, rt.alloc(), pairs, history);
}
