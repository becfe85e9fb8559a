//! How a frame is written.
ghost use Rattle.std.specs.Prelude.{◌≡◌, ◌+◌, ◌<◌, ◌≤◌, ◌++◌, length, OnOk, OnErr};
ghost use Rattle.std.specs.Vec.{vec_len, vec_capacity};
ghost use Rattle.extent_frames.specs.Frames.{frame_of, eight_bytes, least_entry};

use crate::digest::Digest;
use std::alloc::AllocError;

/// How many bytes an entry has at least: it begins with two numbers of eight bytes, which say where it belongs.
pub const LEAST_ENTRY: usize = 16;

/// How many bytes a frame has before its entry.
pub(crate) const HEAD: usize = 16;

/// Appends bytes for which there is room.
fn push_bytes(out: &mut Vec<u8>, bytes: &[u8])
    requires { vec_len out.old + length bytes.now ≤ vec_capacity out.old }
    ensures items { out.new.items ≡ out.old.items ++ bytes.now }
    ensures len { vec_len out.new ≡ vec_len out.old + length bytes.now }
    ensures capacity { vec_capacity out.old ≤ vec_capacity out.new }
{
    if out.extend_from_slice(bytes).is_err() {
        unreachable!("there is room");
    }
}

/// Appends a number as eight bytes for which there is room.
#[tactic(auto, unfolding(crate::specs::Frames::eight_bytes))]
fn push_number(out: &mut Vec<u8>, number: u64)
    requires { vec_len out.old + 8 ≤ vec_capacity out.old }
    ensures items { out.new.items ≡ out.old.items ++ eight_bytes number }
    ensures len { vec_len out.new ≡ vec_len out.old + 8 }
    ensures capacity { vec_capacity out.old ≤ vec_capacity out.new }
{
    push_bytes(out, &number.to_be_bytes());
}

/// Appends the frame of an entry, which has at least 16 bytes and this index in this segment.
///
/// `AllocError` if there is no room for the frame and memory runs out. Then it appends nothing.
#[tactic(auto, unfolding(crate::specs::Frames::frame_of))]
pub fn write_frame<D: Digest>(
    out: &mut Vec<u8>,
    digest: &D,
    segment: u64,
    index: u64,
    entry: &[u8],
) -> Result<(), AllocError>
    requires { least_entry ≤ length entry.now }
    ensures written { OnOk result
        (out.new.items ≡ out.old.items ++ frame_of (D.digest_of digest.now segment) index entry.now) }
    ensures refused { OnErr result (out.new.items ≡ out.old.items) }
    ensures memory { OnErr result
        (vec_capacity out.old < vec_len out.old + (16 + length entry.now)) }
{
    let sum = digest.digest(segment, index, entry);
    out.reserve(HEAD + entry.len())?;
    push_number(out, entry.len() as u64);
    push_number(out, sum);
    push_bytes(out, entry);
    Ok(())
}
