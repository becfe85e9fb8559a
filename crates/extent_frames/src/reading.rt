//! How the frames of a file are read.
ghost use Rattle.std.specs.Prelude.{◌≤◌, IfOk, OnErr, length, map};
ghost use Rattle.extent_frames.specs.ReadFrames.{HasFrames};

use crate::digest::Digest;
use crate::unread::Unread;
use crate::writing::{HEAD, LEAST_ENTRY};
use std::alloc::{AllocError, Global};

/// The entries of a segment's file, up to the first place where no whole frame with the right digest begins. No byte is copied.
///
/// `AllocError` if memory runs out. Memory is taken once, for as many entries as the file can have at most: half of the file's length.
pub fn read_frames<'a, D: Digest>(
    alloc: Global,
    digest: &D,
    segment: u64,
    file: &'a [u8],
) -> Result<Vec<&'a [u8]>, AllocError>
    ensures read { IfOk result (λ entries.
        HasFrames (D.digest_of digest.now segment) file.now (map (λ e. e.now) entries.items)) }
    ensures memory { OnErr result (32 ≤ length file.now) }
{
    let mut entries = Vec::with_capacity(alloc, file.len() / (HEAD + LEAST_ENTRY))?;
    let mut unread = Unread { bytes: file };
    let mut index = 0u64;
    while let Some(entry) = unread.frame(digest, segment, index) {
        entries.push_reserved(entry);
        index += 1;
    }
    Ok(entries)
}
