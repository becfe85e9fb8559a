//! Laws of the frames of a segment, for every digest.
ghost use Rattle.std.specs.Prelude.{ℕ};
ghost use Rattle.extent_frames.specs.Frames.{SegmentDigest, IsOf64Bits};
ghost use Rattle.extent_frames.specs.Crashes.{HasOneReading, KeepsAcknowledged, DropsCutFrame, TornIsWholeOrMissing, EndsBeforeZeros, ReadsFirst};
ghost use Rattle.extent_frames.specs.WordDigests.{word_digest};

/// Two readings of one file are the same, for every digest of 64 bits.
pub fn a_file_has_one_reading()
    ensures { (digest : SegmentDigest) → IsOf64Bits digest → HasOneReading digest }
{}

/// Whatever bytes a crash leaves after the frames of acknowledged entries, these entries are read first, each at its index.
pub fn acknowledged_entries_are_read()
    ensures { (digest : SegmentDigest) → IsOf64Bits digest → KeepsAcknowledged digest }
{}

/// A frame that the end of the file cuts is not read, whatever its digest is.
pub fn a_cut_frame_is_dropped()
    ensures { (digest : SegmentDigest) → IsOf64Bits digest → DropsCutFrame digest }
{}

/// Whatever bytes a torn write leaves in the place of the last frame, with only zeros after them, its entry is read whole, or it is
/// missing, or the bytes name the right digest of another entry.
pub fn a_torn_frame_is_whole_or_missing()
    ensures { (digest : SegmentDigest) → IsOf64Bits digest → TornIsWholeOrMissing digest }
{}

/// In a file that was filled with zeros in advance, the entries end where the frames end.
pub fn zeros_after_frames_are_not_read()
    ensures { (digest : SegmentDigest) → IsOf64Bits digest → EndsBeforeZeros digest }
{}

/// Any number of frames may be on their way at a crash. If no digest is forged, the entries that are read are the first of all that
/// were appended.
pub fn the_first_entries_are_read()
    ensures { (digest : SegmentDigest) → IsOf64Bits digest → ReadsFirst digest }
{}

/// The digest by words has 64 bits, under each key and in each segment. So all laws of frames hold for it.
pub fn the_word_digest_has_64_bits()
    ensures { (key segment : ℕ) → IsOf64Bits (word_digest key segment) }
{}
