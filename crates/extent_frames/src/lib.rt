//! Frames of a file: each has the length of an entry, its digest and its bytes.
#![tactic(auto)]

mod digest;
#[cfg(test)]
mod frame_tests;
mod laws;
mod reading;
mod unread;
mod word_digest;
mod writing;

pub use digest::Digest;
pub use laws::{
    a_cut_frame_is_dropped, a_file_has_one_reading, a_torn_frame_is_whole_or_missing,
    acknowledged_entries_are_read, the_first_entries_are_read, the_word_digest_has_64_bits,
    zeros_after_frames_are_not_read,
};
pub use reading::read_frames;
pub use word_digest::WordDigest;
pub use writing::{LEAST_ENTRY, write_frame};
