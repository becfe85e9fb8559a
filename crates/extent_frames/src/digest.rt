//! Digests of entries.
ghost use Rattle.std.specs.Prelude.{◌≡◌};

/// A digest of 64 bits.
pub trait Digest {
    ghost use Rattle.std.specs.Prelude.{ℕ};
    ghost use Rattle.extent_frames.specs.Frames.{SegmentDigest};

    /// The digests of each segment.
    ghost digest_of: { Self → ℕ → SegmentDigest };

    /// The digest of an entry whose frame has this index in this segment.
    fn digest(&self, segment: u64, index: u64, entry: &[u8]) -> u64
        ensures { result ≡ digest_of self.now segment index entry.now };
}
