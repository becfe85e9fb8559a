//! The container and the blob that a request names.
ghost use Rattle.std.specs.Prelude.{◌≡◌};
ghost use Rattle.stamp_types.specs.Pieces.{pieces_len};
ghost use Rattle.stamp_types.specs.World.{blob_value};
ghost use Rattle.row_trees.specs.FoundParts.{sized, sizes_found};
ghost use Rattle.range_rows.specs.NamedBlobs.{IsTarget, target_blob};
ghost use Rattle.range_rows.specs.ObjectRules.{named_blob};

use row_trees::{Found, FoundBlob};
use stamp_types::Ask;

/// What rows find of the container and of the blob that a request names. If the request names no
/// blob, this is a blob of a name that was never used.
///
/// A request is judged and answered by what was found, so that it walks to its container and to its
/// blob once.
#[derive(Drop)]
pub struct Target<'a> {
    pub container: Found<'a>,
    pub(crate) blob: FoundBlob<'a>,
}

impl<'a> Target<'a> {
    /// The same once more: what was found is lent twice, and no row is looked up again.
    pub fn again(&self) -> Self
        ensures { result ≡ self.now }
    {
        Self {
            container: self.container.again(),
            blob: self.blob.again(),
        }
    }

    /// The blob that was found.
    pub fn blob(&self) -> &FoundBlob<'a>
        ensures { result.now ≡ self.now.blob }
    {
        &self.blob
    }

    /// What was found of the container that the request names, with the blob that it names.
    pub fn of(container: Found<'a>, ask: &Ask) -> Self
        ensures container { result.container ≡ container.entry }
        ensures blob { IsTarget result ask.now }
    {
        let blob = match &ask.blob {
            Some(name) => container.seen(name),
            None => FoundBlob::nothing(),
        };
        Self { container, blob }
    }

    /// The blob that the request names, as the rules and the replies speak of it.
    #[tactic(auto, using(crate::proofs::BlockLemmas::named_part, crate::proofs::BlockLemmas::named_sizes, crate::proofs::BlockLemmas::named_part_sizes))]
    pub(crate) fn named(&self, ask: &Ask) -> &FoundBlob<'a>
        requires { IsTarget self.now ask.now }
        ensures value { result.now ≡ target_blob self.now.container ask.now }
        ensures sizes { blob_value pieces_len result.now
            ≡ target_blob (sizes_found self.now.container) ask.now }
        ensures part { result.now.committed ≡ named_blob self.now.container ask.now }
        ensures part_sizes { sized result.now.committed
            ≡ named_blob (sizes_found self.now.container) ask.now }
    {
        let _named = &ask.blob;
        &self.blob
    }
}
