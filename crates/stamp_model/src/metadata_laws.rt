//! A law of the metadata that lists show.
ghost use Rattle.std.specs.Prelude.{◌≡◌, ℕ, List, None};
ghost use Rattle.stamp_values.specs.declared.key.Key.{Key};
ghost use Rattle.stamp_values.specs.declared.op.Op.TheVariants.{GetMetadata};
ghost use Rattle.stamp_types.specs.World.{World};
ghost use Rattle.list_pages.specs.ListReplies.{page_asked};
ghost use Rattle.stamp_model.specs.Listed.{ListsNames, ListsOnce};
ghost use Rattle.stamp_model.specs.ListedMetadata.{TellsMetadata, WritesBlob};
ghost use Rattle.stamp_model.specs.Runs.{Timed, IsOn, reply_to_one};

/// A list shows the metadata that a blob tells. Let a List Blobs without a delimiter, and a Get Blob
/// Metadata, be refused by no rule. If the page of the list reaches the name of the blob, the page has
/// one entry of the name, whose metadata are those of the Get Blob Metadata, all of them in their order.
/// The entry has the ETag and the moment of the Get Blob Metadata too. The body of the list has the
/// element of this blob, with these metadata if the request asks for them (include=metadata).
pub fn a_list_shows_the_metadata_that_a_blob_tells()
    ensures { (w : World (List ℕ)) (key : Key) (name : List ℕ) (list get : Timed)
        → ListsNames key list.request → (reply_to_one w list).rule ≡ None
        → IsOn GetMetadata key name get.request → (reply_to_one w get).rule ≡ None
        → ListsOnce list.request name (reply_to_one w list)
        (λ shown. TellsMetadata (reply_to_one w get) shown
        × WritesBlob (page_asked list.request) name shown (reply_to_one w list).body) }
{}
