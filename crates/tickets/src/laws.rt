//! Laws of tickets. Each law is the contract of a function that does nothing.
ghost use Rattle.std.specs.Prelude.{◌≡◌, ℕ, All, List};
ghost use Rattle.std.specs.List.{flat_map};
ghost use Rattle.extent_node.specs.Copies.{Block};
ghost use Rattle.stamp_types.specs.Contents.{EachContent};
ghost use Rattle.stamp_types.specs.Pieces.{pieces_len};
ghost use Rattle.stamp_types.specs.Requests.{Asked};
ghost use Rattle.stamp_types.specs.World.{Part, part_value};
ghost use Rattle.stamp_types.specs.declared.piece.Piece.{Piece};
ghost use Rattle.stream_manager.specs.Places.{KeepsPlaces};
ghost use Rattle.partition_stream.specs.Contents.{AreStored, bytes_at, content_at};
ghost use Rattle.range_rows.specs.FoundParts.{pieces_found_after};
ghost use Rattle.range_rows.specs.Frames.{frame};
ghost use Rattle.range_rows.specs.Replaced.{Replaced};
ghost use Rattle.range_rows.specs.SentContent.{reply_of, span_bytes, spans, with_content};
ghost use Rattle.tickets.specs.Answers.{IsSpanStored};

/// A ticket is the reply of its Serve: the frame with the bytes of the spans is what the model replies, from the container as its
/// content is read in the data when the request is served. It is also what the model replies from the data at any later time, since
/// the blocks of the data stay at their places.
pub fn a_ticket_is_the_reply_of_its_serve()
    ensures reply { (es : List (List Block)) (v : Replaced) (p : Part (List Piece)) (q : Asked) → EachContent (AreStored es) p
        → with_content (frame v (part_value pieces_len p) q) (flat_map (span_bytes (bytes_at es)) (spans p q))
        ≡ reply_of v (part_value (content_at es) p) q }
    ensures later { (es fs : List (List Block)) (v : Replaced) (p : Part (List Piece)) (q : Asked) → EachContent (AreStored es) p → KeepsPlaces es fs
        → with_content (frame v (part_value pieces_len p) q) (flat_map (span_bytes (bytes_at es)) (spans p q))
        ≡ reply_of v (part_value (content_at fs) p) q }
{}

/// What goes out with a reply is stored if each content of the container is stored. The request's own change changes nothing of it: a
/// request that writes sends no content.
pub fn what_goes_out_is_stored()
    ensures stored { (es : List (List Block)) (p : Part (List Piece)) (q : Asked) → EachContent (AreStored es) p → All (IsSpanStored es) (spans p q) }
    ensures after { (p : Part (List Piece)) (q : Asked) (t : ℕ) → spans (pieces_found_after p q t) q ≡ spans p q }
{}
