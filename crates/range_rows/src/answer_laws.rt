//! Laws of answers. Each law is the contract of a function that does nothing.
ghost use Rattle.std.specs.Prelude.{◌≡◌, ◌≢◌, ℕ, List, length};
ghost use Rattle.std.specs.List.{flat_map};
ghost use Rattle.stamp_values.specs.declared.op.Op.TheVariants as op;
ghost use Rattle.stamp_types.specs.Contents.{EachContent};
ghost use Rattle.stamp_types.specs.Pieces.{pieces_len};
ghost use Rattle.stamp_types.specs.Requests.{Asked};
ghost use Rattle.stamp_types.specs.World.{Part, part_value};
ghost use Rattle.stamp_types.specs.declared.piece.Piece.{Piece};
ghost use Rattle.range_rows.specs.Frames.{blob_read, frame};
ghost use Rattle.range_rows.specs.Replaced.{Replaced};
ghost use Rattle.range_rows.specs.SentContent.{ReadsWhole, blob_content, bytes_sent, reply_of, span_bytes, spans, with_content};

/// If what is read for each piece has the piece's length, the spans give the bytes that go out,
/// and the frame with the spans gives the reply. Both are what a container that holds the bytes
/// themselves has.
pub fn spans_say_what_content_goes_out()
    ensures content { (read : Piece → List ℕ) (p : Part (List Piece)) (q : Asked)
        → EachContent (ReadsWhole read) p
        → flat_map (span_bytes read) (spans p q) ≡ bytes_sent (part_value (flat_map read) p) q }
    ensures reply { (read : Piece → List ℕ) (v : Replaced) (p : Part (List Piece)) (q : Asked)
        → EachContent (ReadsWhole read) p
        → with_content (frame v (part_value pieces_len p) q) (flat_map (span_bytes read) (spans p q))
        ≡ reply_of v (part_value (flat_map read) p) q }
{}

/// The length that a reply says is the number of bytes that go out with it, so a client knows where
/// the reply ends. Get Blob Properties says the length of the blob instead, and sends no byte.
pub fn the_length_is_the_number_of_bytes_that_go_out()
    ensures body { (v : Replaced) (p : Part (List ℕ)) (q : Asked) → q.ask.op ≢ op.BlobProperties
        → (reply_of v p q).length ≡ length (reply_of v p q).body }
    ensures properties { (v : Replaced) (p : Part (List ℕ)) (q : Asked) → q.ask.op ≡ op.BlobProperties
        → (reply_of v p q).length ≡ length (blob_content (blob_read p q.ask)) }
{}
