//! Laws of the headers that a token overrides. Each law is the contract of a function that does
//! nothing.
ghost use Rattle.std.specs.Prelude.{◌≡◌, ◌≢◌, ◌⊎◌, ℕ, List, None, Some, codes};
ghost use Rattle.stamp_values.specs.Fields.{first_value};
ghost use Rattle.stamp_values.specs.declared.key.Key.{Key};
ghost use Rattle.stamp_values.specs.declared.op.Op.TheVariants.{BlobProperties, GetBlob};
ghost use Rattle.stamp_values.specs.declared.signing.Credential.TheVariants.{Token};
ghost use Rattle.stamp_types.specs.declared.ask.Ask.{Ask};
ghost use Rattle.stamp_types.specs.World.{World};
ghost use Rattle.sas_token.specs.TokenReading.{token_of};
ghost use Rattle.sas_token.specs.Tokens.{Sent, served_version};
ghost use Rattle.range_rows.specs.Replaced.{nothing_replaced};
ghost use Rattle.stamp_model.specs.Overrides.{DiffersInFive, overrides_of, replaced_by};
ghost use Rattle.stamp_model.specs.Runs.{Timed, IsOn, reply_to_one};

/// A token overrides five headers. If no rule refuses two Get Blobs of one blob with one range, and
/// the second overrides nothing, their replies have the same status, length and body, and the same
/// headers, except that Cache-Control, Content-Disposition, Content-Encoding, Content-Language and
/// Content-Type of the first reply are what the first request's token says, or else the blob's own.
/// The same is so of two Get Blob Properties.
pub fn a_token_overrides_five_headers()
    ensures get { (w : World (List ℕ)) (key : Key) (name : List ℕ) (get plain : Timed)
        → IsOn GetBlob key name get.request → IsOn GetBlob key name plain.request
        → get.request.ask.args.range ≡ plain.request.ask.args.range
        → overrides_of plain.request.ask ≡ nothing_replaced
        → (reply_to_one w get).rule ≡ None → (reply_to_one w plain).rule ≡ None
        → DiffersInFive (reply_to_one w get) (reply_to_one w plain)
        (overrides_of get.request.ask) }
    ensures properties { (w : World (List ℕ)) (key : Key) (name : List ℕ) (get plain : Timed)
        → IsOn BlobProperties key name get.request → IsOn BlobProperties key name plain.request
        → overrides_of plain.request.ask ≡ nothing_replaced
        → (reply_to_one w get).rule ≡ None → (reply_to_one w plain).rule ≡ None
        → DiffersInFive (reply_to_one w get) (reply_to_one w plain)
        (overrides_of get.request.ask) }
    ensures token { (a : Ask) (token : Sent)
        → (a.op ≡ GetBlob) ⊎ (a.op ≡ BlobProperties) → a.credential ≡ Token
        → token_of a.signing.query ≡ Some token
        → overrides_of a ≡ replaced_by token.overrides }
{}

/// A token of the first version overrides nothing, whatever its query has. A query with none of the
/// five parameters overrides nothing, nor does a request of another route or of an operation that is
/// neither Get Blob nor Get Blob Properties.
pub fn other_requests_override_nothing()
    ensures first_version { (a : Ask) (token : Sent)
        → token_of a.signing.query ≡ Some token → token.version ≡ served_version
        → overrides_of a ≡ nothing_replaced }
    ensures without { (a : Ask)
        → first_value a.signing.query (codes "rscc") ≡ None
        → first_value a.signing.query (codes "rscd") ≡ None
        → first_value a.signing.query (codes "rsce") ≡ None
        → first_value a.signing.query (codes "rscl") ≡ None
        → first_value a.signing.query (codes "rsct") ≡ None
        → overrides_of a ≡ nothing_replaced }
    ensures route { (a : Ask) → a.credential ≢ Token → overrides_of a ≡ nothing_replaced }
    ensures operation { (a : Ask) → a.op ≢ GetBlob → a.op ≢ BlobProperties
        → overrides_of a ≡ nothing_replaced }
{}
