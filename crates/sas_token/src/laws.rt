//! Laws of tokens. Each law is the contract of a function that does nothing.
ghost use Rattle.std.specs.Prelude.{◌≡◌, ◌↔◌, ◌∷◌, ◌++◌, ℕ, List, Option, Some};
ghost use Rattle.stamp_values.specs.Ascii.{line_feed};
ghost use Rattle.stamp_values.specs.declared.key.Key.{Key};
ghost use Rattle.stamp_values.specs.declared.signing.Field.{Field};
ghost use Rattle.sas_token.specs.declared.fault.TokenFault.{TokenFault as Fault};
ghost use Rattle.sas_token.specs.Tokens.{Sent, IsToken, IsFault, newer_version, served_version, token_string, HasGoodNames, MeanTheSame};
ghost use Rattle.sas_token.specs.TokenReading.{token_of};

/// A query is one token, or it has one fault. It is not two tokens, has not two first faults, and is not a token with a fault.
pub fn a_query_is_one_token()
    ensures token { (query : List Field) (t u : Sent) → IsToken query t → IsToken query u → t ≡ u }
    ensures fault { (query : List Field) (f g : Fault) → IsFault query f → IsFault query g → f ≡ g }
    ensures not_both { (query : List Field) (t : Sent) (f : Fault) → IsToken query t
        → ¬ IsFault query f }
{}

/// The reading as a function gives the token that a query is, and nothing else.
pub fn the_reading_is_the_token()
    ensures { (query : List Field) (t : Sent) → (token_of query ≡ Some t) ↔ IsToken query t }
{}

/// If two tokens of one version have one string to sign, they mean the same. So a signature of one token is not a signature of a
/// token that means something else. The paths of both tokens have good names, and if a token is for a blob, its path names a blob.
pub fn one_string_has_one_meaning()
    ensures { (q r : List Field) (t u : Sent) (k l : Key) (a b : Option (List ℕ)) → IsToken q t
        → IsToken r u → t.version ≡ u.version → HasGoodNames t k a → HasGoodNames u l b
        → token_string t k a ≡ token_string u l b → MeanTheSame t u k l a b }
{}

/// If a token of the version 2012-02-12 and a token of the version 2013-08-15 have one string to sign, the id of the first token is the
/// id of the second one, a line feed and more bytes. So tokens of the two versions whose ids have no line feed never have one string.
/// The paths of both tokens have good names.
pub fn one_string_of_two_versions_has_an_id_with_a_line_feed()
    ensures { (q r : List Field) (t u : Sent) (k l : Key) (a b : Option (List ℕ)) → IsToken q t
        → IsToken r u → t.version ≡ served_version → u.version ≡ newer_version
        → HasGoodNames t k a → HasGoodNames u l b → token_string t k a ≡ token_string u l b
        → (rest : List ℕ) × (t.id ≡ u.id ++ line_feed ∷ rest) }
{}
