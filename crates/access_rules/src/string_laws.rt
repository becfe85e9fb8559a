//! A law of the strings that keys and tokens sign.
ghost use Rattle.std.specs.Prelude.{◌≢◌};
ghost use Rattle.stamp_types.specs.declared.ask.Ask.{Ask};
ghost use Rattle.sas_token.specs.Tokens.{IsToken, Sent};
ghost use Rattle.access_rules.specs.Parts.{string_of};
ghost use Rattle.access_rules.specs.TokenParts.{text_of};

/// The string that a token signs is never a string that a key signs, whatever the two requests are. The string of a key begins with
/// the method of its request. The string of a token begins with its permissions, or with a line feed if the token gives no
/// permissions. So whoever was given a token was not given the signature of a request: its `sig` signs no Authorization, and no
/// Authorization signs a `sig`.
pub fn a_token_signs_what_no_key_signs()
    ensures { (request tokens : Ask) (token : Sent) → IsToken tokens.signing.query token
        → text_of tokens token ≢ string_of request }
{}
