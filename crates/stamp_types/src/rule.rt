//! Rules that refuse requests.
ghost use Rattle.std.specs.Prelude.{◌≡◌};

/// The rule by which a request is refused, as the header x-stamp-rule and the error's message name
/// it. F is about the form of the head, K about a signature with the account's key, S about a
/// shared access signature, P about public access, O about what is stored, M and N about the stamp
/// itself.
#[derive(Clone, Copy, Debug, PartialEq, Eq)]
pub enum Rule {
    /// No request head can be read, the head is too long, or its target is not a path on the stamp.
    F1,
    /// The stamp does not serve the method.
    F2,
    /// No operation is asked for in this way, or one of its query parameters is bad or given twice.
    F3,
    /// The length of the body isn't given, or is not a number.
    F4,
    /// The name of the account, the container or the blob is bad.
    F5,
    /// A header asks for what the stamp doesn't do.
    F6,
    /// A header is given twice, has a bad value, or is missing.
    F7,
    /// The body is longer than the operation allows.
    F8,
    /// There is more than one Authorization value, or the value can't be read as a shared key's
    /// value.
    K1,
    /// The account isn't the account of the path, or isn't an account of the stamp.
    K2,
    /// The request has no date that can be read.
    K3,
    /// The date is too far from the stamp's clock.
    K4,
    /// No key of the account gives the signature.
    K5,
    /// The parameters of the token can't be read.
    S1,
    /// The account isn't an account of the stamp.
    S2,
    /// The request names no container, or it names no blob and the token is for a blob.
    S3,
    /// No key of the account gives the token's signature.
    S4,
    /// The container has no policy of the id that the token names.
    S5,
    /// The token and the policy both give the start, the expiry or the permissions.
    S6,
    /// Neither the token nor the policy gives the expiry, or neither gives the permissions.
    S7,
    /// The token isn't valid yet.
    S8,
    /// The token has expired.
    S9,
    /// No token can allow the operation.
    S10,
    /// The permissions don't allow the operation.
    S11,
    /// No level of public access allows the operation.
    P1,
    /// The container's level doesn't allow the operation, or the container doesn't exist.
    P2,
    /// The container doesn't exist.
    O1,
    /// The container that is to be created exists.
    O2,
    /// The blob doesn't exist.
    O3,
    /// A condition on the blob's ETag fails.
    O4,
    /// The body has another MD5 than the headers give, doesn't have its form, or names blocks that
    /// can't be found.
    O5,
    /// A limit on blocks, blobs or counts would be passed, or the blob has no byte of the range.
    O6,
    /// Memory ran out while the request was served.
    M1,
    /// Nodes that the request needs can't be reached. Nothing was changed.
    N1,
    /// It isn't known whether the change was logged. The change may show later.
    N2,
}

impl Rule {
    ghost use Rattle.stamp_types.specs.Rules.{rule_label};

    /// The letter and the number of the rule.
    pub fn label(self) -> &'static str
        ensures { result.now ≡ rule_label self }
    {
        match self {
            Rule::F1 => "F1",
            Rule::F2 => "F2",
            Rule::F3 => "F3",
            Rule::F4 => "F4",
            Rule::F5 => "F5",
            Rule::F6 => "F6",
            Rule::F7 => "F7",
            Rule::F8 => "F8",
            Rule::K1 => "K1",
            Rule::K2 => "K2",
            Rule::K3 => "K3",
            Rule::K4 => "K4",
            Rule::K5 => "K5",
            Rule::S1 => "S1",
            Rule::S2 => "S2",
            Rule::S3 => "S3",
            Rule::S4 => "S4",
            Rule::S5 => "S5",
            Rule::S6 => "S6",
            Rule::S7 => "S7",
            Rule::S8 => "S8",
            Rule::S9 => "S9",
            Rule::S10 => "S10",
            Rule::S11 => "S11",
            Rule::P1 => "P1",
            Rule::P2 => "P2",
            Rule::O1 => "O1",
            Rule::O2 => "O2",
            Rule::O3 => "O3",
            Rule::O4 => "O4",
            Rule::O5 => "O5",
            Rule::O6 => "O6",
            Rule::M1 => "M1",
            Rule::N1 => "N1",
            Rule::N2 => "N2",
        }
    }
}
