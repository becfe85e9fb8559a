//! Verdicts: a request is allowed by its route, or denied by a rule; and which key gives a signature.

use stamp_types::{Moment, Rule};

/// The route by which a request was allowed. It is the route of its credential.
#[derive(Clone, Copy, PartialEq, Eq)]
pub enum Way {
    /// By an account's key (Authorization: SharedKey).
    Shared,
    /// By a shared access signature.
    Token,
    /// By public access, with no credential.
    Anonymous,
}

/// The key of a pair that gives a signature. If both keys give it, the first key is named.
#[derive(Clone, Copy, Debug, PartialEq, Eq)]
pub enum SignedBy {
    First,
    Second,
    /// The signature is false, or there is no signature.
    Neither,
}

/// The outcome of the rules K1 to K3 for a request. These rules need no moment.
#[derive(Clone, Copy)]
pub enum Dated {
    /// The first of the three rules that holds.
    Refused(Rule),
    /// The three rules do not hold. The date of the request names this moment; `None` if the request does not ask by a key.
    Open(Option<Moment>),
}

/// The part that the keys and the request alone decide: neither the container nor the moment matters to it. So it can be asked for before a lock is
/// taken.
#[derive(Clone, Copy)]
pub struct EarlyJudgement {
    pub dated: Dated,
    /// Whether the signature is false: K5 or S4 by itself.
    pub is_false: bool,
}

/// Whether a request may be served.
#[derive(Clone, Copy, PartialEq, Eq)]
pub enum Verdict {
    /// It may be served, by this route.
    Allow(Way),
    /// This rule refuses it.
    Deny(Rule),
}
