//! What a request asks.

use crate::args::Args;
use stamp_values::{Credential, Key, Op, Signing, Text};

/// A request without its body. What it signs and the credential need not fit the other parts: that
/// is judged when the request is authorized.
#[derive(PartialEq, Eq, Drop)]
pub struct Ask {
    pub op: Op,
    pub key: Key,
    pub blob: Option<Text>,
    pub args: Args,
    pub signing: Signing,
    pub credential: Credential,
}
