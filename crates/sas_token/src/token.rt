//! Shared access signatures as they were sent.

use stamp_values::{Letters, Moment};
use std::marker::Model;

/// What a token is for.
#[derive(Clone, Copy, Debug, PartialEq, Eq)]
pub enum Resource {
    /// All blobs of a container (`sr=c`).
    Container,
    /// One blob (`sr=b`).
    Blob,
}

/// The headers of the reply that a token replaces (`rscc`, `rscd`, `rsce`, `rscl`, `rsct`), decoded. An empty text replaces nothing, and
/// a token of the first version replaces nothing.
#[derive(Drop)]
pub struct Overrides<'a> {
    pub cache_control: &'a [u8],
    pub disposition: &'a [u8],
    pub encoding: &'a [u8],
    pub language: &'a [u8],
    pub content_type: &'a [u8],
}

impl<'a> Model for Overrides<'a> {
    ghost use Rattle.sas_token.specs.Tokens.{Overridden};

    ghost Value = { Overridden };

    ghost view = { λ o. record {
      cache_control = o.cache_control.now;
      disposition = o.disposition.now;
      encoding = o.encoding.now;
      language = o.language.now;
      content_type = o.content_type.now;
    } };
}

/// A shared access signature: its parameters as they were sent, decoded, and what they say. A parameter that was not sent is an
/// empty text. Blob service REST reference, 2012-02-12, Delegating Access with a Shared Access Signature.
#[derive(Drop)]
pub struct Token<'a> {
    /// `sv`
    pub version: &'a [u8],
    /// `sr`
    pub resource: Resource,
    /// `sp`
    pub permissions: &'a [u8],
    /// `st`
    pub start_text: &'a [u8],
    /// `se`
    pub expiry_text: &'a [u8],
    /// `si`
    pub id: &'a [u8],
    /// `sig`
    pub signature: &'a [u8],
    /// What `sp` permits. `None` if it is empty.
    pub letters: Option<Letters>,
    /// The moment that `st` names. `None` if it is empty.
    pub start: Option<Moment>,
    /// The moment that `se` names. `None` if it is empty.
    pub expiry: Option<Moment>,
    /// The headers of the reply that the token replaces.
    pub overrides: Overrides<'a>,
}

impl<'a> Model for Token<'a> {
    ghost use Rattle.sas_token.specs.Tokens.{Sent};

    ghost Value = { Sent };

    ghost view = { λ t. record {
      version = t.version.now;
      resource = t.resource;
      permissions = t.permissions.now;
      start_text = t.start_text.now;
      expiry_text = t.expiry_text.now;
      id = t.id.now;
      signature = t.signature.now;
      letters = t.letters;
      start = t.start;
      expiry = t.expiry;
      overrides = t.overrides;
    } };
}
