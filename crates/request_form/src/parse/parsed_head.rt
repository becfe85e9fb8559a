//! Request heads, cut into their parts.

use stamp_types::{Bytes, FieldList, Items};
use std::marker::Model;

/// The version of HTTP that a request line names (RFC 9112, section 2.3).
#[derive(Clone, Copy, PartialEq, Eq)]
pub enum Version {
    /// HTTP/1.0. The connection ends after the reply.
    Http10,
    /// HTTP/1.1.
    Http11,
}

/// A request head, cut into its parts. Its text lends the method and the target.
#[derive(Drop)]
pub struct ParsedHead<'a> {
    /// The method as it was sent.
    pub method: &'a [u8],
    /// The request target as it was sent (RFC 9112, section 3.2).
    pub target: &'a [u8],
    pub version: Version,
    /// All header lines but Authorization, in the order sent: names in lower case, values without spaces and tabs at their ends.
    pub fields: FieldList,
    /// The values of the Authorization headers, in the order sent.
    pub authorization: Items<Bytes>,
}

impl<'a> Model for ParsedHead<'a> {
    ghost use Rattle.request_form.specs.HeadParts.{HeadParts};

    ghost Value = { HeadParts };

    ghost view = { λ h. record {
      method = h.method.now;
      target = h.target.now;
      version = h.version;
      fields = h.fields;
      authorization = h.authorization;
    } };
}
