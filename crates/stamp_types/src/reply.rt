//! Replies to requests.
ghost use Rattle.std.specs.Prelude.{◌≡◌, ◌↔◌, IfOk, IsTrue};
ghost use Rattle.stamp_types.specs.Replies as replies;

use crate::code::Code;
use crate::error_body::write_error;
use crate::header::Header;
use crate::refusal::Refusal;
use crate::rule::Rule;
use crate::status::Status;
use stamp_values::{Items, Share, Shares, Visible};
use std::alloc::{AllocError, Global};

/// A reply without what the clock and the connection add to it.
#[derive(Clone, PartialEq, Eq, Drop)]
pub struct Reply {
    pub status: Status,
    /// The error code, if the request was refused.
    pub code: Option<Code>,
    /// The rule that refused the request. A reply is a refusal if and only if it has a rule.
    pub rule: Option<Rule>,
    /// The headers, in the order in which they are written.
    pub headers: Items<Header>,
    /// The number of bytes that Content-Length says. The body may have another number of bytes: it
    /// is empty if it is left out for HEAD, or if it is fetched later.
    pub length: u64,
    pub body: Shares,
}

fn same_headers(headers: &[Header], others: &[Header]) -> bool
    ensures { IsTrue result ↔ (headers.now ≡ others.now) }
{
    headers == others
}

/// A reply that refuses nothing, with this text as its body. No byte of the text is copied.
///
/// `AllocError` if memory runs out for the owner of the text.
pub fn text_reply(alloc: Global, headers: Vec<Header>, text: Vec<u8>) -> Result<Reply, AllocError>
    ensures { IfOk result (λ reply. reply ≡ replies.text_reply headers.items text.items) }
{
    let length = text.len() as u64;
    let mut body = Shares::empty(alloc);
    body.push(Share::new(alloc, text)?)?;
    Ok(Reply {
        status: Status::Success,
        code: None,
        rule: None,
        headers: Items::new(headers),
        length,
        body,
    })
}

impl Reply {
    ghost use Rattle.stamp_types.specs.Replies.{denied};

    /// The reply to a request that is refused: its body is the error in XML (RFC 7303). A reply of
    /// 304 has no body.
    ///
    /// `AllocError` if memory runs out for the error.
    pub fn denied(alloc: Global, refusal: Refusal) -> Result<Self, AllocError>
        ensures { IfOk result (λ reply. reply ≡ denied refusal) }
    {
        let Refusal { rule, code } = refusal;
        let mut headers = Vec::new(alloc);
        let mut body = Shares::empty(alloc);
        if code.has_error_body() {
            headers.push(Header::ContentType(Visible::xml(alloc)?))?;
            body.push(Share::new(alloc, write_error(alloc, code, rule)?)?)?;
        }
        Ok(Self {
            status: code.status(),
            code: Some(code),
            rule: Some(rule),
            headers: Items::new(headers),
            length: body.len() as u64,
            body,
        })
    }

    /// Whether the replies are equal. The bodies are compared last, by their bytes: how a body is
    /// cut into shares makes no difference.
    pub fn same(&self, other: &Self) -> bool
        ensures { IsTrue result ↔ (self.now ≡ other.now) }
    {
        if self.status != other.status || self.code != other.code || self.rule != other.rule {
            return false;
        }
        if self.length != other.length {
            return false;
        }
        if !same_headers(self.headers.as_slice(), other.headers.as_slice()) {
            return false;
        }
        self.body.same(&other.body)
    }
}
