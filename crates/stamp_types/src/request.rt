//! Requests that fit their operation.
ghost use Rattle.std.specs.Prelude.{◌≡◌, ◌↔◌, ◌≤◌, [], IfOk, IsErr, IsSome, IfSome, IsTrue, length};
ghost use Rattle.std.specs.Arc.{arc_value};
ghost use Rattle.std.specs.Cmp.{partial_equiv_from_equiv, and_equiv, on_equiv};
ghost use Rattle.std.specs.Cmp.Lexicographic.{nat_list_eq_equiv};
ghost use Rattle.stamp_values.specs.Operations.{body_limit};
ghost use Rattle.stamp_types.specs.Requests.{asked, IsAsk, IsRequest};

use crate::ask::Ask;
use crate::fits::is_ask;
use stamp_values::Body;
use std::alloc::{AllocError, Global};
use std::marker::Model;
use std::sync::Arc;

/// A request whose path, arguments and body fit its operation, seen as what it asks and the body's
/// bytes.
///
/// A clone shares both, and copies neither.
#[derive(Clone, Drop)]
pub struct Request {
    ask: Arc<Ask>,
    body: Body,
}

impl Model for Request {
    ghost use Rattle.std.specs.Arc.{arc_value};
    ghost use Rattle.stamp_types.specs.Requests.{Asked, asked, IsRequest};

    ghost Value = { Asked };

    ghost view = { λ r. asked (arc_value r.ask) r.body };

    ghost invariant = { λ r. IsRequest (asked (arc_value r.ask) r.body) };
}

// Whether all parts of the request fit its operation.
fn fits(ask: &Ask, body: &Body) -> bool
    ensures { IsTrue result ↔ IsRequest (asked ask.now body.now) }
{
    is_ask(ask) && body.len() as u64 <= ask.op.body_limit()
}

impl Request {
    /// The request, or `None` if its parts don't fit its operation. What is signed and the
    /// credential may be any. A request that doesn't fit takes no memory.
    ///
    /// `AllocError` if memory runs out for the allocation that shares `ask`. Then `ask` and `body`
    /// are dropped.
    pub fn new(alloc: Global, ask: Ask, body: Body) -> Result<Option<Self>, AllocError>
        ensures valid { IfOk result (λ o. IsSome o ↔ IsRequest (asked ask body)) }
        ensures value { IfOk result (λ o. IfSome o (λ q. q ≡ asked ask body)) }
        ensures refused { IsErr result → IsRequest (asked ask body) }
    {
        if !fits(&ask, &body) {
            drop(body);
            drop(ask);
            return Ok(None);
        }
        let ask = Arc::new(alloc, ask)?;
        Ok(Some(Self { ask, body }))
    }

    /// The request of parts that are known to fit its operation. It takes over the share of `ask`, so it copies nothing and takes no memory.
    pub fn fitting(ask: Arc<Ask>, body: Body) -> Self
        requires { IsRequest (asked (arc_value ask) body) }
        ensures { result ≡ asked (arc_value ask) body }
    {
        Self { ask, body }
    }

    /// All parts except the body.
    pub fn ask(&self) -> &Ask
        ensures value { result.now ≡ self.now.ask }
        ensures fits { IsRequest self.now }
    {
        let _body = &self.body;
        &self.ask
    }

    /// The body, with its MD5.
    pub fn body(&self) -> &Body
        ensures value { result.now ≡ self.now.body }
        ensures fits { length self.now.body ≤ body_limit self.now.ask.op }
    {
        let _ask = &self.ask;
        &self.body
    }

    /// The same request with an empty body. Copies nothing.
    ///
    /// `AllocError` if what the request asks can have no further owner.
    pub fn without_body(&self) -> Result<Self, AllocError>
        ensures { IfOk result (λ q. q ≡ record self.now { body = [] }) }
    {
        Ok(Self {
            ask: self.ask.clone()?,
            body: Body::empty(),
        })
    }

    /// Whether the requests are equal, with their bodies. Reads no body if the MD5s of the bodies
    /// differ.
    pub fn same(&self, other: &Self) -> bool
        ensures { IsTrue result ↔ (self.now ≡ other.now) }
    {
        self.same_ask(other) && self.body.same(&other.body)
    }

    /// Whether the requests are equal in all parts except the body.
    pub fn same_ask(&self, other: &Self) -> bool
        ensures { IsTrue result ↔ (self.now.ask ≡ other.now.ask) }
    {
        self.ask.same(&other.ask)
    }
}

impl PartialEq for Request {
    ghost use Rattle.stamp_types.specs.SameRequests.{requests_equal};
    ghost use Rattle.stamp_types.specs.contracts.ask.AskEq.TheImpl.Laws.{laws-law};

    ghost eq = { requests_equal };

    ghost laws = { partial_equiv_from_equiv
        (and_equiv (on_equiv (λ q. q.ask) laws-law) (on_equiv (λ q. q.body) nat_list_eq_equiv)) };

    fn eq(&self, other: &Self) -> bool {
        *self.ask == *other.ask && self.body == other.body
    }
}

impl Eq for Request {
    ghost use Rattle.stamp_types.specs.contracts.ask.AskEq.TheImpl.Laws.{laws-law};

    ghost laws = { and_equiv (on_equiv (λ q. q.ask) laws-law)
        (on_equiv (λ q. q.body) nat_list_eq_equiv) };
}
