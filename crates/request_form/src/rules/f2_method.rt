//! Rule F2: the method.
ghost use Rattle.std.specs.Prelude.{◌≡◌, IfOk};
ghost use Rattle.request_form.specs.HeadRules as heads;

use http::Method;
use http::method::MethodError;
use stamp_types::Verb;
use std::alloc::{AllocError, Global};

// The method, if it is one that the stamp serves (RFC 9110, section 9.3).
#[tactic(auto, unfolding(crate::specs::HeadRules::verb_of))]
fn served(method: &Method) -> Option<Verb>
    ensures { result ≡ heads.verb_of method.now }
{
    let name = method.as_str();
    if name == "GET" {
        Some(Verb::Get)
    } else if name == "HEAD" {
        Some(Verb::Head)
    } else if name == "PUT" {
        Some(Verb::Put)
    } else if name == "DELETE" {
        Some(Verb::Delete)
    } else {
        None
    }
}

/// The method, if it is one that the stamp serves. Bytes that are not a token are not a method (RFC 9110, section 9.1).
///
/// `AllocError` if memory runs out. Memory is taken for a method of more than 15 bytes only.
#[tactic(auto, using(crate::proofs::VerbLemmas::verb_of_other))]
pub(crate) fn verb(alloc: Global, method: &[u8]) -> Result<Option<Verb>, AllocError>
    ensures { IfOk result (λ verb. verb ≡ heads.verb_of method.now) }
{
    match Method::from_bytes(alloc, method) {
        Ok(method) => Ok(served(&method)),
        Err(MethodError::Invalid) => Ok(None),
        Err(MethodError::OutOfMemory) => Err(AllocError),
    }
}
