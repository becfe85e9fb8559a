//! Why a query is not a token.
use thiserror::Error;

/// Why a query is not a token. If there are several causes, the first of this list is named.
#[derive(Clone, Copy, Debug, PartialEq, Eq, Error)]
pub enum TokenFault {
    /// One of the seven parameters was sent more than once. Empty values count.
    #[error("a parameter of the token was sent more than once")]
    Twice,
    /// `sv`, `sr` or `sig` was not sent.
    #[error("the version, the resource or the signature of the token is missing")]
    Missing,
    /// `sv` is not a version that is served, for example because it is empty.
    #[error("the token has another version")]
    Version,
    /// `sr` is neither `b` nor `c`.
    #[error("the token is for another kind of resource")]
    Resource,
    /// `sp` is not empty, and is not a text of permissions.
    #[error("the permissions of the token are not letters in their order")]
    Letters,
    /// `st` or `se` is not empty, and is not a time.
    #[error("the start or the expiry of the token is not a time")]
    Time,
    /// A parameter that replaces a header of the reply has a byte that is not printable ASCII.
    #[error("a header that the token replaces has another byte than printable ASCII")]
    Header,
    /// Memory ran out. `read_token` takes no memory, and never answers this.
    #[error("out of memory")]
    NoMemory,
}
