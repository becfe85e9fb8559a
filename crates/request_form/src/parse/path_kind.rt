//! What a path names.

/// What a path names, by how many parts it has. Whether the parts are good names is another question.
#[derive(Clone, Copy, PartialEq, Eq)]
pub enum PathKind {
    /// Nothing: the path has no account.
    Root,
    /// An account.
    Account,
    /// A container of an account.
    Container,
    /// A blob in a container.
    Blob,
}
