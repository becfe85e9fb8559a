//! Where the connections come from that workers serve.

use crate::admission::Rooms;

/// Gives connections to any number of workers, and takes each one back: if it waits, or if it ended.
///
/// For [`work`](crate::work), `L` is a [`Link`](crate::Link), and `O` is the [`Over`](crate::Over) of the same parts. A link that comes
/// back can be gone on with, since its type says so. A link that ended comes back as an `Over`, and all that [`run`](crate::run) ensures
/// holds of it since it was made.
///
/// The parts of a connection need not be droppable. So a worker that knows the source only by this trait has to give back each
/// connection that it was given.
// `L` and `O` have no bounds. If the methods named `Link` and `Over`, an impl for all clocks and services would get no proof, since both
// types have a model, and `Clock` and `Service` have ghost members.
pub trait Source<L, O> {
    /// The next connection that has something to do, and how many bytes of a body may have come when it waits. `None` if no more
    /// connections come: each worker that asks then ends.
    fn next(&self) -> Option<(L, Rooms)>;

    /// Takes back a connection that was gone on with, and waits.
    fn waits(&self, link: L);

    /// Takes back a connection that ended.
    fn ended(&self, over: O);
}
