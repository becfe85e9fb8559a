//! Which bodies have room together, which operations bring content, and which make long texts.
ghost use Rattle.std.specs.Prelude.{◌≡◌, ◌↔◌, IsSome, IsTrue};
ghost use Rattle.stamp_types.specs.declared.ask.Ask.{Ask};
ghost use Rattle.http_front.specs.Admissions as admissions;

use stamp_types::Op;

/// Whether the route of a request may admit its body, as far as its head was judged.
#[derive(Clone, Copy, PartialEq, Eq)]
pub enum Admission {
    /// Its head was not judged.
    Unjudged,
    /// It may.
    Admitted,
    /// It may not, or memory ran out for the judgement.
    Stranger,
}

impl Admission {
    /// Whether the route may admit the body, as far as that was judged.
    pub(crate) fn is_admitted(self) -> bool
        ensures { (ask : Ask) → IsTrue result ↔ IsSome (admissions.admitted_by self ask) }
    {
        match self {
            Admission::Unjudged => false,
            Admission::Admitted => true,
            Admission::Stranger => false,
        }
    }
}

/// How many bytes of an unfinished body may have come when its connection waits, and whether a long reply may be made.
#[derive(Clone, Copy)]
pub struct Rooms {
    /// Of a body that the route of its request may admit.
    pub admitted: usize,
    /// Of any other body.
    pub others: usize,
    /// Whether there is room for a reply that may be long. If not, its request waits.
    pub replies: bool,
}

impl Rooms {
    /// The room of a body.
    pub(crate) fn of(&self, admission: Admission) -> usize
        ensures { result ≡ admissions.room_of admission self.now }
    {
        match admission {
            Admission::Unjudged => self.others,
            Admission::Admitted => self.admitted,
            Admission::Stranger => self.others,
        }
    }
}

/// Whether the operation brings content that is kept: bytes, metadata, policies, or the name of a new container.
pub fn brings_content(op: Op) -> bool
    ensures { result ≡ admissions.brings_content op }
{
    matches!(
        op,
        Op::CreateContainer
            | Op::SetContainerMetadata
            | Op::SetAcl
            | Op::PutBlob
            | Op::SetMetadata
            | Op::PutBlock
            | Op::PutBlockList
    )
}

/// Whether the operation is answered by a text that may be long: a list of blobs, of containers or of blocks. Other long replies share the
/// content that is kept, and take no memory of their own.
pub fn makes_text(op: Op) -> bool
    ensures { result ≡ admissions.makes_text op }
{
    matches!(op, Op::ListContainers | Op::ListBlobs | Op::GetBlockList)
}
