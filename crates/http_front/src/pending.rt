//! A reply of which a part is left to write.
ghost use Rattle.std.specs.Prelude.{◌≡◌, ◌≢◌, ◌+◌, ◌^◌, ◌<◌, ◌≤◌, true, false, [], ◌++◌, Ok, IfOk, OnErr, IsOkUnless, length, drop};
ghost use Rattle.std.specs.List.{concat};
ghost use Rattle.http_front.specs.Connections.{LeavesWriter, Sends, SendsFront};
ghost use Rattle.http_front.specs.declared.counted.Output.{Output};
ghost use Rattle.http_front.specs.declared.end.FrontFault.{FrontFault};

use crate::counted::CountedWriter;
use crate::end::FrontFault;
use crate::outgoing::Outgoing;
use stamp_types::{Share, Shares};
use std::marker::Model;

/// What is left to write of a reply: of its head, and then of its body. Contracts see it as the list of these bytes.
///
/// No byte is copied and none is moved: only two counts advance.
#[derive(Drop)]
pub(crate) struct Pending {
    head: Vec<u8>,
    head_taken: usize,
    body: Shares,
    body_taken: usize,
}

impl Model for Pending {
    ghost use Rattle.std.specs.Prelude.{List, ℕ, ◌≤◌, ◌++◌, length, drop};

    ghost Value = { List ℕ };

    ghost view = { λ p. drop p.head_taken p.head.items ++ drop p.body_taken p.body };

    ghost invariant = { λ p. (p.head_taken ≤ length p.head.items) × (p.body_taken ≤ length p.body) };
}

// Writes the shares of a body on, of which so many bytes were taken, until all are taken or until the writer takes nothing now. Returns
// how many bytes of the body were taken in all. No share is copied.
fn send_shares<W: Outgoing>(
    writer: &mut CountedWriter<W>,
    shares: &[Share],
    taken: usize,
) -> Result<usize, FrontFault>
    requires open { writer.old.output ≢ Output.Failed }
    requires within { taken ≤ length (concat shares.now) }
    requires size { length (concat shares.now) < 2 ^ 64 }
    ensures most { IfOk result (λ n. n ≤ length (concat shares.now)) }
    ensures sent { IfOk result (λ n. SendsFront writer.old writer.new
        (drop taken (concat shares.now)) (drop n (concat shares.now))) }
    ensures waits { IfOk result (λ n. n < length (concat shares.now) → writer.new.told.waits ≡ true) }
    ensures cut { OnErr result (Sends writer.old writer.new (drop taken (concat shares.now))) }
    ensures left { LeavesWriter result writer.new }
    ensures fault { IsOkUnless result FrontFault.Write }
{
    let mut skip = taken;
    let mut all = taken;
    for share in shares {
        let start = skip.min(share.len());
        let part = &share.as_slice()[start..];
        let count = writer.send_on(part)?;
        all += count;
        if count < part.len() {
            return Ok(all);
        }
        skip -= start;
    }
    Ok(all)
}

impl Pending {
    /// A reply of which no byte was taken.
    pub(crate) fn new(head: Vec<u8>, body: Shares) -> Self
        ensures { result ≡ head.items ++ body }
    {
        Self {
            head,
            head_taken: 0,
            body,
            body_taken: 0,
        }
    }

    /// How many bytes its body has. They are held until all is taken.
    pub(crate) fn body_len(&self) -> usize {
        self.body.len()
    }

    /// Writes on until all is taken, or until the writer takes nothing now. Returns whether all is taken.
    pub(crate) fn send_on<W: Outgoing>(
        &mut self,
        writer: &mut CountedWriter<W>,
    ) -> Result<bool, FrontFault>
        requires { writer.old.output ≢ Output.Failed }
        ensures sent { IfOk result (λ _. SendsFront writer.old writer.new self.old self.new) }
        ensures whole { result ≡ Ok true → self.new ≡ [] }
        ensures waits { result ≡ Ok false → (self.new ≢ []) × (writer.new.told.waits ≡ true) }
        ensures cut { OnErr result (Sends writer.old writer.new self.old) }
        ensures left { LeavesWriter result writer.new }
        ensures fault { IsOkUnless result FrontFault.Write }
    {
        let rest = &self.head[self.head_taken..];
        let missing = rest.len();
        let count = writer.send_on(rest)?;
        self.head_taken += count;
        if count < missing {
            return Ok(false);
        }
        let len = self.body.len();
        let taken = send_shares(writer, self.body.as_slice(), self.body_taken)?;
        self.body_taken = taken;
        if taken < len {
            return Ok(false);
        }
        Ok(true)
    }
}
