//! Rule F8: the body is longer than the operation takes.
ghost use Rattle.std.specs.Prelude.{◌≡◌, nat_lt};
ghost use Rattle.stamp_values.specs.Operations.{body_limit};

use stamp_types::Op;

/// Whether the body is longer than the operation takes.
pub(crate) fn is_too_long(op: Op, body_len: u64) -> bool
    ensures { result ≡ nat_lt (body_limit op) body_len }
{
    op.body_limit() < body_len
}
