//! The rules of the object over the rows of a partition.
ghost use Rattle.std.specs.Prelude.{◌≡◌, IfOk, IsErr};
ghost use Rattle.stamp_values.specs.declared.op.Op.TheVariants as op;
ghost use Rattle.range_rows.specs.ObjectRules.{object_refusal, sizes_named};
ghost use Rattle.range_rows.specs.Readings.{reading_of};

use crate::reading::Reading;
use crate::target::Target;
use row_trees::Rows;
use stamp_types::{Refusal, Request};
use std::alloc::{AllocError, Global};

/// The rules of the object, as a call of rows.
pub trait ObjectRules {
    ghost use Rattle.std.specs.Prelude.{List};
    ghost use Rattle.stamp_types.specs.declared.piece.Piece.{Piece};
    ghost use Rattle.stamp_types.specs.World.{World};

    /// The containers that are looked at.
    ghost world: { Self → World (List Piece) };

    /// The refusal of a request by the object, if the object refuses it: the rule and the code of
    /// the first cause, in the order of the rules. `reading` is what the request's body says. Reads
    /// no byte of that body.
    ///
    /// `AllocError` if memory runs out for the look-ups of a Put Block List. No other operation
    /// takes memory.
    fn object_rule(
        &self,
        alloc: Global,
        request: &Request,
        reading: &Reading,
    ) -> Result<Option<Refusal>, AllocError>
        requires { reading.now ≡ reading_of request.now }
        ensures rule { IfOk result (λ refusal.
            refusal ≡ object_refusal (sizes_named (world self.now) request.now) request.now) }
        ensures memory { IsErr result → request.now.ask.op ≡ op.PutBlockList };
}

impl ObjectRules for Rows {
    ghost world = { λ rows. rows };

    fn object_rule(
        &self,
        alloc: Global,
        request: &Request,
        reading: &Reading,
    ) -> Result<Option<Refusal>, AllocError> {
        let ask = request.ask();
        let target = Target::of(self.find(&ask.key), ask);
        let judged = target.judge(alloc, request, reading)?;
        Ok(judged.refusal())
    }
}
