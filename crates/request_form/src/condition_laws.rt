//! The law of conditions. It is the contract of a function that does nothing.
ghost use Rattle.std.specs.Prelude.{◌≡◌, ◌<◌, ◌^◌, ℕ, List};
ghost use Rattle.stamp_values.specs.Etags.{etag_text};
ghost use Rattle.stamp_values.specs.declared.condition.Condition.TheVariants.{Count};
ghost use Rattle.request_form.specs.HeadConditions.{condition_named};

/// A condition asks for a count if and only if it is, byte for byte, the ETag that the stamp writes for this count.
pub fn a_condition_names_one_etag()
    ensures etag { (count : ℕ) → count < 2 ^ 64 → condition_named (etag_text count) ≡ Count count }
    ensures count { (value : List ℕ) (count : ℕ) →
        condition_named value ≡ Count count → (value ≡ etag_text count) × (count < 2 ^ 64) }
{}
