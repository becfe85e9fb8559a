//! Laws of heads. Each is the contract of a function that does nothing.
ghost use Rattle.std.specs.Prelude.{◌≡◌, ◌⊎◌, ℕ, List};
ghost use Rattle.stamp_values.specs.declared.signing.Field.{Field};
ghost use Rattle.request_form.specs.HeadForms.{Form};
ghost use Rattle.request_form.specs.HeadMetadata.{AreByName, in_name_order, meta_fields};
ghost use Rattle.request_form.specs.Heads.{Accepts, Refuses};
ghost use Rattle.request_form.specs.declared.denial.Denial.{Denial};

/// Bytes are a head that asks for one thing, a head that is refused in one way, or not a head.
pub fn a_head_is_read_in_one_way()
    ensures form { (text : List ℕ) (a b : Form) → Accepts text a → Accepts text b → a ≡ b }
    ensures either { (text : List ℕ) (a : Form) (d : Denial) → Accepts text a → Refuses text d → ⊥ }
    ensures denial { (text : List ℕ) (d e : Denial) → Refuses text d → Refuses text e → d ≡ e }
{}

/// Each text, whatever bytes it has, is a head that asks for something, or is refused.
pub fn each_head_is_accepted_or_refused()
    ensures { (text : List ℕ) →
        ((form : Form) × Accepts text form) ⊎ ((denial : Denial) × Refuses text denial) }
{}

/// Metadata have all headers of metadata that were sent, each once, in the order of the bytes of their names. If a name was sent
/// twice, what was sent first comes first.
pub fn metadata_are_in_the_order_of_their_names()
    ensures { (fields : List Field) → AreByName (meta_fields fields) (in_name_order (meta_fields fields)) }
{}
