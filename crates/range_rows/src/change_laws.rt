//! A law of changes. It is the contract of a function that does nothing.
ghost use Rattle.std.specs.Prelude.{◌≡◌, ℕ, IfSome, IsTrue, None};
ghost use Rattle.stamp_types.specs.Requests.{Asked};
ghost use Rattle.stamp_types.specs.World.{Part};
ghost use Rattle.row_trees.specs.Fits.{fits};
ghost use Rattle.range_rows.specs.ObjectRules.{object_refusal};
ghost use Rattle.range_rows.specs.RequestChanges.{change_of};

/// If no rule of the object refuses a request, the change that the request makes fits the container
/// that it names, if it makes a change.
pub fn a_change_that_no_rule_refuses_fits()
    ensures { (p : Part ℕ) (q : Asked) (t : ℕ) → object_refusal p q ≡ None
        → IfSome (change_of p q t) (λ c. IsTrue (fits p c.act)) }
{}
