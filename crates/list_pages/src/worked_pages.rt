//! Worked pages, which the checker computes.
ghost use Rattle.std.specs.Prelude.{◌≡◌, [], ◌∷◌, None, Some, codes};
ghost use Rattle.list_pages.specs.WorkedPages.{own_account, page_before, page_from};

/// The pages of docs/formats/lists.md, and a bound of another account, which is not told.
pub fn worked_pages_are_as_written()
    ensures whole { page_from [] 5000 ≡ record {
      entries = (codes "a.txt", Some 1) ∷ (codes "d/", None) ∷ [];
      next = None;
    } }
    ensures first { page_from [] 1 ≡ record {
      entries = (codes "a.txt", Some 1) ∷ [];
      next = Some (codes "d/");
    } }
    ensures second { page_from (codes "d/") 1 ≡ record {
      entries = (codes "d/", None) ∷ [];
      next = None;
    } }
    ensures past_the_group { page_from (codes "d/1") 5000 ≡ record { entries = []; next = None } }
    ensures bound { page_before (record { account = own_account; container = codes "m" }) ≡ record {
      entries = (codes "alpha", Some 1) ∷ [];
      next = Some (codes "m");
    } }
    ensures other_bound { page_before (record { account = codes "other"; container = codes "m" }) ≡ record {
      entries = (codes "alpha", Some 1) ∷ [];
      next = None;
    } }
{}
