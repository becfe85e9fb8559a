//! Laws of the texts of times. Each law is the contract of a function that does nothing.
ghost use Rattle.std.specs.Prelude.{◌≡◌, ◌≤◌, ℕ, Ok};
ghost use Rattle.moment_text.specs.Civil.{time_at};
ghost use Rattle.moment_text.specs.Iso.{to_fraction, iso_text};
ghost use Rattle.moment_text.specs.IsoReader.{iso_moment};

/// The text that `write_iso` writes for a moment is read by `read_iso` as this moment.
pub fn a_written_time_is_read_back()
    ensures { (moment : ℕ) → moment ≤ 2_534_023_007_999_999_999
        → iso_moment (iso_text (to_fraction 7) (time_at moment)) ≡ Ok moment }
{}
