//! Writes times as ISO 8601 does.
ghost use Rattle.std.specs.Prelude.{◌≡◌, ◌<◌, ◌++◌, codes, IfOk, OnOk, string_bytes};
ghost use Rattle.moment_text.specs.Civil.{time_at};
ghost use Rattle.moment_text.specs.Iso.{digits_of, day_text, second_text, to_fraction, iso_text, FitsDigits};

use crate::civil::{CivilTime, time_of};
use stamp_values::Moment;
use std::alloc::{AllocError, Global};

// Puts the four digits of a number at the end.
#[tactic(auto, using(crate::proofs::WriterLemmas::four_digits))]
fn append_four(text: &mut String, number: u32) -> Result<(), AllocError>
    requires { number < 10_000 }
    ensures { OnOk result (string_bytes text.new ≡ string_bytes text.old ++ digits_of 4 number) }
{
    write!(text, "{number:04}")?;
    Ok(())
}

// Puts a mark and the two digits of a number at the end.
#[tactic(auto, using(crate::proofs::WriterLemmas::two_digits))]
fn append_two(text: &mut String, mark: &str, number: u32) -> Result<(), AllocError>
    requires { number < 100 }
    ensures { OnOk result
        (string_bytes text.new ≡ string_bytes text.old ++ mark.now ++ digits_of 2 number) }
{
    text.push_str(mark)?;
    write!(text, "{number:02}")?;
    Ok(())
}

// Puts the point, the seven digits of a fraction and the Z at the end.
#[tactic(auto, using(crate::proofs::WriterLemmas::seven_digits))]
fn append_fraction(text: &mut String, fraction: u32) -> Result<(), AllocError>
    requires { fraction < 10_000_000 }
    ensures { OnOk result (string_bytes text.new
        ≡ string_bytes text.old ++ codes "." ++ digits_of 7 fraction ++ codes "Z") }
{
    text.push_str(".")?;
    write!(text, "{fraction:07}")?;
    text.push_str("Z")?;
    Ok(())
}

// Puts the day at the end.
fn append_day(text: &mut String, time: CivilTime) -> Result<(), AllocError>
    requires { FitsDigits time }
    ensures { OnOk result (string_bytes text.new ≡ string_bytes text.old ++ day_text time) }
{
    append_four(text, time.year)?;
    append_two(text, "-", time.month)?;
    append_two(text, "-", time.day)?;
    Ok(())
}

// Puts the T and the time of day at the end, without the fraction.
fn append_clock(text: &mut String, time: CivilTime) -> Result<(), AllocError>
    requires { FitsDigits time }
    ensures { OnOk result (string_bytes text.new
        ≡ string_bytes text.old ++ codes "T" ++ digits_of 2 time.hour ++ codes ":"
        ++ digits_of 2 time.minute ++ codes ":" ++ digits_of 2 time.second) }
{
    append_two(text, "T", time.hour)?;
    append_two(text, ":", time.minute)?;
    append_two(text, ":", time.second)?;
    Ok(())
}

// A time with seven decimals.
#[tactic(auto, using(crate::proofs::WriterLemmas::all_seven))]
fn time_text(alloc: Global, time: CivilTime) -> Result<String, AllocError>
    requires { FitsDigits time }
    ensures { IfOk result (λ text. string_bytes text ≡ iso_text (to_fraction 7) time) }
{
    let mut text = String::with_capacity(alloc, 28)?;
    append_day(&mut text, time)?;
    append_clock(&mut text, time)?;
    append_fraction(&mut text, time.fraction)?;
    Ok(text)
}

/// The time of a moment in UTC, always with seven decimals of the second, for example `2012-10-01T13:00:00.0000000Z`.
///
/// `AllocError` if memory runs out. ISO 8601:2004, sections 4.2.2, 4.2.4 and 4.3; W3C Note "Date and Time Formats".
pub fn write_iso(alloc: Global, moment: Moment) -> Result<String, AllocError>
    ensures { IfOk result (λ text.
        string_bytes text ≡ iso_text (to_fraction 7) (time_at moment)) }
{
    time_text(alloc, time_of(moment))
}
