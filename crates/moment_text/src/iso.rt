//! Reads times as ISO 8601 writes them.
ghost use Rattle.std.specs.Prelude.{◌↔◌, ◌≡◌, ◌≢◌, ◌≤◌, ◌<◌, IfOk, IfSome, IsTrue, IsFalse, length};
ghost use Rattle.moment_text.specs.declared.civil.CivilTime.{CivilTime as Time};
ghost use Rattle.moment_text.specs.Iso.{Shape, IsIsoText, is_in_range, ticks_of};
ghost use Rattle.moment_text.specs.IsoReader.{date_at, fraction_at, optional_fraction, with_second, with_clock, iso_time, iso_moment};

use crate::civil::{CivilTime, moment_of};
use crate::digits::{number, seven_digits};
use crate::fault::TimeFault;
use stamp_values::Moment;

// The start of the day that the text begins with.
#[tactic(auto, unfolding(crate::specs::IsoReader::date_at))]
fn date(text: &[u8]) -> Option<CivilTime>
    requires { 10 ≤ length text.now }
    ensures value { result ≡ date_at text.now }
    ensures bound { IfSome result (λ time. time.fraction < 10_000_000) }
{
    let year = number(&text[0..4])?;
    if text[4] != b'-' {
        return None;
    }
    let month = number(&text[5..7])?;
    if text[7] != b'-' {
        return None;
    }
    let day = number(&text[8..10])?;
    Some(CivilTime {
        year,
        month,
        day,
        hour: 0,
        minute: 0,
        second: 0,
        fraction: 0,
    })
}

// The fraction between the point and the last byte. It has at least one byte, since the text is long enough. `None` if it has
// more than seven bytes, or a byte that is not a digit.
#[tactic(auto, unfolding(crate::specs::IsoReader::fraction_at))]
fn fraction(text: &[u8]) -> Option<u32>
    requires { 22 ≤ length text.now }
    ensures value { result ≡ fraction_at text.now }
    ensures bound { IfSome result (λ n. n < 10_000_000) }
{
    if text.len() > 28 {
        return None;
    }
    number(&seven_digits(&text[20..text.len() - 1]))
}

#[tactic(auto, unfolding(crate::specs::IsoReader::optional_fraction))]
fn fraction_if_any(text: &[u8]) -> Option<u32>
    requires { 20 ≤ length text.now }
    ensures value { result ≡ optional_fraction text.now }
    ensures bound { IfSome result (λ n. n < 10_000_000) }
{
    if text.len() == 20 {
        return Some(0);
    }
    if text.len() < 22 || text[19] != b'.' {
        return None;
    }
    fraction(text)
}

#[tactic(auto, unfolding(crate::specs::IsoReader::with_second))]
fn add_second(text: &[u8], time: CivilTime) -> Option<CivilTime>
    requires { 20 ≤ length text.now }
    ensures value { result ≡ with_second text.now time }
    ensures bound { IfSome result (λ time. time.fraction < 10_000_000) }
{
    if text[16] != b':' {
        return None;
    }
    let second = number(&text[17..19])?;
    let fraction = fraction_if_any(text)?;
    if text[text.len() - 1] != b'Z' {
        return None;
    }
    Some(CivilTime {
        second,
        fraction,
        ..time
    })
}

#[tactic(auto, unfolding(crate::specs::IsoReader::with_clock))]
fn add_clock(text: &[u8], time: CivilTime) -> Option<CivilTime>
    requires long { 17 ≤ length text.now }
    requires fraction { time.fraction < 10_000_000 }
    ensures value { result ≡ with_clock text.now time }
    ensures bound { IfSome result (λ time. time.fraction < 10_000_000) }
{
    if text[10] != b'T' {
        return None;
    }
    let hour = number(&text[11..13])?;
    if text[13] != b':' {
        return None;
    }
    let minute = number(&text[14..16])?;
    let time = CivilTime {
        hour,
        minute,
        ..time
    };
    if text.len() == 17 {
        return if text[16] == b'Z' { Some(time) } else { None };
    }
    if text.len() < 20 {
        return None;
    }
    add_second(text, time)
}

// The numbers that a text of one of the four shapes writes.
#[tactic(auto, unfolding(crate::specs::IsoReader::iso_time))]
fn civil_time(text: &[u8]) -> Option<CivilTime>
    ensures value { result ≡ iso_time text.now }
    ensures bound { IfSome result (λ time. time.fraction < 10_000_000) }
{
    if text.len() == 10 {
        return date(text);
    }
    if text.len() < 17 {
        return None;
    }
    add_clock(text, date(text)?)
}

/// Reads a day or a time in UTC in one of four shapes: `2012-10-01`, which is the start of the day, `2012-10-01T12:00Z`,
/// `2012-10-01T12:00:00Z`, and `2012-10-01T12:00:00.0000001Z` with one to seven decimals.
///
/// `Form` if the text does not have one of these shapes; the shape is tried first. `Range` if the text has one of the shapes,
/// but the day or the time does not exist (for example month 13, 30 February, hour 24 or second 60), or the year is outside
/// 1970 to 9999. The function takes no memory, so it never answers `NoMemory`. ISO 8601:2004, sections 4.1.2.2, 4.2.2, 4.2.4 and 4.3;
/// W3C Note "Date and Time Formats". The shapes are a choice of our own: docs/DECISIONS.md, "The calendar comes from a
/// library, the shapes do not".
pub fn read_iso(text: &[u8]) -> Result<Moment, TimeFault>
    ensures read { IfOk result (λ moment. (shape : Shape) × (time : Time)
        × IsIsoText text.now shape time × IsTrue (is_in_range time) × (moment ≡ ticks_of time)) }
    ensures complete { (shape : Shape) (time : Time) → IsIsoText text.now shape time
        → IsTrue (is_in_range time) → result ≡ Ok (ticks_of time) }
    ensures form { (result ≡ Err TimeFault.Form)
        ↔ ((shape : Shape) (time : Time) → ¬ IsIsoText text.now shape time) }
    ensures range { (result ≡ Err TimeFault.Range)
        ↔ ((shape : Shape) × (time : Time)
        × IsIsoText text.now shape time × IsFalse (is_in_range time)) }
    ensures no_memory { result ≢ Err TimeFault.NoMemory }
    // the same as one function, for definitions of crates above
    ensures value { result ≡ iso_moment text.now }
{
    let Some(time) = civil_time(text) else {
        return Err(TimeFault::Form);
    };
    moment_of(time).ok_or(TimeFault::Range)
}
