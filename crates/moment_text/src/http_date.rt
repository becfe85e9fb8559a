//! Reads and writes the dates of HTTP.
ghost use Rattle.std.specs.Prelude.{◌≡◌, ◌↔◌, ◌*◌, ◌/◌, IfOk, Ok};
ghost use Rattle.httpdate.specs.declared.parts.Parts.{Parts};
ghost use Rattle.moment_text.specs.declared.fault.TimeFault.{TimeFault as Fault};
ghost use Rattle.moment_text.specs.Http.{IsHttpText, http_ticks, http_moment, http_text};

use crate::fault::TimeFault;
use httpdate::HttpDate;
use stamp_values::Moment;

/// Reads a date of HTTP in any of its three formats.
///
/// `Form` for each other text, and for a date with a weekday that is not the weekday of this date. No other fault is answered. The
/// call takes no memory. RFC 9110, section 5.6.7.
pub fn read_http(text: &[u8]) -> Result<Moment, TimeFault>
    ensures read { IfOk result (λ moment.
        (p : Parts) × IsHttpText text.now p × (moment ≡ http_ticks p)) }
    ensures complete { (p : Parts) → IsHttpText text.now p → result ≡ Ok (http_ticks p) }
    ensures form { (result ≡ Err TimeFault.Form) ↔ ((p : Parts) → ¬ IsHttpText text.now p) }
    ensures no_other { (fault : Fault) → result ≡ Err fault → fault ≡ TimeFault.Form }
    // the same as one function, for definitions of crates above
    ensures value { result ≡ http_moment text.now }
{
    let Ok(date) = HttpDate::parse_ascii(text) else {
        return Err(TimeFault::Form);
    };
    Moment::new((date.unix_secs() * 10_000_000) as i64).ok_or(TimeFault::Form)
}

/// The date of the second in which a moment lies, as an IMF-fixdate. The call takes no memory. RFC 9110, section 5.6.7.
pub fn write_http(moment: Moment) -> [u8; 29]
    ensures text { result ≡ http_text moment }
    ensures read_back { http_moment result ≡ Ok (moment / 10_000_000 * 10_000_000) }
{
    let Ok(date) = HttpDate::from_unix_secs(moment.ticks() / 10_000_000) else {
        unreachable!("each moment lies on a day of the calendar")
    };
    date.to_bytes()
}
