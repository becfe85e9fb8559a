//! Days and times of day in UTC, and their moments.
ghost use Rattle.std.specs.Prelude.{◌↔◌, IsSome, IfSome, ◌≡◌, ◌<◌, Some, None, if◌then◌else◌};
ghost use Rattle.httpdate.specs.Calendar.{IsCivilDate, days_from_civil};
ghost use Rattle.moment_text.specs.Civil.{time_at};
ghost use Rattle.moment_text.specs.Iso.{FitsDigits, is_in_range, ticks_of};

use jiff::civil::Date;
use jiff_core::civil::Date as CivilDate;
use stamp_values::Moment;

/// The numbers of a day and of a time of day, whether or not that day and that time exist.
///
/// The fraction of the second counts steps of 100 ns.
#[derive(Clone, Copy)]
pub(crate) struct CivilTime {
    pub(crate) year: u32,
    pub(crate) month: u32,
    pub(crate) day: u32,
    pub(crate) hour: u32,
    pub(crate) minute: u32,
    pub(crate) second: u32,
    pub(crate) fraction: u32,
}

// How many days there are from the start of 1970 to the start of the day. `None` if the calendar does not have the day, or if
// its year is outside 1970 to 9999.
fn day_number(year: u32, month: u32, day: u32) -> Option<u64>
    ensures valid { IsSome result ↔ IsCivilDate year month day }
    ensures value { IfSome result (λ n. n ≡ days_from_civil year month day) }
    ensures bound { IfSome result (λ n. n < 2_932_897) }
{
    if year < 1970 || year > 9999 || month > 12 || day > 31 {
        return None;
    }
    let Ok(date) = Date::new(year as i16, month as i8, day as i8) else {
        return None;
    };
    Some(date.to_plain().to_unix_epoch_day() as u64)
}

/// The moment of a day and a time in UTC. `None` if the day or the time does not exist, or if the year is outside 1970 to 9999.
pub(crate) fn moment_of(time: CivilTime) -> Option<Moment>
    requires { time.fraction < 10_000_000 }
    ensures { result ≡ (if is_in_range time then Some (ticks_of time) else None) }
{
    let days = day_number(time.year, time.month, time.day)?;
    if time.hour >= 24 || time.minute >= 60 || time.second >= 60 {
        return None;
    }
    let seconds = days * 86_400 + (time.hour * 3_600 + time.minute * 60 + time.second) as u64;
    Moment::new((seconds * 10_000_000 + time.fraction as u64) as i64)
}

/// The day and the time of day in UTC at which a moment lies.
pub(crate) fn time_of(moment: Moment) -> CivilTime
    ensures value { result ≡ time_at moment }
    ensures fits { FitsDigits result }
{
    let ticks = moment.ticks();
    let Ok(date) = CivilDate::from_unix_epoch_day((ticks / 864_000_000_000) as i64) else {
        unreachable!("each moment lies on a day of the calendar")
    };
    CivilTime {
        year: date.year as u32,
        month: date.month as u32,
        day: date.day as u32,
        hour: (ticks / 36_000_000_000 % 24) as u32,
        minute: (ticks / 600_000_000 % 60) as u32,
        second: (ticks / 10_000_000 % 60) as u32,
        fraction: (ticks % 10_000_000) as u32,
    }
}
