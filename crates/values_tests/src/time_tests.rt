//! Texts of times, compared with values from elsewhere.

use moment_text::{TimeFault, read_http, read_iso, write_http, write_iso};
use stamp_types::Moment;

fn iso(text: &str) -> Option<u64> {
    match read_iso(text.as_bytes()) {
        Ok(moment) => Some(moment.ticks()),
        Err(_) => None,
    }
}

fn iso_fault(text: &str) -> Option<TimeFault> {
    read_iso(text.as_bytes()).err()
}

fn http(text: &str) -> Option<u64> {
    match read_http(text.as_bytes()) {
        Ok(moment) => Some(moment.ticks()),
        Err(_) => None,
    }
}

// The numbers come from Python's datetime.
#[test]
fn times_are_read(rt: HostRuntime) {
    for (text, ticks) in [
        ("1970-01-01", 0),
        ("1972-02-29", 681_696_000_000_000),
        ("2000-02-29", 9_517_824_000_000_000),
        ("2012-10-01", 13_490_496_000_000_000),
        ("2012-10-01T12:00Z", 13_490_928_000_000_000),
        ("2012-10-01T12:00:00Z", 13_490_928_000_000_000),
        ("2012-10-01T12:00:00.12Z", 13_490_928_001_200_000),
        ("2012-10-01T12:00:00.0000001Z", 13_490_928_000_000_001),
        ("9999-12-31T23:59:59.9999999Z", 2_534_023_007_999_999_999),
    ] {
        assert_eq!(rt; iso(text), Some(ticks), "at {text}");
    }
}

#[test]
fn other_shapes_are_faults_of_form(rt: HostRuntime) {
    for text in [
        "",
        "20121001",
        "2012-10-1",
        "2012-10-01 12:00Z",
        "2012-10-01t12:00z",
        "2012-10-01T12:00",
        "2012-13-01T12:00:00+01:00",
        "2012-10-01T12:00:00.Z",
        "2012-10-01T12:00:00,5Z",
        "2012-10-01T12:00:00.00000001Z",
    ] {
        assert_eq!(rt; iso_fault(text), Some(TimeFault::Form), "at {text}");
    }
}

#[test]
fn days_and_times_that_do_not_exist_are_faults_of_range(rt: HostRuntime) {
    for text in [
        "1969-12-31",
        "2012-02-30",
        "2100-02-29",
        "2012-13-01",
        "2012-10-01T24:00Z",
        "2012-10-01T12:60Z",
        "2012-10-01T12:00:60Z",
    ] {
        assert_eq!(rt; iso_fault(text), Some(TimeFault::Range), "at {text}");
    }
}

// The example of RFC 9110, section 5.6.7.
#[test]
fn one_second_in_three_formats(rt: HostRuntime) {
    for text in [
        "Sun, 06 Nov 1994 08:49:37 GMT",
        "Sunday, 06-Nov-94 08:49:37 GMT",
        "Sun Nov  6 08:49:37 1994",
    ] {
        assert_eq!(rt; http(text), Some(7_841_117_770_000_000), "at {text}");
    }
    assert_eq!(rt; http("Mon, 06 Nov 1994 08:49:37 GMT"), None);
    assert_eq!(rt; http("Sun, 06 Nov 1994 08:49:60 GMT"), None);
}

#[test]
fn dates_are_cut_down_to_the_second(rt: HostRuntime) {
    for (ticks, text) in [
        (0, "Thu, 01 Jan 1970 00:00:00 GMT"),
        (9_517_861_239_999_999, "Tue, 29 Feb 2000 01:02:03 GMT"),
        (13_490_928_000_000_001, "Mon, 01 Oct 2012 12:00:00 GMT"),
        (2_534_023_007_999_999_999, "Fri, 31 Dec 9999 23:59:59 GMT"),
    ] {
        let written = Moment::new(ticks).map(|moment| write_http(moment));
        assert!(rt;
            written.is_some_and(|date| date.as_slice() == text.as_bytes()),
            "at {text}"
        );
    }
}

// The texts come from Python's datetime.
#[test]
fn times_are_written_with_seven_decimals(rt: HostRuntime) {
    for (ticks, text) in [
        (0, "1970-01-01T00:00:00.0000000Z"),
        (681_804_000_000_000, "1972-02-29T03:00:00.0000000Z"),
        (9_517_824_001_234_567, "2000-02-29T00:00:00.1234567Z"),
        (13_490_928_000_000_001, "2012-10-01T12:00:00.0000001Z"),
        (13_490_964_000_000_000, "2012-10-01T13:00:00.0000000Z"),
        (2_534_023_007_999_999_999, "9999-12-31T23:59:59.9999999Z"),
    ] {
        let moment = Moment::new(ticks).expect(&rt, "a moment");
        let written = write_iso(rt.alloc(), moment).expect(&rt, "memory");
        assert_eq!(rt; written.as_str(), text);
    }
}
