//! The range that Get Blob asks for (Blob service REST reference, 2012-02-12, Specifying the Range Header for Blob Service
//! Operations).
ghost use Rattle.std.specs.Prelude.{◌≡◌, ◌≤◌, ◌+◌, ◌-◌, ◌*◌, MatchOption, None, Some, bytes_eq, codes, drop, false, length, take, true};
ghost use Rattle.std.specs.Ordering.{nat_cmp};
ghost use Rattle.std.specs.Str.Parse.{digits_value};
ghost use Rattle.request_form.specs.HeadFields.{are_digits};
ghost use Rattle.request_form.specs.HeadRanges as ranges;

use crate::parse::head_fields::are_digits;
use crate::parse::marks::position;
use http_header::{IF_RANGE, RANGE};
use stamp_types::header_names::OWN_RANGE;
use stamp_types::{ByteRange, FieldList, Op};
use std::cmp::Ordering;

// The digit at a place from the right; 0 at a place before the first digit.
#[tactic(auto, using(crate::proofs::DigitLemmas::more_from_right))]
fn digit(digits: &[u8], place: usize) -> u8
    requires { are_digits digits.now ≡ true }
    ensures value { digits_value 10 (take (length digits.now - place) digits.now)
        ≡ digits_value 10 (take (length digits.now - (place + 1)) digits.now) * 10 + result }
    ensures small { result ≤ 9 }
{
    if place < digits.len() {
        digits[digits.len() - 1 - place] - b'0'
    } else {
        0
    }
}

// How the numbers compare that the digits write. The digits may be more than any number of the machine has room for.
fn compare(first: &[u8], last: &[u8]) -> Ordering
    requires first { are_digits first.now ≡ true }
    requires last { are_digits last.now ≡ true }
    ensures { result ≡ nat_cmp (digits_value 10 first.now) (digits_value 10 last.now) }
{
    let mut order = Ordering::Equal;
    for place in (0..first.len().max(last.len())).rev() {
        order = order.then(digit(first, place).cmp(&digit(last, place)));
    }
    order
}

// The number that the digits write, or 2^64 - 1 if the number is greater.
#[tactic(auto, using(crate::proofs::DigitLemmas::within_more))]
fn number_within(digits: &[u8]) -> u64
    requires { are_digits digits.now ≡ true }
    ensures { result ≡ ranges.number_within digits.now }
{
    let mut number = 0u64;
    for digit in digits {
        number = number
            .saturating_mul(10)
            .saturating_add(u64::from(*digit - b'0'));
    }
    number
}

// The range between two numbers, which are compared before they are cut to 64 bits.
#[tactic(auto, unfolding(crate::specs::HeadRanges::range_between))]
fn range_between(first: &[u8], last: &[u8]) -> Option<ByteRange>
    requires first { are_digits first.now ≡ true }
    requires last { are_digits last.now ≡ true }
    ensures { result ≡ ranges.range_between first.now last.now }
{
    if last.is_empty() {
        return Some(ByteRange {
            first: number_within(first),
            last: None,
        });
    }
    if compare(first, last).is_gt() {
        return None;
    }
    Some(ByteRange {
        first: number_within(first),
        last: Some(number_within(last)),
    })
}

// What follows `bytes=`, if the text begins with it.
fn after_unit(text: &[u8]) -> Option<&[u8]>
    ensures { MatchOption result (bytes_eq (take 6 text.now) (codes "bytes=") ≡ false)
        (λ rest. (bytes_eq (take 6 text.now) (codes "bytes=") ≡ true)
        × (rest.now ≡ drop 6 text.now)) }
{
    text.strip_prefix(b"bytes=".as_slice())
}

// What a text has between `bytes=` and the first hyphen, and what it has after that hyphen, if it has both marks.
#[tactic(auto, using(crate::proofs::RangeLemmas::without_unit))]
fn halves(text: &[u8]) -> Option<(&[u8], &[u8])>
    ensures { MatchOption result (ranges.is_marked text.now ≡ false)
        (λ halves. (ranges.is_marked text.now ≡ true)
        × (halves.0.now ≡ ranges.first_digits text.now)
        × (halves.1.now ≡ ranges.last_digits text.now)) }
{
    let numbers = after_unit(text)?;
    let at = position(numbers, b'-');
    if at == numbers.len() {
        return None;
    }
    Some((&numbers[..at], &numbers[at + 1..]))
}

// The range that a text asks for, if the text has the form of a range.
#[tactic(auto, unfolding(crate::specs::HeadRanges::range_of, crate::specs::HeadRanges::is_range))]
fn range_of(text: &[u8]) -> Option<ByteRange>
    ensures { result ≡ ranges.range_of text.now }
{
    let (first, last) = halves(text)?;
    if first.is_empty() || !are_digits(first) || !are_digits(last) {
        return None;
    }
    range_between(first, last)
}

// The text that asks for a range: the value of x-ms-range, else of Range; nothing if If-Range was sent.
#[tactic(auto, unfolding(crate::specs::HeadRanges::range_sent))]
fn range_sent(fields: &FieldList) -> Option<&[u8]>
    ensures { MatchOption result (ranges.range_sent fields.now ≡ None)
        (λ text. ranges.range_sent fields.now ≡ Some text.now) }
{
    if fields.is_sent(IF_RANGE.as_bytes()) {
        return None;
    }
    match fields.first(OWN_RANGE.as_bytes()) {
        Some(text) => Some(text),
        None => fields.first(RANGE.as_bytes()),
    }
}

/// The range that comes with a request, if the operation is Get Blob. A text of another form asks for the whole blob.
pub(crate) fn range_by(op: Op, fields: &FieldList) -> Option<ByteRange>
    ensures { result ≡ ranges.range_by op fields.now }
{
    if !matches!(op, Op::GetBlob) {
        return None;
    }
    range_of(range_sent(fields)?)
}
