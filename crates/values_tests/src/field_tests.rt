//! Headers and parameters, against RFC 9110 and RFC 3629.

use stamp_types::{FieldList, is_utf8, lowered, trimmed};
use std::alloc::Global;
use std::process::Abort;

type Pairs = &'static [(&'static str, &'static str)];

// `Ä` is C3 84 in UTF-8, and is not a letter of ASCII.
const SENT: Pairs = &[
    ("Host", "H"),
    ("X-MS-Date", ""),
    ("x-ms-DATE", "Mon"),
    ("\u{c4}B", "\u{c4}B"),
];

const KEPT: Pairs = &[
    ("host", "H"),
    ("x-ms-date", ""),
    ("x-ms-date", "Mon"),
    ("\u{c4}b", "\u{c4}B"),
];

fn list(rt: &impl Abort, alloc: Global, pairs: Pairs) -> FieldList {
    let mut list = FieldList::with_room(alloc, 8, 1).expect(rt, "memory");
    for (name, value) in pairs {
        list.push(name.as_bytes(), value.as_bytes())
            .expect(rt, "memory");
    }
    list
}

#[test]
fn names_are_kept_in_lower_case_and_values_as_they_are(rt: HostRuntime) {
    let sent = list(&rt, rt.alloc(), SENT);
    assert_eq!(rt; sent.len(), 4);
    assert_eq!(rt; sent.bytes_len(), 4 + 1 + 9 + 9 + 3 + 3 + 3);
    let mut left = sent.fields();
    for (name, value) in KEPT {
        let field = left.next().expect(&rt, "a field");
        assert!(rt; field.name == name.as_bytes(), "{name}");
        assert!(rt; field.value == value.as_bytes(), "{name}");
    }
    assert!(rt; left.next().is_none());
}

#[test]
fn fields_come_from_the_end_too(rt: HostRuntime) {
    let sent = list(&rt, rt.alloc(), SENT);
    let mut left = sent.fields();
    let last = left.next_back().expect(&rt, "a field");
    assert!(rt; last.name == "\u{c4}b".as_bytes());
    assert!(rt; last.value == "\u{c4}B".as_bytes());
    let third = left.next_back().expect(&rt, "a field");
    assert!(rt; third.value == b"Mon".as_slice());
}

// RFC 9110, section 5.3: fields of one name are in the order in which they were sent, and an empty
// field counts too.
#[test]
fn fields_are_found_by_their_names(rt: HostRuntime) {
    let sent = list(&rt, rt.alloc(), SENT);
    assert!(rt; sent.first(b"host") == Some(b"H".as_slice()));
    assert!(rt; sent.first(b"x-ms-date") == Some(b"".as_slice()));
    assert!(rt; sent.first(b"date").is_none());
    let values = sent.values(rt.alloc(), b"x-ms-date").expect(&rt, "memory");
    assert!(rt; values.as_slice() == [b"".as_slice(), b"Mon".as_slice()].as_slice());
}

#[test]
fn fields_are_counted_by_their_names(rt: HostRuntime) {
    let sent = list(&rt, rt.alloc(), SENT);
    for (name, is_sent, is_sent_twice) in [
        ("host", true, false),
        ("x-ms-date", true, true),
        ("date", false, false),
        ("", false, false),
    ] {
        assert!(rt; sent.is_sent(name.as_bytes()) == is_sent, "{name}");
        assert!(rt;
            sent.is_sent_twice(name.as_bytes()) == is_sent_twice,
            "{name}"
        );
    }
}

// The two lists have the same bytes, cut in another way.
#[test]
fn lists_are_compared_field_by_field(rt: HostRuntime) {
    let one = list(&rt, rt.alloc(), &[("ab", "c")]);
    let other = list(&rt, rt.alloc(), &[("a", "bc")]);
    assert!(rt; !one.same(&other));
    assert!(rt; one.clone().expect(&rt, "memory").same(&one));
    assert!(rt; list(&rt, rt.alloc(), &[("AB", "c")]).same(&one));
}

// RFC 9110, section 5.5: OWS is spaces and tabs.
#[test]
fn values_are_trimmed_of_spaces_and_tabs(rt: HostRuntime) {
    for (value, wanted) in [
        (" \t a b\t ", "a b"),
        ("\r x \n", "\r x \n"),
        ("\t \t", ""),
        ("", ""),
    ] {
        assert!(rt; trimmed(value.as_bytes()) == wanted.as_bytes(), "{wanted}");
    }
}

#[test]
fn letters_of_ascii_alone_are_put_in_lower_case(rt: HostRuntime) {
    let lower = lowered(rt.alloc(), "AZaz@[\u{c4}".as_bytes()).expect(&rt, "memory");
    assert!(rt; lower.as_slice() == "azaz@[\u{c4}".as_bytes());
}

// RFC 3629, section 3: the last character, an overlong form, a surrogate, what follows the last
// character, a character that is cut off.
#[test]
fn bytes_are_told_from_texts(rt: HostRuntime) {
    let rows: [(&[u8], bool); 6] = [
        (&[0xc3, 0xa4], true),
        (&[0xf4, 0x8f, 0xbf, 0xbf], true),
        (&[0xc0, 0x80], false),
        (&[0xed, 0xa0, 0x80], false),
        (&[0xf4, 0x90, 0x80, 0x80], false),
        (&[0xc3], false),
    ];
    for (bytes, wanted) in rows {
        assert!(rt; is_utf8(bytes) == wanted, "{bytes:?}");
    }
}
