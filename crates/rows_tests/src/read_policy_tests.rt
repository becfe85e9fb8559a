//! What no clause says about reading stored policies: that a body can be read, and that the grammar means the reference. Each good
//! body is beside its nearest neighbour that is refused.

use body_forms::BodyFault::{Form, Id, Letters, Time, TooMany};
use body_forms::{BodyFault, read_policies};
use stamp_types::Moment;
use std::alloc::Global;
use std::process::Abort;
use std::test::Fail;

// How many policies are read.
fn count(alloc: Global, body: &[u8]) -> Result<usize, BodyFault> {
    match read_policies(alloc, body) {
        Ok(policies) => Ok(policies.as_slice().len()),
        Err(fault) => Err(fault),
    }
}

// Texts, and how many policies the body of each text has.
type Rows = &'static [(&'static str, Result<usize, BodyFault>)];

// Whole bodies.
fn lists() -> Rows {
    &[
        ("", Ok(0)),
        (" ", Err(Form)),
        ("\u{feff}", Err(Form)),
        ("<?xml?>", Err(Form)),
        ("<SignedIdentifiers/>", Ok(0)),
        ("<SignedIdentifiers>\n</SignedIdentifiers>", Ok(0)),
        ("<SignedIdentifiers>", Err(Form)),
        ("<SignedIdentifier/>", Err(Form)),
        ("\u{feff}<?xml ?>\r\n<SignedIdentifiers/>\r\n", Ok(0)),
        ("<SignedIdentifiers/>a", Err(Form)),
        (
            "<SignedIdentifiers><SignedIdentifier><Id>a</Id></SignedIdentifier><SignedIdentifier><Id>b</Id></SignedIdentifier><SignedIdentifier><Id>c</Id></SignedIdentifier><SignedIdentifier><Id>d</Id></SignedIdentifier><SignedIdentifier><Id>e</Id></SignedIdentifier></SignedIdentifiers>",
            Ok(5),
        ),
        (
            "<SignedIdentifiers><SignedIdentifier><Id>a</Id></SignedIdentifier><SignedIdentifier><Id>b</Id></SignedIdentifier><SignedIdentifier><Id>c</Id></SignedIdentifier><SignedIdentifier><Id>d</Id></SignedIdentifier><SignedIdentifier><Id>e</Id></SignedIdentifier><SignedIdentifier><Id>f</Id></SignedIdentifier></SignedIdentifiers>",
            Err(TooMany),
        ),
        (
            "<SignedIdentifiers><SignedIdentifier><Id>a</Id></SignedIdentifier><SignedIdentifier><Id>a</Id></SignedIdentifier><SignedIdentifier><Id>a</Id></SignedIdentifier><SignedIdentifier><Id>a</Id></SignedIdentifier><SignedIdentifier><Id>a</Id></SignedIdentifier><SignedIdentifier><Id>a</Id></SignedIdentifier></SignedIdentifiers>",
            Err(TooMany),
        ),
        (
            "<SignedIdentifiers><SignedIdentifier><Id>a</Id></SignedIdentifier><SignedIdentifier><Id>A</Id></SignedIdentifier></SignedIdentifiers>",
            Ok(2),
        ),
        (
            "<SignedIdentifiers><SignedIdentifier><Id>a</Id></SignedIdentifier><SignedIdentifier><Id>a</Id></SignedIdentifier></SignedIdentifiers>",
            Err(Id),
        ),
        (
            "<SignedIdentifiers><SignedIdentifier><Id>a</Id></SignedIdentifier><SignedIdentifier><Id> a</Id></SignedIdentifier></SignedIdentifiers>",
            Err(Id),
        ),
        ("<SignedIdentifiers>,</SignedIdentifiers>", Err(Form)),
        ("<SignedIdentifiers><!-- --></SignedIdentifiers>", Err(Form)),
        ("<SignedIdentifiers><Other/></SignedIdentifiers>", Err(Form)),
        (
            "<SignedIdentifiers><SignedIdentifier/></SignedIdentifiers>",
            Err(Form),
        ),
    ]
}

// Whole bodies with two causes or more, or with one cause and a broken end.
fn orders() -> Rows {
    &[
        (
            "<SignedIdentifiers><SignedIdentifier><Id>a</Id><AccessPolicy><Start>a</Start></AccessPolicy></SignedIdentifier></SignedIdentifiers>",
            Err(Time),
        ),
        (
            "<SignedIdentifiers><SignedIdentifier><Id>a</Id><AccessPolicy><Start>a</Start></AccessPolicy></SignedIdentifier></SignedIdentifiers",
            Err(Form),
        ),
        (
            "<SignedIdentifiers><SignedIdentifier><Id>a</Id><AccessPolicy><Start>a</Start></AccessPolicy></SignedIdentifier><SignedIdentifier><Id>b</Id><AccessPolicy><Permission>a</Permission></AccessPolicy></SignedIdentifier></SignedIdentifiers>",
            Err(Letters),
        ),
        (
            "<SignedIdentifiers><SignedIdentifier><Id>a</Id><AccessPolicy><Permission>a</Permission></AccessPolicy></SignedIdentifier><SignedIdentifier><Id/></SignedIdentifier></SignedIdentifiers>",
            Err(Id),
        ),
        (
            "<SignedIdentifiers><SignedIdentifier><Id>a</Id><AccessPolicy><Permission>a</Permission></AccessPolicy></SignedIdentifier><SignedIdentifier><Id>a</Id></SignedIdentifier></SignedIdentifiers>",
            Err(Id),
        ),
    ]
}

// What is inside the one policy of a body.
fn parts() -> Rows {
    &[
        ("<Id>a</Id>", Ok(1)),
        ("", Err(Form)),
        ("<Id>a</Id><Id>b</Id>", Err(Form)),
        ("\t<Id>a</Id>\r\n", Ok(1)),
        ("a<Id>a</Id>", Err(Form)),
        ("<Id>a</Id><AccessPolicy/>", Ok(1)),
        ("<AccessPolicy/><Id>a</Id>", Ok(1)),
        ("<Id>a</Id><AccessPolicy/><AccessPolicy/>", Err(Form)),
        (
            "<AccessPolicy/><Id>a</Id><AccessPolicy></AccessPolicy>",
            Err(Form),
        ),
        ("<AccessPolicy/>", Err(Form)),
        ("<Id>a</Id><!-- -->", Err(Form)),
        ("<id>a</id>", Err(Form)),
        ("<Id>a</Id><Start/>", Err(Form)),
        ("<Id><Id>a</Id></Id>", Err(Form)),
        ("<Id>a<b/></Id>", Err(Form)),
    ]
}

// The text of the one id of a body.
fn ids() -> Rows {
    &[
        ("a b", Ok(1)),
        ("a\tb", Err(Id)),
        ("\r\na\t ", Ok(1)),
        ("", Err(Id)),
        (" ", Err(Id)),
        ("&lt;&amp;&gt;&quot;&apos;", Ok(1)),
        ("&#65;", Err(Form)),
        ("a&b", Err(Form)),
        ("a\u{7f}", Err(Form)),
        (
            "aaaaaaaaaaaaaaaaaaaaaaaaaaaaaaaaaaaaaaaaaaaaaaaaaaaaaaaaaaaaaaaa",
            Ok(1),
        ),
        (
            "aaaaaaaaaaaaaaaaaaaaaaaaaaaaaaaaaaaaaaaaaaaaaaaaaaaaaaaaaaaaaaaaa",
            Err(Id),
        ),
        (
            "🔑🔑🔑🔑🔑🔑🔑🔑🔑🔑🔑🔑🔑🔑🔑🔑🔑🔑🔑🔑🔑🔑🔑🔑🔑🔑🔑🔑🔑🔑🔑🔑🔑🔑🔑🔑🔑🔑🔑🔑🔑🔑🔑🔑🔑🔑🔑🔑🔑🔑🔑🔑🔑🔑🔑🔑🔑🔑🔑🔑🔑🔑🔑🔑",
            Ok(1),
        ),
        (
            "🔑🔑🔑🔑🔑🔑🔑🔑🔑🔑🔑🔑🔑🔑🔑🔑🔑🔑🔑🔑🔑🔑🔑🔑🔑🔑🔑🔑🔑🔑🔑🔑🔑🔑🔑🔑🔑🔑🔑🔑🔑🔑🔑🔑🔑🔑🔑🔑🔑🔑🔑🔑🔑🔑🔑🔑🔑🔑🔑🔑🔑🔑🔑🔑🔑",
            Err(Id),
        ),
        (
            "&amp;&amp;&amp;&amp;&amp;&amp;&amp;&amp;&amp;&amp;&amp;&amp;&amp;&amp;&amp;&amp;&amp;&amp;&amp;&amp;&amp;&amp;&amp;&amp;&amp;&amp;&amp;&amp;&amp;&amp;&amp;&amp;&amp;&amp;&amp;&amp;&amp;&amp;&amp;&amp;&amp;&amp;&amp;&amp;&amp;&amp;&amp;&amp;&amp;&amp;&amp;&amp;&amp;&amp;&amp;&amp;&amp;&amp;&amp;&amp;&amp;&amp;&amp;&amp;",
            Ok(1),
        ),
        (
            "&amp;&amp;&amp;&amp;&amp;&amp;&amp;&amp;&amp;&amp;&amp;&amp;&amp;&amp;&amp;&amp;&amp;&amp;&amp;&amp;&amp;&amp;&amp;&amp;&amp;&amp;&amp;&amp;&amp;&amp;&amp;&amp;&amp;&amp;&amp;&amp;&amp;&amp;&amp;&amp;&amp;&amp;&amp;&amp;&amp;&amp;&amp;&amp;&amp;&amp;&amp;&amp;&amp;&amp;&amp;&amp;&amp;&amp;&amp;&amp;&amp;&amp;&amp;&amp;&amp;",
            Err(Id),
        ),
    ]
}

// What is inside the AccessPolicy of the one policy of a body.
fn fields() -> Rows {
    &[
        ("", Ok(1)),
        (
            "<Start>2012-10-01</Start><Expiry>2012-10-02T00:00:00.5Z</Expiry><Permission>rwdl</Permission>",
            Ok(1),
        ),
        (
            "<Permission>r</Permission><Expiry>2012-10-01</Expiry><Start>2012-10-01</Start>",
            Ok(1),
        ),
        ("<Start/><Expiry></Expiry><Permission> </Permission>", Ok(1)),
        (
            "<Permission>r</Permission><Permission>r</Permission>",
            Err(Form),
        ),
        ("<Permission>r</Permission><Permission/>", Err(Form)),
        ("<Start/><Start/>", Err(Form)),
        ("<Expiry/><Expiry/>", Err(Form)),
        ("<Permission>r</Permission>,", Err(Form)),
        ("<Permission>r<b/></Permission>", Err(Form)),
        ("<Id>a</Id>", Err(Form)),
        ("<start/>", Err(Form)),
        ("<Permission>\n r\t</Permission>", Ok(1)),
        ("<Permission>wr</Permission>", Err(Letters)),
        ("<Permission>rr</Permission>", Err(Letters)),
        ("<Permission>r w</Permission>", Err(Letters)),
        ("<Permission>&amp;</Permission>", Err(Letters)),
        ("<Start>2012-10-01T12:00Z</Start>", Ok(1)),
        ("<Start>2012-10-01T12:00</Start>", Err(Time)),
        ("<Expiry>2012-02-30</Expiry>", Err(Time)),
        ("<Expiry>&lt;</Expiry>", Err(Time)),
        ("<Start>a</Start><Permission>a</Permission>", Err(Letters)),
    ]
}

// The text with these texts before and after it.
fn joined(rt: &impl Abort, alloc: Global, before: &str, text: &str, after: &str) -> String {
    let mut body = String::from_str(alloc, before).expect(rt, "memory");
    body.push_str(text).expect(rt, "memory");
    body.push_str(after).expect(rt, "memory");
    body
}

#[test]
fn bodies_are_read_or_refused(rt: HostRuntime) -> Result<(), Fail> {
    for rows in [lists(), orders()] {
        for (body, wanted) in rows {
            assert!(rt; count(rt.alloc(), body.as_bytes()) == *wanted, "of {body}");
        }
    }
    Ok(())
}

fn check_rows(rt: &impl Abort, alloc: Global, rows: Rows, before: &str, after: &str) {
    for (text, wanted) in rows {
        let body = joined(rt, alloc, before, text, after);
        assert!(rt; count(alloc, body.as_bytes()) == *wanted, "of {text}");
    }
}

#[test]
fn policies_are_read_or_refused(rt: HostRuntime) {
    let before = "<SignedIdentifiers><SignedIdentifier>";
    let after = "</SignedIdentifier></SignedIdentifiers>";
    check_rows(&rt, rt.alloc(), parts(), before, after);
}

#[test]
fn ids_are_read_or_refused(rt: HostRuntime) {
    let before = "<SignedIdentifiers><SignedIdentifier><Id>";
    let after = "</Id></SignedIdentifier></SignedIdentifiers>";
    check_rows(&rt, rt.alloc(), ids(), before, after);
}

#[test]
fn fields_are_read_or_refused(rt: HostRuntime) {
    let before = "<SignedIdentifiers><SignedIdentifier><Id>a</Id><AccessPolicy>";
    let after = "</AccessPolicy></SignedIdentifier></SignedIdentifiers>";
    check_rows(&rt, rt.alloc(), fields(), before, after);
}

const SENT: &[u8] =
    b"<SignedIdentifiers><SignedIdentifier><Id> a &amp; b</Id><AccessPolicy><Start>2012-10-01</Start><Expiry>2012-10-02T00:00:00.5Z</Expiry><Permission>rwdl</Permission></AccessPolicy></SignedIdentifier><SignedIdentifier><Id>p2</Id></SignedIdentifier></SignedIdentifiers>";

#[test]
fn policies_have_what_was_sent(rt: HostRuntime) {
    let policies = read_policies(rt.alloc(), SENT).expect(&rt, "policies");
    let same = match policies.as_slice() {
        [one, two] => one.id.as_str() == "a & b"
            && one.start == Moment::new(13_490_496_000_000_000)
            && one.expiry == Moment::new(13_491_360_005_000_000)
            && one.letters.is_some()
            && two.id.as_str() == "p2"
            && two.start.is_none()
            && two.expiry.is_none()
            && two.letters.is_none(),
        _ => false,
    };
    assert!(rt; same);
}
