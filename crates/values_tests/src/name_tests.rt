//! Names at the limits of the reference (Blob service REST reference, 2012-02-12, Naming and Referencing Containers, Blobs, and
//! Metadata), written out by hand. Which characters are control characters is this product's choice.

use name_rules::{NameFault, account_ok, blob_name, container_ok};
use std::alloc::Global;
use std::process::Abort;

#[test]
fn an_account_has_3_to_24_letters_and_digits(rt: HostRuntime) {
    let names = [
        ("abc", true),
        ("abcdefghijklmnopqrstuvwx", true),
        ("ab", false),
        ("abcdefghijklmnopqrstuvwxy", false),
        ("a-b", false),
    ];
    for (name, good) in names {
        assert!(rt; account_ok(name.as_bytes()) == good, "{name}");
    }
}

#[test]
fn a_container_has_3_to_63_letters_digits_and_single_hyphens(rt: HostRuntime) {
    let names = [
        ("a-b", true),
        (
            "abcdefghijklmnopqrstuvwxyzabcdefghijklmnopqrstuvwxyz0123456789a",
            true,
        ),
        (
            "abcdefghijklmnopqrstuvwxyzabcdefghijklmnopqrstuvwxyz0123456789ab",
            false,
        ),
        ("a--b", false),
    ];
    for (name, good) in names {
        assert!(rt; container_ok(name.as_bytes()) == good, "{name}");
    }
}

fn is_named(alloc: Global, rest: &[u8], wanted: Result<&[u8], NameFault>) -> bool {
    match blob_name(alloc, rest) {
        Ok(name) => wanted == Ok(name.as_bytes()),
        Err(fault) => wanted == Err(fault),
    }
}

#[test]
fn a_blob_has_a_name_without_control_characters(rt: HostRuntime) {
    let names = [
        ("a%2Fb", Ok("a/b")),
        ("%2500", Ok("%00")),
        ("%C2%85", Ok("\u{85}")),
        ("", Err(NameFault::Empty)),
        ("%ff", Err(NameFault::NotUtf8)),
        ("%00", Err(NameFault::Control)),
        ("%EF%BF%BE", Err(NameFault::Control)),
    ];
    for (rest, wanted) in names {
        let wanted = match wanted {
            Ok(name) => Ok(name.as_bytes()),
            Err(fault) => Err(fault),
        };
        assert!(rt; is_named(rt.alloc(), rest.as_bytes(), wanted), "{rest}");
    }
}

// A name of characters that have four bytes each.
fn long_name(rt: &impl Abort, alloc: Global, chars: usize) -> Vec<u8> {
    let mut name = Vec::new(alloc);
    for _ in 0..chars {
        name.extend_from_slice("\u{1F600}".as_bytes())
            .expect(rt, "memory");
    }
    name
}

#[test]
fn a_blob_has_a_name_of_at_most_1024_characters(rt: HostRuntime) {
    let longest = long_name(&rt, rt.alloc(), 1024);
    assert!(rt; is_named(rt.alloc(), &longest, Ok(&longest)));
    let too_long = long_name(&rt, rt.alloc(), 1025);
    assert!(rt; is_named(rt.alloc(), &too_long, Err(NameFault::TooLong)));
}
