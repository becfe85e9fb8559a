//! Small values: names and limits as the reference has them, printed texts, and that each call can
//! succeed.

use crate::sample_values::{acl, key, metadata, text};
use stamp_types::{
    Bytes, Items, Letters, Level, Moment, Visible, account_ok, char_count, container_ok, is_blob,
    is_metadata_name, is_policy_id, is_visible, read_etag, write_etag,
};

// For each name: whether it is a name of an account, of a container, and of metadata.
#[test]
fn names_of_accounts_containers_and_metadata(rt: HostRuntime) {
    for (name, account, container, meta) in [
        ("devstoreaccount1", true, true, true),
        ("a12345678901234567890123", true, true, true),
        ("a123456789012345678901234", false, true, true),
        ("ab", false, false, true),
        ("1ab", true, true, false),
        ("a-b", false, true, false),
        ("a--b", false, false, false),
        ("ab-", false, false, false),
        ("_1", false, false, true),
        ("Abc", false, false, false),
        ("$root", false, false, false),
    ] {
        assert!(rt; account_ok(name.as_bytes()) == account, "at {name}");
        assert!(rt; container_ok(name.as_bytes()) == container, "at {name}");
        assert!(rt; is_metadata_name(name.as_bytes()) == meta, "at {name}");
    }
}

#[test]
fn blob_names_have_no_control_characters(rt: HostRuntime) {
    for (name, good) in [
        ("d/1 b", true),
        ("", false),
        ("a\u{1f}", false),
        ("\u{7f}", false),
        ("\u{85}\u{fffd}\u{1fffe}", true),
        ("a\u{fffe}", false),
        ("\u{ffff}b", false),
    ] {
        assert!(rt; is_blob(name.as_bytes()) == good, "at {name}");
    }
    assert_eq!(rt; char_count("a\u{e9}\u{20ac}\u{1f600}".as_bytes()), 4);
    assert!(rt; is_visible(b" ~") && !is_visible("\u{e9}".as_bytes()));
}

#[test]
fn names_have_limits_in_characters(rt: HostRuntime) {
    let alloc = rt.alloc();
    for (count, policy, blob) in [
        (64, true, true),
        (65, false, true),
        (1024, false, true),
        (1025, false, false),
    ] {
        let name = "\u{e9}".repeat(alloc, count).expect(&rt, "memory");
        assert!(rt; is_policy_id(name.as_bytes()) == policy, "{count}");
        assert!(rt; is_blob(name.as_bytes()) == blob, "{count}");
    }
}

// The numbers come from GNU date: `date -u -d 9999-12-31T23:59:59 +%s`, times 10,000,000, and
// 9,999,999 more.
#[test]
fn moments_reach_from_1970_to_9999(rt: HostRuntime) {
    for (ticks, good) in [
        (-1, false),
        (0, true),
        (2_534_023_007_999_999_999, true),
        (2_534_023_008_000_000_000, false),
    ] {
        assert!(rt; Moment::new(ticks).is_some() == good, "{ticks}");
    }
}

#[test]
fn content_types_are_printed(rt: HostRuntime) {
    let stream = Visible::octet_stream(rt.alloc()).expect(&rt, "memory");
    assert!(rt; stream.as_str() == "application/octet-stream");
    let xml = Visible::xml(rt.alloc()).expect(&rt, "memory");
    assert!(rt; xml.as_str() == "application/xml");
}

#[test]
fn etags_of_counts(rt: HostRuntime) {
    for (count, tag) in [
        (0, "\"0x0000000000000000\""),
        (0x0123_4567_89ab_cdef, "\"0x0123456789abcdef\""),
        (u64::MAX, "\"0xffffffffffffffff\""),
    ] {
        assert_eq!(rt; write_etag(count).as_slice(), tag.as_bytes(), "at {count}");
        assert_eq!(rt; read_etag(tag.as_bytes()), Some(count), "at {count}");
    }
    for other in [
        "\"0x00000000000000AB\"",
        "W/\"0x0000000000000001\"",
        "0x0000000000000001",
    ] {
        assert_eq!(rt; read_etag(other.as_bytes()), None, "at {other}");
    }
}

#[test]
fn letters_are_read_and_written(rt: HostRuntime) {
    for text in ["r", "w", "d", "l", "rwdl"] {
        let letters = Letters::read(text.as_bytes());
        assert_eq!(rt; letters.map(|l| l.as_str()), Some(text));
    }
    for text in ["", "x", "wr", "rr", "R"] {
        assert!(rt; Letters::read(text.as_bytes()).is_none(), "at {text}");
    }
}

#[test]
fn texts_and_bytes_are_copied_and_ordered(rt: HostRuntime) {
    let alloc = rt.alloc();
    let letter = text(&rt, alloc, "\u{e9}");
    assert!(rt; letter == letter.clone().expect(&rt, "memory"));
    assert!(rt; text(&rt, alloc, "B") < text(&rt, alloc, "a") && text(&rt, alloc, "z") < letter);
    let bytes = Bytes::new(b"\xff\x00".to_vec(alloc).expect(&rt, "memory"));
    assert!(rt; bytes == bytes.clone().expect(&rt, "memory"));
    let items = Items::new([3, 1].to_vec(alloc).expect(&rt, "memory"));
    assert!(rt; items == items.clone().expect(&rt, "memory"));
}

#[test]
fn keys_metadata_and_acls_are_copied(rt: HostRuntime) {
    let alloc = rt.alloc();
    let key = key(&rt, alloc, "pantry", "jam");
    assert!(rt; key.same(&key.clone().expect(&rt, "memory")));
    let metadata = metadata(&rt, alloc);
    assert!(rt; metadata == metadata.clone().expect(&rt, "memory"));
    let acl = acl(&rt, alloc, Level::Blob);
    assert!(rt; acl == acl.clone().expect(&rt, "memory"));
}
