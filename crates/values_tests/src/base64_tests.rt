//! What no clause says: that each call can succeed. The texts are those of RFC 4648, section 10, and their nearest neighbours.

use base64_text::{
    append_base64, base64_of_16, base64_of_32, decoded_base64, is_base64_within, write_base64,
};
use std::test::Fail;

#[test]
fn texts_are_decoded(rt: HostRuntime) -> Result<(), Fail> {
    let cases = [
        ("", Some("")),
        ("Zg==", Some("f")),
        ("Zm8=", Some("fo")),
        ("Zm9v", Some("foo")),
        ("Zm9vYmFy", Some("foobar")),
        ("Zg=", None),
        ("Zg", None),
        ("Zh==", None),
        ("Zm 9v", None),
        ("Zm9v\n", None),
        ("Zm-v", None),
    ];
    for (text, wanted) in cases {
        let read = decoded_base64(rt.alloc(), text.as_bytes()).expect(&rt, "memory");
        let same = match (&read, wanted) {
            (Some(bytes), Some(wanted)) => bytes.as_slice() == wanted.as_bytes(),
            (None, None) => true,
            _ => false,
        };
        assert!(rt; same, "of {text}");
    }
    Ok(())
}

#[test]
fn lengths_are_those_of_the_bytes(rt: HostRuntime) -> Result<(), Fail> {
    let cases = [
        ("Zg==", true),
        ("Zm8=", true),
        ("Zm9v", false),
        ("", false),
        ("Zg", false),
    ];
    for (text, wanted) in cases {
        let read = is_base64_within(rt.alloc(), 1, 2, text.as_bytes());
        assert!(rt; read == Ok(wanted), "of {text}");
    }
    Ok(())
}

#[test]
fn bytes_are_written(rt: HostRuntime) -> Result<(), Fail> {
    let text = write_base64(rt.alloc(), b"foobar").expect(&rt, "memory");
    assert!(rt; text.as_str() == "Zm9vYmFy");
    Ok(())
}

#[test]
fn bytes_are_appended(rt: HostRuntime) -> Result<(), Fail> {
    let mut text = String::new(rt.alloc());
    append_base64(&mut text, b"fo").expect(&rt, "memory");
    append_base64(&mut text, b"foob").expect(&rt, "memory");
    assert!(rt; text.as_str() == "Zm8=Zm9vYg==");
    Ok(())
}

// The texts come from Python's base64.
#[test]
fn sums_are_written_into_arrays(rt: HostRuntime) {
    assert!(rt; base64_of_16(b"0123456789abcdef") == *b"MDEyMzQ1Njc4OWFiY2RlZg==");
    let digest = *b"0123456789abcdef0123456789abcdef";
    assert!(rt; base64_of_32(&digest) == *b"MDEyMzQ1Njc4OWFiY2RlZjAxMjM0NTY3ODlhYmNkZWY=");
}
