//! Published vectors, and texts that are not a key.
use hmac_sign::{SecretFault, SigningKey, hmac, read_key, sign};
use sha2::{Digest, Sha256};
use std::alloc::Global;
use std::process::Abort;
use std::test::Fail;

/// Each row is a key, some data, and their HMAC over SHA-256. The fifth code is cut to 128 bits. RFC 4231, sections 4.2 to 4.8.
const VECTORS: [(&[u8], &[u8], &[u8]); 7] = [
    (
        &[0x0b; 20],
        b"Hi There",
        b"\xb0\x34\x4c\x61\xd8\xdb\x38\x53\x5c\xa8\xaf\xce\xaf\x0b\xf1\x2b\x88\x1d\xc2\x00\xc9\x83\x3d\xa7\x26\xe9\x37\x6c\x2e\x32\xcf\xf7",
    ),
    (
        b"Jefe",
        b"what do ya want for nothing?",
        b"\x5b\xdc\xc1\x46\xbf\x60\x75\x4e\x6a\x04\x24\x26\x08\x95\x75\xc7\x5a\x00\x3f\x08\x9d\x27\x39\x83\x9d\xec\x58\xb9\x64\xec\x38\x43",
    ),
    (
        &[0xaa; 20],
        &[0xdd; 50],
        b"\x77\x3e\xa9\x1e\x36\x80\x0e\x46\x85\x4d\xb8\xeb\xd0\x91\x81\xa7\x29\x59\x09\x8b\x3e\xf8\xc1\x22\xd9\x63\x55\x14\xce\xd5\x65\xfe",
    ),
    (
        b"\x01\x02\x03\x04\x05\x06\x07\x08\x09\x0a\x0b\x0c\x0d\x0e\x0f\x10\x11\x12\x13\x14\x15\x16\x17\x18\x19",
        &[0xcd; 50],
        b"\x82\x55\x8a\x38\x9a\x44\x3c\x0e\xa4\xcc\x81\x98\x99\xf2\x08\x3a\x85\xf0\xfa\xa3\xe5\x78\xf8\x07\x7a\x2e\x3f\xf4\x67\x29\x66\x5b",
    ),
    (
        &[0x0c; 20],
        b"Test With Truncation",
        b"\xa3\xb6\x16\x74\x73\x10\x0e\xe0\x6e\x0c\x79\x6c\x29\x55\x55\x2b",
    ),
    (
        &[0xaa; 131],
        b"Test Using Larger Than Block-Size Key - Hash Key First",
        b"\x60\xe4\x31\x59\x1e\xe0\xb6\x7f\x0d\x8a\x26\xaa\xcb\xf5\xb7\x7f\x8e\x0b\xc6\x21\x37\x28\xc5\x14\x05\x46\x04\x0f\x0e\xe3\x7f\x54",
    ),
    (
        &[0xaa; 131],
        b"This is a test using a larger than block-size key and a larger than block-size data. The key needs to be hashed before being used by the HMAC algorithm.",
        b"\x9b\x09\xff\xa7\x1b\x94\x2f\xcb\x27\x63\x5f\xbc\xd5\xb0\xe9\x44\xbf\xdc\x63\x64\x4f\x07\x13\x93\x8a\x7f\x51\x53\x5c\x3a\x35\xe2",
    ),
];

#[test]
fn the_published_codes_come_out(rt: HostRuntime) {
    for (key, data, code) in VECTORS {
        assert!(rt; hmac(key, data).starts_with(code), "{key:?}");
    }
}

fn signing_key(rt: &impl Abort, alloc: Global, bytes: &[u8]) -> SigningKey {
    SigningKey::new(bytes.to_vec(alloc).expect(rt, "memory"))
}

#[test]
fn a_signing_key_gives_the_published_codes(rt: HostRuntime) {
    for (bytes, data, code) in VECTORS {
        let key = signing_key(&rt, rt.alloc(), bytes);
        assert!(rt; key.hmac(data).starts_with(code), "{bytes:?}");
    }
}

#[test]
fn a_key_longer_than_a_block_is_its_digest(rt: HostRuntime) {
    let key = [7; 65];
    assert_eq!(rt; hmac(&key, b"x"), hmac(&Sha256::digest(&key), b"x"));
}

#[test]
fn keys_that_sign_alike_are_different_keys(rt: HostRuntime) {
    let long = signing_key(&rt, rt.alloc(), &[7; 65]);
    let digest = signing_key(&rt, rt.alloc(), &Sha256::digest(&[7; 65]));
    assert!(rt; long.hmac(b"x") == digest.hmac(b"x"));
    assert!(rt; long != digest);
    let copy = long.clone().expect(&rt, "memory");
    assert!(rt; long == copy);
}

#[test]
fn no_byte_of_a_signing_key_is_printed(rt: HostRuntime) {
    let key = signing_key(&rt, rt.alloc(), b"Jefe");
    let printed = format!(in rt.alloc(); "{key:?} {key:#?}").expect(&rt, "memory");
    assert!(rt; printed.as_str() == "SigningKey(..) SigningKey(..)");
}

fn crosses<T: Send + Sync>() {}

#[test]
fn threads_may_have_signing_keys() {
    crosses::<SigningKey>();
}

#[test]
fn a_signature_is_the_code_in_base64(rt: HostRuntime) -> Result<(), Fail> {
    let wanted = "W9zBRr9gdU5qBCQmCJV1x1oAPwidJzmDnexYuWTsOEM=";
    let text = sign(rt.alloc(), b"Jefe", b"what do ya want for nothing?")?;
    assert_eq!(rt; text.as_str(), wanted);
    let key = signing_key(&rt, rt.alloc(), b"Jefe");
    let text = key.sign(rt.alloc(), b"what do ya want for nothing?")?;
    assert_eq!(rt; text.as_str(), wanted);
    Ok(())
}

#[test]
fn keys_are_read(rt: HostRuntime) -> Result<(), Fail> {
    let table: [(&[u8], &[u8]); 3] = [(b"SmVmZQ==", b"Jefe"), (b"+/8=", b"\xfb\xff"), (b"", b"")];
    for (text, key) in table {
        let read = read_key(rt.alloc(), text)?;
        assert_eq!(rt; read.as_slice(), key, "{text:?}");
    }
    Ok(())
}

/// One pad is missing, all pads are missing, a space, the alphabet for addresses, and bits that are left over (RFC 4648,
/// sections 3 to 5).
#[test]
fn other_texts_are_not_keys(rt: HostRuntime) {
    for text in [
        b"SmVmZQ=".as_slice(),
        b"SmVmZQ",
        b"SmVm ZQ==",
        b"-_8=",
        b"SmVmZR==",
    ] {
        let fault = read_key(rt.alloc(), text).err();
        assert_eq!(rt; fault, Some(SecretFault::NotBase64), "{text:?}");
    }
}
