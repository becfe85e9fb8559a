//! Tokens beside their neighbours, and strings to sign with signatures that were made elsewhere.
use crate::sample_values::text;
use hmac_sign::{read_key, sign};
use sas_token::{Resource, TokenFault, read_token, token_string};
use stamp_types::{FieldList, Key};
use std::alloc::Global;
use std::process::Abort;

const EXPIRY: &str = "2012-10-01T13:00:00Z";

/// The parameters of a good token.
const GOOD: [(&str, &str); 7] = [
    ("sv", "2012-02-12"),
    ("sr", "b"),
    ("sp", "r"),
    ("st", "2012-10-01"),
    ("se", EXPIRY),
    ("si", "read-only"),
    ("sig", "c2lnbmF0dXJl"),
];

// The fault of a token that is good but for what it has under the name: these values. `None` if it is good.
fn fault_with(rt: &impl Abort, alloc: Global, name: &str, values: &[&[u8]]) -> Option<TokenFault> {
    let mut query = FieldList::new(alloc);
    for (other, value) in GOOD {
        if other != name {
            query
                .push(other.as_bytes(), value.as_bytes())
                .expect(rt, "memory");
        }
    }
    for value in values {
        query.push(name.as_bytes(), value).expect(rt, "memory");
    }
    read_token(&query).err()
}

#[test]
fn each_parameter_is_sent_once_at_most(rt: HostRuntime) {
    for (name, value) in GOOD {
        let once = fault_with(&rt, rt.alloc(), name, &[value.as_bytes()]);
        assert_eq!(rt; once, None, "{name} once");
        let same = fault_with(&rt, rt.alloc(), name, &[value.as_bytes(), value.as_bytes()]);
        assert_eq!(rt; same, Some(TokenFault::Twice), "{name} twice");
        let first = fault_with(&rt, rt.alloc(), name, &[b"", value.as_bytes()]);
        assert_eq!(rt; first, Some(TokenFault::Twice), "{name} empty first");
        let both = fault_with(&rt, rt.alloc(), name, &[b"", b""]);
        assert_eq!(rt; both, Some(TokenFault::Twice), "{name} empty twice");
    }
    let other = fault_with(&rt, rt.alloc(), "timeout", &[b"", b"30"]);
    assert_eq!(rt; other, None, "another parameter");
}

#[test]
fn some_parameters_may_be_left_out_or_empty(rt: HostRuntime) {
    for (name, absent, empty) in [
        ("sv", Some(TokenFault::Missing), Some(TokenFault::Version)),
        ("sr", Some(TokenFault::Missing), Some(TokenFault::Resource)),
        ("sig", Some(TokenFault::Missing), None),
        ("sp", None, None),
        ("st", None, None),
        ("se", None, None),
        ("si", None, None),
    ] {
        assert_eq!(rt;
            fault_with(&rt, rt.alloc(), name, &[]),
            absent,
            "{name} absent"
        );
        assert_eq!(rt;
            fault_with(&rt, rt.alloc(), name, &[b""]),
            empty,
            "{name} empty"
        );
    }
}

#[test]
fn values_are_read_beside_their_neighbours(rt: HostRuntime) {
    for (name, value, fault) in [
        ("sv", "2011-08-18", Some(TokenFault::Version)),
        ("sv", "2012-02-12 ", Some(TokenFault::Version)),
        ("sv", "2013-08-15", None),
        ("sv", "2014-02-14", Some(TokenFault::Version)),
        ("rsct", "a\nb", None),
        ("sr", "c", None),
        ("sr", "B", Some(TokenFault::Resource)),
        ("sr", "bc", Some(TokenFault::Resource)),
        ("sp", "rr", Some(TokenFault::Letters)),
        ("sp", "wr", Some(TokenFault::Letters)),
        ("sp", "R", Some(TokenFault::Letters)),
        ("sp", "rx", Some(TokenFault::Letters)),
        ("st", "2012-10-01T12:00Z", None),
        ("st", "2012-10-01T12:00:00.0000001Z", None),
        (
            "st",
            "2012-10-01T12:00:00.00000001Z",
            Some(TokenFault::Time),
        ),
        ("se", "2012-10-01", None),
        ("se", "2012-10-01T12:00:00", Some(TokenFault::Time)),
        ("se", "2012-02-30", Some(TokenFault::Time)),
        ("si", "a\nb", None),
    ] {
        let found = fault_with(&rt, rt.alloc(), name, &[value.as_bytes()]);
        assert_eq!(rt; found, fault, "{name}={value}");
    }
    assert_eq!(rt; fault_with(&rt, rt.alloc(), "si", &[b"\xff"]), None);
    assert_eq!(rt; fault_with(&rt, rt.alloc(), "si", &[&[b'a'; 65]]), None);
}

// Names and values of parameters.
type Query = &'static [(&'static str, &'static str)];

// Queries with two faults or more, and the fault that is named: the first of them in the order of docs/formats/tokens.md.
fn faulty() -> [(Query, TokenFault); 7] {
    [
        (&[("sr", "a"), ("sr", "a")], TokenFault::Twice),
        (&[("sv", ""), ("sr", "a")], TokenFault::Missing),
        (&[("sv", ""), ("sr", "a"), ("sig", "")], TokenFault::Version),
        (
            &[("sv", "2012-02-12"), ("sr", "a"), ("sig", ""), ("sp", "a")],
            TokenFault::Resource,
        ),
        (
            &[
                ("sv", "2012-02-12"),
                ("sr", "b"),
                ("sig", ""),
                ("sp", "a"),
                ("st", "a"),
            ],
            TokenFault::Letters,
        ),
        (
            &[
                ("sv", "2013-08-15"),
                ("sr", "a"),
                ("sig", ""),
                ("rsct", "a"),
                ("rsct", ""),
            ],
            TokenFault::Twice,
        ),
        (
            &[
                ("sv", "2013-08-15"),
                ("sr", "b"),
                ("sig", ""),
                ("rscl", "a\nb"),
            ],
            TokenFault::Header,
        ),
    ]
}

// The fault of a query of these parameters.
fn fault_of(rt: &impl Abort, alloc: Global, parameters: Query) -> Option<TokenFault> {
    let mut query = FieldList::new(alloc);
    for (name, value) in parameters {
        query
            .push(name.as_bytes(), value.as_bytes())
            .expect(rt, "memory");
    }
    read_token(&query).err()
}

#[test]
fn the_first_of_two_faults_is_named(rt: HostRuntime) {
    for (parameters, fault) in faulty() {
        let found = fault_of(&rt, rt.alloc(), parameters);
        assert_eq!(rt; found, Some(fault), "{fault:?}");
    }
}

#[test]
fn the_fifteen_texts_of_letters_are_read(rt: HostRuntime) {
    for letters in [
        "r", "w", "d", "l", "rw", "rd", "rl", "wd", "wl", "dl", "rwd", "rwl", "rdl", "wdl", "rwdl",
    ] {
        let fault = fault_with(&rt, rt.alloc(), "sp", &[letters.as_bytes()]);
        assert_eq!(rt; fault, None, "{letters}");
    }
}

/// A token, the resource that it is for, the key in Base64, the version with what it overrides, and the signature of the string.
#[derive(Clone, Copy)]
struct Signed {
    secret: &'static str,
    account: &'static str,
    container: &'static str,
    blob: Option<&'static str>,
    permissions: &'static str,
    start: &'static str,
    expiry: &'static str,
    id: &'static str,
    version: &'static [(&'static str, &'static str)],
    signature: &'static str,
}

const KEY1: &str = "a2V5MQ==";
// The public key of Azure's emulator.
const EMULATOR: &str =
    "Eby8vdM02xNOcqFlqUwJPLlmEtlCDXJ1OUzFT50uSRZ6IFsuFq2UVErCz4I6tq/K1SZFPTOtr/KBHBeksoGMGw==";

const START: &str = "2012-10-01T00:00:00Z";

const LATE: &str = "2099-10-01T00:00:00Z";

const PICS: Signed = Signed {
    secret: KEY1,
    account: "devstoreaccount1",
    container: "pics",
    blob: None,
    permissions: "",
    start: "",
    expiry: "",
    id: "",
    version: &[("sv", "2012-02-12")],
    signature: "",
};

// The first rows were signed with openssl, and the last three by Azure's clients.
fn rows() -> [Signed; 11] {
    [
        Signed {
            blob: Some("a.txt"),
            permissions: "r",
            expiry: EXPIRY,
            signature: "/pBX2z6ZAz3Vfm5I/v36IJDo956LK+rZZR6bLQuIrbY=",
            ..PICS
        },
        Signed {
            blob: Some("d/1 &"),
            permissions: "r",
            expiry: EXPIRY,
            signature: "lMkrNmBdCQRLJtnbqAsq4sUxB25ELZOc804TW66Cn1w=",
            ..PICS
        },
        Signed {
            id: "read-only",
            signature: "l6iMJKHOWWKvcTJSi9J0FXuod06eRJeMlrXBAmczze8=",
            ..PICS
        },
        Signed {
            id: "read-only",
            expiry: EXPIRY,
            signature: "X/1Y7ux30Ikq0z/ia8pM1SE7EwVjG++3lCmG9vvZevE=",
            ..PICS
        },
        Signed {
            id: "read-only",
            start: "2012-10-01T11:00:00Z",
            signature: "kwmhrIQl9WR+Ncr5FkVzKDmpXMtgPdPmBhc0+5taMmc=",
            ..PICS
        },
        Signed {
            blob: Some("a.txt"),
            permissions: "r",
            expiry: EXPIRY,
            version: &[("sv", "2013-08-15")],
            signature: "lMkd16+A6PKKSTcUPhTuDvyCAzs6SjCQ3av88/rgCY0=",
            ..PICS
        },
        Signed {
            blob: Some("a.txt"),
            permissions: "r",
            expiry: EXPIRY,
            version: &[
                ("sv", "2013-08-15"),
                ("rscd", "attachment"),
                ("rsct", "text/plain"),
            ],
            signature: "hc+B0rnkvoPs2L2tzREa/RN8R0vrKdQ/unMiKEeyJp8=",
            ..PICS
        },
        Signed {
            id: "read-only",
            version: &[
                ("sv", "2013-08-15"),
                ("rscc", "no-cache"),
                ("rscd", "inline"),
                ("rsce", "gzip"),
                ("rscl", "de"),
                ("rsct", "text/css"),
            ],
            signature: "4nUiKcfsC2f2XeixMREbwmr9HhkrSye5v2Ba6x0VQCU=",
            ..PICS
        },
        Signed {
            secret: EMULATOR,
            container: "go23777",
            blob: Some("a b.txt"),
            permissions: "rwd",
            start: START,
            expiry: LATE,
            signature: "u7mjzBkreYvisGxzmpJYNYwNtM4Usmh/Sa48FpbppBQ=",
            ..PICS
        },
        Signed {
            secret: EMULATOR,
            container: "az23971",
            permissions: "wd",
            start: START,
            expiry: LATE,
            signature: "fho5eVfOYszblDjWTDULEO0lz/5q0UxUGzXvjOCFGco=",
            ..PICS
        },
        Signed {
            secret: EMULATOR,
            container: "pm24105",
            id: "readers",
            signature: "88qKErTNKD1Azo/U2r2xKA0FXTYXFCgFID7nfj8DUz0=",
            ..PICS
        },
    ]
}

// The signature of the string of a token.
fn signature_of(rt: &impl Abort, alloc: Global, row: &Signed) -> String {
    let mut query = FieldList::new(alloc);
    for (name, value) in [
        ("sr", if row.blob.is_some() { "b" } else { "c" }),
        ("sp", row.permissions),
        ("st", row.start),
        ("se", row.expiry),
        ("si", row.id),
        ("sig", ""),
    ] {
        query
            .push(name.as_bytes(), value.as_bytes())
            .expect(rt, "memory");
    }
    for (name, value) in row.version {
        query
            .push(name.as_bytes(), value.as_bytes())
            .expect(rt, "memory");
    }
    let key = Key {
        account: text(rt, alloc, row.account),
        container: text(rt, alloc, row.container),
    };
    let blob = text(rt, alloc, row.blob.unwrap_or(""));
    let name = if row.blob.is_some() {
        Some(&blob)
    } else {
        None
    };
    let token = read_token(&query).expect(rt, "a token");
    let is_named = match token.resource {
        Resource::Blob => name.is_some(),
        Resource::Container => true,
    };
    assert!(rt; is_named, "a blob's name");
    assert!(rt; !key.container.as_str().is_empty(), "a container");
    let string = token_string(alloc, &token, &key, name).expect(rt, "memory");
    let secret = read_key(alloc, row.secret.as_bytes()).expect(rt, "a key");
    sign(alloc, &secret, &string).expect(rt, "memory")
}

#[test]
fn strings_have_signatures_that_were_made_elsewhere(rt: HostRuntime) {
    for row in rows().iter() {
        let signature = signature_of(&rt, rt.alloc(), row);
        assert_eq!(rt; signature.as_str(), row.signature);
    }
}
