//! The container that is made before a case begins.

use crate::clock::Moments;
use access_rules::Keys;
use http_front::{Connection, End, Service, run};
use moment_text::write_http;
use stamp_types::Moment;
use std::alloc::{AllocError, Global};

/// How many reads are enough for the request that makes the container.
const READS: u64 = 8;

/// How the reply begins if the container was made.
const CREATED: &[u8] = b"HTTP/1.1 201 Created\r\n";

// The string to sign of the request that makes the container (docs/formats/strings-to-sign.md).
fn string_to_sign(alloc: Global, account: &[u8], date: &[u8]) -> Result<Vec<u8>, AllocError> {
    [
        b"PUT\n\n\n0\n\n\n\n\n\n\n\n\nx-ms-date:".as_slice(),
        date,
        b"\n/",
        account,
        b"/",
        account,
        b"/pics\nrestype:container",
    ]
    .concat(alloc)
}

// A Create Container of `pics`, dated by the moment and signed by the first key.
fn creation(alloc: Global, keys: &Keys, moment: Moment) -> Result<Vec<u8>, AllocError> {
    let account = keys.account.as_str().as_bytes();
    let date = write_http(moment);
    let signed = string_to_sign(alloc, account, &date)?;
    let signature = keys.first.sign(alloc, &signed)?;
    [
        b"PUT /".as_slice(),
        account,
        b"/pics?restype=container HTTP/1.1\r\nContent-Length: 0\r\nx-ms-date: ",
        &date,
        b"\r\nAuthorization: SharedKey ",
        account,
        b":",
        signature.as_bytes(),
        b"\r\n\r\n",
    ]
    .concat(alloc)
}

/// Sends the request that makes the container `pics`, and says whether the container was made.
pub(crate) fn make_container<S: Service>(
    alloc: Global,
    service: &mut S,
    keys: &Keys,
    moment: Moment,
) -> Result<bool, AllocError> {
    let request = creation(alloc, keys, moment)?;
    let mut connection = Connection::new(alloc, request.as_slice(), Vec::new(alloc), READS);
    let mut clock = Moments {
        left: &[],
        last: moment,
    };
    let ended = run(alloc, &mut connection, &mut clock, service);
    let (_, written) = connection.into_parts();
    Ok(ended == Ok(End::Clean) && written.starts_with(CREATED))
}
