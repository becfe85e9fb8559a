//! What is sent to slots. The signatures were made outside of this repository's code.

/// A Create Container of `pics`.
pub(crate) const CREATE: &[u8] =
    b"PUT /devstoreaccount1/pics?restype=container HTTP/1.1\r\nx-ms-date: Mon, 01 Oct 2012 12:00:00 GMT\r\nx-ms-version: 2012-02-12\r\nContent-Length: 0\r\nAuthorization: SharedKey devstoreaccount1:/Zt/M8NwlklmDGB00sttbyo87McxrIOvJXhMqumuXk0=\r\n\r\n";

/// A Delete Container of `pics`.
pub(crate) const DELETE_CONTAINER: &[u8] =
    b"DELETE /devstoreaccount1/pics?restype=container HTTP/1.1\r\nx-ms-date: Mon, 01 Oct 2012 12:00:00 GMT\r\nx-ms-version: 2012-02-12\r\nContent-Length: 0\r\nAuthorization: SharedKey devstoreaccount1:MFxtT0D5CzNluHCVWdBSStFT4XWYpr8nTWrSQe47Df4=\r\n\r\n";

/// A Put Blob of `hello` as `a.txt`.
pub(crate) const PUT: &[u8] =
    b"PUT /devstoreaccount1/pics/a.txt HTTP/1.1\r\nx-ms-date: Mon, 01 Oct 2012 12:00:00 GMT\r\nx-ms-version: 2012-02-12\r\nContent-Length: 5\r\nx-ms-blob-type: BlockBlob\r\nAuthorization: SharedKey devstoreaccount1:d6Z+te/s0/4E59HxWmnrHiDmMywuU/tdYZOanDvfbmU=\r\n\r\nhello";

/// The head of this Put Blob.
pub(crate) const PUT_HEAD: &[u8] =
    b"PUT /devstoreaccount1/pics/a.txt HTTP/1.1\r\nx-ms-date: Mon, 01 Oct 2012 12:00:00 GMT\r\nx-ms-version: 2012-02-12\r\nContent-Length: 5\r\nx-ms-blob-type: BlockBlob\r\nAuthorization: SharedKey devstoreaccount1:d6Z+te/s0/4E59HxWmnrHiDmMywuU/tdYZOanDvfbmU=\r\n\r\n";

/// A Get Blob of `a.txt`.
pub(crate) const GET: &[u8] =
    b"GET /devstoreaccount1/pics/a.txt HTTP/1.1\r\nx-ms-date: Mon, 01 Oct 2012 12:00:00 GMT\r\nx-ms-version: 2012-02-12\r\nAuthorization: SharedKey devstoreaccount1:1faO58/enDoA9unDNvD2pMLw3jmfkbnVyTRBzimElkI=\r\n\r\n";

/// A Put Block of `abc` for `b.txt`.
pub(crate) const PUT_BLOCK: &[u8] =
    b"PUT /devstoreaccount1/pics/b.txt?comp=block&blockid=YQ== HTTP/1.1\r\nx-ms-date: Mon, 01 Oct 2012 12:00:00 GMT\r\nx-ms-version: 2012-02-12\r\nContent-Length: 3\r\nAuthorization: SharedKey devstoreaccount1:mGaeRCpfCQhrdzX3Kyq/wROvGOHP/jLt7OtLuEdroc8=\r\n\r\nabc";

/// A Put Block List of this block.
pub(crate) const PUT_LIST: &[u8] =
    b"PUT /devstoreaccount1/pics/b.txt?comp=blocklist HTTP/1.1\r\nx-ms-date: Mon, 01 Oct 2012 12:00:00 GMT\r\nx-ms-version: 2012-02-12\r\nContent-Length: 44\r\nAuthorization: SharedKey devstoreaccount1:LUCJ+fofj7DfK/+gTaA/TYFBIOdOaYZaYLC+4se6A1o=\r\n\r\n<BlockList><Latest>YQ==</Latest></BlockList>";

/// A Get Blob of `b.txt`.
pub(crate) const GET_B: &[u8] =
    b"GET /devstoreaccount1/pics/b.txt HTTP/1.1\r\nx-ms-date: Mon, 01 Oct 2012 12:00:00 GMT\r\nx-ms-version: 2012-02-12\r\nAuthorization: SharedKey devstoreaccount1:VRKhWSQKPq1NdcdB79F1CCPluFUwV4ji4iQT0W4hppo=\r\n\r\n";

/// A Create Container of `video`.
pub(crate) const CREATE_LATER: &[u8] =
    b"PUT /devstoreaccount1/video?restype=container HTTP/1.1\r\nx-ms-date: Mon, 01 Oct 2012 12:00:00 GMT\r\nx-ms-version: 2012-02-12\r\nContent-Length: 0\r\nAuthorization: SharedKey devstoreaccount1:kx1zgzUxFzlAGzGaR53Q87/mltLltNtUxWonRZt05T4=\r\n\r\n";

/// A List Containers.
pub(crate) const LIST: &[u8] =
    b"GET /devstoreaccount1?comp=list HTTP/1.1\r\nx-ms-date: Mon, 01 Oct 2012 12:00:00 GMT\r\nx-ms-version: 2012-02-12\r\nAuthorization: SharedKey devstoreaccount1:Qn5DPAaSbTJJRqqtTEXcD/3lQO1eF5zLLQ+cUpoKtdk=\r\n\r\n";

/// A Set Container ACL of `pics` with the policy `read-only`.
pub(crate) const PUT_POLICY: &[u8] =
    b"PUT /devstoreaccount1/pics?restype=container&comp=acl HTTP/1.1\r\nContent-Length: 186\r\nx-ms-date: Mon, 01 Oct 2012 12:00:00 GMT\r\nx-ms-version: 2012-02-12\r\nAuthorization: SharedKey devstoreaccount1:OIKx22LwhURhKdZrLBXKa48AwK+SLX42UTiOz+7DZsw=\r\n\r\n<SignedIdentifiers><SignedIdentifier><Id>read-only</Id><AccessPolicy><Expiry>2012-10-01T13:00:00Z</Expiry><Permission>r</Permission></AccessPolicy></SignedIdentifier></SignedIdentifiers>";

/// A Set Container ACL of `pics` without policies.
pub(crate) const WITHDRAW: &[u8] =
    b"PUT /devstoreaccount1/pics?restype=container&comp=acl HTTP/1.1\r\nContent-Length: 0\r\nx-ms-date: Mon, 01 Oct 2012 12:00:00 GMT\r\nx-ms-version: 2012-02-12\r\nAuthorization: SharedKey devstoreaccount1:W+8sKF0BYG5+AnCX2tlb31qerovb9ZR6ZkTpHcwPzG8=\r\n\r\n";

/// A Get Blob of `a.txt` by a token of the policy.
pub(crate) const GET_BY_POLICY: &[u8] =
    b"GET /devstoreaccount1/pics/a.txt?sv=2012-02-12&sr=c&si=read-only&sig=l6iMJKHOWWKvcTJSi9J0FXuod06eRJeMlrXBAmczze8%3D HTTP/1.1\r\nx-ms-version: 2012-02-12\r\n\r\n";

/// A Create Container of `alpha`.
pub(crate) const CREATE_EARLIER: &[u8] =
    b"PUT /devstoreaccount1/alpha?restype=container HTTP/1.1\r\nx-ms-date: Mon, 01 Oct 2012 12:00:00 GMT\r\nx-ms-version: 2012-02-12\r\nContent-Length: 0\r\nAuthorization: SharedKey devstoreaccount1:AjuhwN24rhnM+IAQ2U+Uj+8j+CnCLAvL08/qyIHwRJI=\r\n\r\n";

/// A List Containers from `m` on.
pub(crate) const LIST_FROM_M: &[u8] =
    b"GET /devstoreaccount1?comp=list&marker=m HTTP/1.1\r\nx-ms-date: Mon, 01 Oct 2012 12:00:00 GMT\r\nx-ms-version: 2012-02-12\r\nAuthorization: SharedKey devstoreaccount1:WXs6jnURtwW1GjbJ6pn+AyDYl+GGM4qgbfsLvSpnFx4=\r\n\r\n";

/// The Put Blob of `hello` as `a.txt`, signed by the key `new1`, which no pair of a slot has.
pub(crate) const PUT_BY_NEW: &[u8] =
    b"PUT /devstoreaccount1/pics/a.txt HTTP/1.1\r\nx-ms-date: Mon, 01 Oct 2012 12:00:00 GMT\r\nx-ms-version: 2012-02-12\r\nContent-Length: 5\r\nx-ms-blob-type: BlockBlob\r\nAuthorization: SharedKey devstoreaccount1:68RPmJw/K+rl99IL8yyuYZ68h8m7TIwNAvUdxd/H3t0=\r\n\r\nhello";

/// A Create Container of `pics` in another account.
pub(crate) const CREATE_OF_GUEST: &[u8] =
    b"PUT /guestaccount/pics?restype=container HTTP/1.1\r\nx-ms-date: Mon, 01 Oct 2012 12:00:00 GMT\r\nx-ms-version: 2012-02-12\r\nContent-Length: 0\r\nAuthorization: SharedKey guestaccount:igqCaGnBBtSQ8634DpTUjYRF9vOoQEVZ5QjlfQxrIu0=\r\n\r\n";

/// A Get Blob in an account that no slot has.
pub(crate) const GET_OF_NOBODY: &[u8] =
    b"GET /nobody/pics/a.txt HTTP/1.1\r\nx-ms-date: Mon, 01 Oct 2012 12:00:00 GMT\r\nx-ms-version: 2012-02-12\r\nAuthorization: SharedKey nobody:KlhF5dX0WqZhPHZKilEc2YpF1MvobJqOsvdwjC5jPa4=\r\n\r\n";

/// What the reply to a request that made something begins with.
pub(crate) const CREATED: &[u8] = b"HTTP/1.1 201 Created\r\n";

/// What the reply begins with if the container or the blob does not exist.
pub(crate) const MISSING: &[u8] = b"HTTP/1.1 404 Not Found\r\n";
