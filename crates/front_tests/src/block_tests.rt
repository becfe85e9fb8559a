//! What heads about blocks ask for: ids of blocks, kinds of blocks, kept headers of a block list, and how long a body may be.

use crate::test_heads::request;
use request_form::{HeadFault, read_head};
use stamp_types::{Args, BlockKinds, Code, Condition, Kept, Rule};
use std::alloc::Global;
use std::process::Abort;

// The rule and the code that refuse a head, if a rule refuses it.
fn refusal(rt: &impl Abort, alloc: Global, start: &str, lines: &str) -> Option<(Rule, Code)> {
    request(rt, alloc, start, lines).err()
}

// Whether the id of a block is this text, or no id comes with the request.
fn is_id(args: &Args, wanted: Option<&[u8]>) -> bool {
    match (&args.block, wanted) {
        (None, None) => true,
        (Some(id), Some(wanted)) => id.as_slice() == wanted,
        _ => false,
    }
}

// Whether this id comes with a request, and no kinds of blocks.
fn has_id_alone(args: &Args, wanted: &[u8]) -> bool {
    is_id(args, Some(wanted)) && args.kinds.is_none()
}

// Whether a Put Block has this id, and no kinds of blocks.
fn has_id(rt: &impl Abort, alloc: Global, start: &str, wanted: &[u8]) -> bool {
    match request(rt, alloc, start, "\r\nContent-Length: 0") {
        Ok(request) => has_id_alone(&request.ask().args, wanted),
        Err(_) => false,
    }
}

#[test]
fn ids_of_blocks(rt: HostRuntime) {
    let rows: [(&str, &[u8]); 6] = [
        ("PUT /acct/box/b?comp=block&blockid=YQ== HTTP/1.1", b"a"),
        ("PUT /acct/box/b?blockid=YQ%3D%3D&comp=block HTTP/1.1", b"a"),
        (
            "PUT /acct/box/b?comp=block&BlockID=AAEC HTTP/1.1",
            &[0, 1, 2],
        ),
        (
            "PUT /acct/box/b?comp=block&blockid=%2B/8= HTTP/1.1",
            &[251, 255],
        ),
        (
            "PUT /acct/box/b?comp=block&blocklisttype=all&blockid=Kg== HTTP/1.1",
            b"*",
        ),
        (
            "PUT /acct/box/b?comp=block&blockid=AAAAAAAAAAAAAAAAAAAAAAAAAAAAAAAAAAAAAAAAAAAAAAAAAAAAAAAAAAAAAAAAAAAAAAAAAAAAAAAAAAAAAA== HTTP/1.1",
            &[0; 64],
        ),
    ];
    for (start, wanted) in rows {
        assert!(rt; has_id(&rt, rt.alloc(), start, wanted), "of {start}");
    }
}

#[test]
fn ids_that_are_not_the_ids_of_blocks(rt: HostRuntime) {
    let rows = [
        "PUT /acct/box/b?comp=block HTTP/1.1",
        "PUT /acct/box/b?comp=block&blockid HTTP/1.1",
        "PUT /acct/box/b?comp=block&blockid= HTTP/1.1",
        "PUT /acct/box/b?comp=block&blockid=YQ HTTP/1.1",
        "PUT /acct/box/b?comp=block&blockid=YR== HTTP/1.1",
        "PUT /acct/box/b?comp=block&blockid=_/8= HTTP/1.1",
        "PUT /acct/box/b?comp=block&blockid=YQ==%0A HTTP/1.1",
        "PUT /acct/box/b?comp=block&blockid=YQ==&blockid=YQ== HTTP/1.1",
        "PUT /acct/box/b?comp=block&blockid=YQ==&blocklisttype=none HTTP/1.1",
        "PUT /acct/box/b?comp=block&blockid=AAAAAAAAAAAAAAAAAAAAAAAAAAAAAAAAAAAAAAAAAAAAAAAAAAAAAAAAAAAAAAAAAAAAAAAAAAAAAAAAAAAAAAA= HTTP/1.1",
        "PUT /acct/box/b?comp=metadata&blockid=YQ HTTP/1.1",
    ];
    for start in rows {
        let refused = refusal(&rt, rt.alloc(), start, "\r\nContent-Length: 0");
        assert!(rt;
            refused == Some((Rule::F3, Code::InvalidQueryParameterValue)),
            "of {start}"
        );
    }
}

// The kinds of blocks that come with a request, if no rule refuses its head and no id comes with it.
fn kinds(rt: &impl Abort, alloc: Global, start: &str) -> Option<BlockKinds> {
    match request(rt, alloc, start, " HTTP/1.1") {
        Ok(request) if is_id(&request.ask().args, None) => request.ask().args.kinds,
        _ => None,
    }
}

#[test]
fn kinds_of_blocks(rt: HostRuntime) {
    let rows = [
        ("GET /acct/box/b?comp=blocklist", BlockKinds::Committed),
        (
            "GET /acct/box/b?comp=blocklist&blocklisttype=committed",
            BlockKinds::Committed,
        ),
        (
            "GET /acct/box/b?comp=blocklist&blocklisttype=uncommitted",
            BlockKinds::Uncommitted,
        ),
        (
            "GET /acct/box/b?blocklisttype=%61ll&comp=blocklist&blockid=YQ==",
            BlockKinds::All,
        ),
    ];
    for (start, wanted) in rows {
        assert!(rt; kinds(&rt, rt.alloc(), start) == Some(wanted), "of {start}");
    }
}

#[test]
fn values_that_do_not_name_kinds_of_blocks(rt: HostRuntime) {
    let rows = [
        "GET /acct/box/b?comp=blocklist&blocklisttype",
        "GET /acct/box/b?comp=blocklist&blocklisttype=",
        "GET /acct/box/b?comp=blocklist&blocklisttype=All",
        "GET /acct/box/b?comp=blocklist&blocklisttype=all%20",
        "GET /acct/box/b?comp=blocklist&blocklisttype=latest",
        "GET /acct/box/b?comp=blocklist&blocklisttype=all&blocklisttype=all",
        "GET /acct/box/b?comp=blocklist&blockid=YQ",
        "GET /acct/box/b?blocklisttype=some",
        "HEAD /acct/box/b?comp=blocklist&blocklisttype=all",
    ];
    for start in rows {
        let refused = refusal(&rt, rt.alloc(), start, " HTTP/1.1");
        assert!(rt;
            refused == Some((Rule::F3, Code::InvalidQueryParameterValue)),
            "of {start}"
        );
    }
}

// Whether neither an id nor kinds of blocks come with a request.
fn has_no_id_or_kinds(args: &Args) -> bool {
    is_id(args, None) && args.kinds.is_none()
}

// Whether no rule refuses a head, and neither an id nor kinds of blocks come with its request.
fn has_no_blocks(rt: &impl Abort, alloc: Global, start: &str) -> bool {
    match request(rt, alloc, start, " HTTP/1.1") {
        Ok(request) => has_no_id_or_kinds(&request.ask().args),
        Err(_) => false,
    }
}

#[test]
fn parameters_of_blocks_on_other_operations(rt: HostRuntime) {
    let rows = [
        "GET /acct/box/b?blockid=YQ==&blocklisttype=all",
        "HEAD /acct/box/b?comp=metadata&blockid=YQ==&blocklisttype=all",
    ];
    for start in rows {
        assert!(rt; has_no_blocks(&rt, rt.alloc(), start), "of {start}");
    }
}

const LIST: &str = "PUT /acct/box/b?comp=blocklist HTTP/1.1\r\nContent-Length: 0\r\n";

// Whether these are the texts that are kept, and an MD5 is kept.
fn are_kept(kept: &Kept, encoding: &str, cache_control: &str) -> bool {
    kept.content_type.as_str() == ""
        && kept.encoding.as_str() == encoding
        && kept.language.as_str() == ""
        && kept.cache_control.as_str() == cache_control
        && kept.md5.is_some()
}

// Whether these texts are kept with one name of metadata, if any blob exists.
fn keeps(args: &Args, encoding: &str, cache_control: &str) -> bool {
    match &args.kept {
        Some(kept) => {
            are_kept(kept, encoding, cache_control)
                && args.metadata.as_slice().len() == 1
                && args.if_match == Some(Condition::Any)
        }
        None => false,
    }
}

#[test]
fn headers_that_a_block_list_keeps(rt: HostRuntime) {
    let lines =
        "Content-Type: a/b\r\nContent-Encoding: gzip\r\nContent-Language: \u{e9}\r\nCache-Control: \u{e9}\r\nx-ms-blob-content-encoding: br\r\nx-ms-blob-cache-control: no\r\nx-ms-blob-content-md5: XUFAKrxLKna5cZ2REBfFkg==\r\nx-ms-meta-Color: red\r\nIf-Match: *";
    let list = request(&rt, rt.alloc(), LIST, lines).expect(&rt, "a head");
    assert!(rt; keeps(&list.ask().args, "br", "no"));
}

#[test]
fn values_that_a_block_list_does_not_keep(rt: HostRuntime) {
    let value = (Rule::F7, Code::InvalidHeaderValue);
    let metadata = (Rule::F7, Code::InvalidMetadata);
    let rows = [
        ("x-ms-blob-content-type: \u{e9}", value),
        (
            "x-ms-blob-cache-control: a\r\nx-ms-blob-cache-control: a",
            value,
        ),
        ("x-ms-blob-content-md5: XUFAKrxLKna5cZ2REBfF", value),
        ("Content-Type: a/b\r\nContent-Type: a/b", value),
        ("If-None-Match: a", value),
        ("x-ms-meta-a: \u{e9}", metadata),
        ("x-ms-meta-1: a", metadata),
    ];
    for (lines, wanted) in rows {
        assert!(rt;
            refusal(&rt, rt.alloc(), LIST, lines) == Some(wanted),
            "of {lines}"
        );
    }
}

const BLOCK: &str = "PUT /acct/box/b?comp=block&blockid=YQ== HTTP/1.1\r\nContent-Length: 0\r\n";

const SHOWN: &str = "GET /acct/box/b?comp=blocklist HTTP/1.1\r\n";

// Whether neither kept headers nor metadata, a range or a level come with a request.
fn has_no_header(args: &Args) -> bool {
    args.kept.is_none()
        && args.metadata.as_slice().is_empty()
        && args.range.is_none()
        && args.level.is_none()
}

#[test]
fn what_has_no_effect_on_a_block(rt: HostRuntime) {
    let lines =
        "x-ms-blob-content-type: \u{e9}\r\nContent-Type: \u{e9}\r\nx-ms-meta-a: \u{e9}\r\nx-ms-blob-type: PageBlob\r\nRange: bytes=0-1";
    let put = request(&rt, rt.alloc(), BLOCK, lines).expect(&rt, "a head");
    assert!(rt; has_no_header(&put.ask().args));
    let shown = request(&rt, rt.alloc(), SHOWN, lines).expect(&rt, "a head");
    assert!(rt; has_no_header(&shown.ask().args));
}

#[test]
fn what_is_judged_on_a_block(rt: HostRuntime) {
    let unserved = (Rule::F6, Code::UnsupportedHeader);
    let rows = [
        ("If-Match: *", unserved),
        ("If-None-Match: *", unserved),
        ("x-ms-meta-1: a", (Rule::F7, Code::InvalidMetadata)),
        ("Content-MD5: a", (Rule::F7, Code::InvalidHeaderValue)),
    ];
    for (lines, wanted) in rows {
        let put = refusal(&rt, rt.alloc(), BLOCK, lines);
        assert!(rt; put == Some(wanted), "of {lines}");
        let shown = refusal(&rt, rt.alloc(), SHOWN, lines);
        assert!(rt; shown == Some(wanted), "of {lines}, to show blocks");
    }
}

// How long the body is, or the rule that refuses the head.
fn body_len(alloc: Global, text: &str) -> Result<u64, Option<Rule>> {
    match read_head(alloc, text.as_bytes()) {
        Ok(head) => Ok(head.body_len()),
        Err(HeadFault::Denied(denial)) => Err(Some(denial.rule)),
        Err(HeadFault::NoMemory) => Err(None),
    }
}

#[test]
fn how_long_a_body_may_be(rt: HostRuntime) {
    let rows = [
        (
            "PUT /acct/box/b?comp=block&blockid=YQ== HTTP/1.1\r\nContent-Length: 4194304\r\n\r\n",
            Ok(4_194_304),
        ),
        (
            "PUT /acct/box/b?comp=block&blockid=YQ== HTTP/1.1\r\nContent-Length: 4194305\r\n\r\n",
            Err(Some(Rule::F8)),
        ),
        (
            "PUT /acct/box/b?comp=blocklist HTTP/1.1\r\nContent-Length: 8388608\r\n\r\n",
            Ok(8_388_608),
        ),
        (
            "PUT /acct/box/b?comp=blocklist HTTP/1.1\r\nContent-Length: 8388609\r\n\r\n",
            Err(Some(Rule::F8)),
        ),
        (
            "GET /acct/box/b?comp=blocklist HTTP/1.1\r\nContent-Length: 1048576\r\n\r\n",
            Ok(1_048_576),
        ),
        (
            "GET /acct/box/b?comp=blocklist HTTP/1.1\r\nContent-Length: 1048577\r\n\r\n",
            Err(Some(Rule::F8)),
        ),
    ];
    for (text, wanted) in rows {
        assert!(rt; body_len(rt.alloc(), text) == wanted, "of {text}");
    }
}
