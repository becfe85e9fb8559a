//! Which page of names a head asks for, beside parameters that are refused.

use crate::test_heads::request;
use request_form::{HeadFault, read_head};
use stamp_types::{Args, Code, Page, Rule, Text};
use std::alloc::Global;
use std::process::Abort;

const CONTAINERS: &str = "GET /acct?comp=list";

const BLOBS: &str = "GET /acct/box?restype=container&comp=list";

// Whether the text is this text, or both are missing.
fn is_text(text: &Option<Text>, wanted: Option<&str>) -> bool {
    match (text, wanted) {
        (None, None) => true,
        (Some(text), Some(wanted)) => text.as_str() == wanted,
        _ => false,
    }
}

// The texts of a page in the order prefix, delimiter, marker.
type Texts<'a> = [Option<&'a str>; 3];

fn has_texts(page: &Page, wanted: Texts<'_>) -> bool {
    is_text(&page.prefix, wanted[0])
        && is_text(&page.delimiter, wanted[1])
        && is_text(&page.marker, wanted[2])
}

// Whether a page comes with a request, and this is the page.
fn has_page(args: &Args, texts: Texts<'_>, max: u32, metadata: bool) -> bool {
    match &args.page {
        Some(page) => has_texts(page, texts) && page.max == max && page.metadata == metadata,
        None => false,
    }
}

// Whether no rule refuses a head, and its request asks for this page.
fn asks(
    rt: &impl Abort,
    alloc: Global,
    start: &str,
    query: &str,
    wanted: (Texts<'_>, u32, bool),
) -> bool {
    match request(rt, alloc, start, query) {
        Ok(request) => has_page(&request.ask().args, wanted.0, wanted.1, wanted.2),
        Err(_) => false,
    }
}

const NONE: [Option<&str>; 3] = [None, None, None];

#[test]
fn texts_of_a_page(rt: HostRuntime) {
    let rows = [
        (" HTTP/1.1", NONE),
        ("&prefix=&delimiter=&marker= HTTP/1.1", NONE),
        ("&prefix&delimiter&marker HTTP/1.1", NONE),
        ("&prefix=a HTTP/1.1", [Some("a"), None, None]),
        ("&delimiter=/ HTTP/1.1", [None, Some("/"), None]),
        ("&marker=a HTTP/1.1", [None, None, Some("a")]),
        (
            "&MARKER=c&Delimiter=b&preFix=a HTTP/1.1",
            [Some("a"), Some("b"), Some("c")],
        ),
        (
            "&prefix=a%2Fb+c&delimiter=%20&marker=%C3%A9 HTTP/1.1",
            [Some("a/b+c"), Some(" "), Some("\u{e9}")],
        ),
    ];
    for (query, wanted) in rows {
        assert!(rt;
            asks(&rt, rt.alloc(), BLOBS, query, (wanted, 5_000, false)),
            "of {query}"
        );
    }
}

#[test]
fn numbers_of_names(rt: HostRuntime) {
    let rows = [
        ("&maxresults=1 HTTP/1.1", 1),
        ("&maxresults=0000000000000000001 HTTP/1.1", 1),
        ("&maxresults=4999 HTTP/1.1", 4_999),
        ("&maxresults=5000 HTTP/1.1", 5_000),
        ("&maxresults=5001 HTTP/1.1", 5_000),
        ("&maxresults=6000 HTTP/1.1", 5_000),
        ("&maxresults=4294967297 HTTP/1.1", 5_000),
        ("&maxresults=9999999999999999999 HTTP/1.1", 5_000),
    ];
    for (query, wanted) in rows {
        let page = (NONE, wanted, false);
        assert!(rt;
            asks(&rt, rt.alloc(), CONTAINERS, query, page),
            "of {query}"
        );
        assert!(rt;
            asks(&rt, rt.alloc(), BLOBS, query, page),
            "of {query}, of blobs"
        );
    }
}

#[test]
fn metadata_that_are_asked_for(rt: HostRuntime) {
    let rows = [
        ("&include HTTP/1.1", false),
        ("&include= HTTP/1.1", false),
        ("&include=metadata HTTP/1.1", true),
        ("&include=%6Detadata HTTP/1.1", true),
    ];
    for (query, wanted) in rows {
        let page = (NONE, 5_000, wanted);
        assert!(rt;
            asks(&rt, rt.alloc(), CONTAINERS, query, page),
            "of {query}"
        );
        assert!(rt;
            asks(&rt, rt.alloc(), BLOBS, query, page),
            "of {query}, of blobs"
        );
    }
}

#[test]
fn a_delimiter_of_containers_is_dropped(rt: HostRuntime) {
    let query = "&prefix=a&delimiter=/&marker=b&maxresults=2&include=metadata HTTP/1.1";
    let page = ([Some("a"), None, Some("b")], 2, true);
    assert!(rt; asks(&rt, rt.alloc(), CONTAINERS, query, page));
}

// The rule and the code that refuse a head, if a rule refuses it.
fn refusal(rt: &impl Abort, alloc: Global, start: &str, lines: &str) -> Option<(Rule, Code)> {
    request(rt, alloc, start, lines).err()
}

#[test]
fn parameters_of_pages_that_are_refused(rt: HostRuntime) {
    let rows = [
        "&maxresults=0 HTTP/1.1",
        "&maxresults=00 HTTP/1.1",
        "&maxresults= HTTP/1.1",
        "&maxresults HTTP/1.1",
        "&maxresults=+1 HTTP/1.1",
        "&maxresults=1%20 HTTP/1.1",
        "&maxresults=10000000000000000000 HTTP/1.1",
        "&maxresults=1&maxresults=1 HTTP/1.1",
        "&include=Metadata HTTP/1.1",
        "&include=snapshots HTTP/1.1",
        "&include=metadata&include=metadata HTTP/1.1",
        "&prefix=%01 HTTP/1.1",
        "&prefix=%FF HTTP/1.1",
        "&prefix=a&prefix=a HTTP/1.1",
        "&prefix=&prefix=a HTTP/1.1",
        "&delimiter=%0A HTTP/1.1",
        "&delimiter=/&delimiter=/ HTTP/1.1",
        "&marker=%7F HTTP/1.1",
        "&marker=%EF%BF%BE HTTP/1.1",
        "&marker=a&marker=b HTTP/1.1",
    ];
    for query in rows {
        let wanted = Some((Rule::F3, Code::InvalidQueryParameterValue));
        let containers = refusal(&rt, rt.alloc(), CONTAINERS, query);
        assert!(rt; containers == wanted, "of {query}");
        let blobs = refusal(&rt, rt.alloc(), BLOBS, query);
        assert!(rt; blobs == wanted, "of {query}, of blobs");
    }
}

// Whether no rule refuses a head, and no page comes with its request.
fn has_no_page(rt: &impl Abort, alloc: Global, start: &str) -> bool {
    match request(rt, alloc, start, " HTTP/1.1") {
        Ok(request) => request.ask().args.page.is_none(),
        Err(_) => false,
    }
}

#[test]
fn parameters_of_pages_on_other_operations(rt: HostRuntime) {
    let rows = [
        "GET /acct/box?restype=container&prefix=a&delimiter=/&marker=b&maxresults=2&include=metadata",
        "GET /acct/box/b?prefix=a&delimiter=/&marker=b&maxresults=2&include=metadata",
    ];
    for start in rows {
        assert!(rt; has_no_page(&rt, rt.alloc(), start), "of {start}");
    }
}

#[test]
fn what_is_judged_on_a_list(rt: HostRuntime) {
    let unserved = (Rule::F6, Code::UnsupportedHeader);
    let rows = [
        ("If-Match: *", unserved),
        ("If-None-Match: *", unserved),
        ("Content-Length: a", (Rule::F4, Code::InvalidHeaderValue)),
        ("x-ms-meta-1: a", (Rule::F7, Code::InvalidMetadata)),
    ];
    for (lines, wanted) in rows {
        let containers = refusal(&rt, rt.alloc(), "GET /acct?comp=list HTTP/1.1\r\n", lines);
        assert!(rt; containers == Some(wanted), "of {lines}");
        let start = "GET /acct/box?restype=container&comp=list HTTP/1.1\r\n";
        let blobs = refusal(&rt, rt.alloc(), start, lines);
        assert!(rt; blobs == Some(wanted), "of {lines}, of blobs");
    }
}

#[test]
fn names_that_a_list_needs(rt: HostRuntime) {
    let name = Some((Rule::F5, Code::InvalidResourceName));
    let rows = [
        ("GET /ac?comp=list", name),
        ("GET /ACCT?comp=list", name),
        ("GET //?comp=list", name),
        ("GET /acct/b?restype=container&comp=list", name),
        ("GET /ac/box?restype=container&comp=list", name),
        ("GET /acct/?comp=list", None),
        ("GET /acct/box/?restype=container&comp=list", None),
    ];
    for (start, wanted) in rows {
        assert!(rt;
            refusal(&rt, rt.alloc(), start, " HTTP/1.1") == wanted,
            "of {start}"
        );
    }
}

#[test]
fn what_a_list_of_containers_names(rt: HostRuntime) {
    let list = request(&rt, rt.alloc(), CONTAINERS, " HTTP/1.1").expect(&rt, "a head");
    assert!(rt; list.ask().key.account.as_str() == "acct");
    assert!(rt; list.ask().key.container.as_str() == "");
    assert!(rt; list.ask().blob.is_none());
}

// How long the body is, or the rule that refuses the head.
fn body_len(alloc: Global, text: &str) -> Result<u64, Option<Rule>> {
    match read_head(alloc, text.as_bytes()) {
        Ok(head) => Ok(head.body_len()),
        Err(HeadFault::Denied(denial)) => Err(Some(denial.rule)),
        Err(HeadFault::NoMemory) => Err(None),
    }
}

#[test]
fn how_long_the_body_of_a_list_may_be(rt: HostRuntime) {
    let rows = [
        (
            "GET /acct?comp=list HTTP/1.1\r\nContent-Length: 1048576\r\n\r\n",
            Ok(1_048_576),
        ),
        (
            "GET /acct?comp=list HTTP/1.1\r\nContent-Length: 1048577\r\n\r\n",
            Err(Some(Rule::F8)),
        ),
        (
            "GET /acct/box?restype=container&comp=list HTTP/1.1\r\nContent-Length: 1048577\r\n\r\n",
            Err(Some(Rule::F8)),
        ),
    ];
    for (text, wanted) in rows {
        assert!(rt; body_len(rt.alloc(), text) == wanted, "of {text}");
    }
}
