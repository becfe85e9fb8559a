//! What no clause says of rows: that the rules mean the reference's, that each call can succeed,
//! and that no body is copied. Printed replies, with their lines, are cases of `replay_cases`.

use crate::sample_requests::{Sum, allowed, body, make, moment, pics, pics_and_gone, request};
use range_rows::{FramedAnswer, ObjectRules, Reading, Replacements, Span};
use row_trees::Rows;
use stamp_types::{Body, Change, Header, Items, Op, Piece, Reply, Request, Rule, Status};
use std::alloc::Global;
use std::fs;
use std::process::Abort;

const LAST: u64 = u64::MAX;

const ZEROS: Option<Sum> = Some([0; 16]);

fn crosses<T: Send + Sync>() {}

#[test]
fn threads_may_have_rows() {
    crosses::<Rows>();
}

// The operation, the container, the MD5 that the request gives of an empty body, how many changes
// the containers `pics` and `gone` have seen, and the rule that refuses. `pics` has no blobs,
// `gone` was deleted, and `jam` never was.
type Case = (Op, &'static str, Option<Sum>, u64, Option<Rule>);

// No rule, or one rule alone.
fn single_rules() -> [Case; 13] {
    [
        (Op::ContainerProperties, "pics", None, LAST, None),
        (Op::CreateContainer, "jam", None, 1, None),
        (Op::CreateContainer, "gone", None, LAST - 1, None),
        (Op::PutBlob, "pics", None, LAST - 1, None),
        (Op::ContainerProperties, "jam", None, 1, Some(Rule::O1)),
        (Op::SetContainerMetadata, "gone", None, 1, Some(Rule::O1)),
        (Op::CreateContainer, "pics", None, 1, Some(Rule::O2)),
        (Op::GetBlob, "pics", None, 1, Some(Rule::O3)),
        (Op::SetMetadata, "pics", None, 1, Some(Rule::O3)),
        (Op::PutBlob, "pics", ZEROS, 1, Some(Rule::O5)),
        (Op::SetContainerMetadata, "pics", ZEROS, 1, Some(Rule::O5)),
        (Op::DeleteContainer, "pics", None, LAST, Some(Rule::O6)),
        (Op::CreateContainer, "gone", None, LAST, Some(Rule::O6)),
    ]
}

// Two rules that hold at once: the first rule is named.
fn pairs_of_rules() -> [Case; 8] {
    [
        // O1 with O3, O5, O6
        (Op::GetBlob, "jam", None, 1, Some(Rule::O1)),
        (Op::PutBlob, "jam", ZEROS, 1, Some(Rule::O1)),
        (Op::PutBlob, "gone", None, LAST, Some(Rule::O1)),
        // O2 with O5, O6
        (Op::CreateContainer, "pics", ZEROS, 1, Some(Rule::O2)),
        (Op::CreateContainer, "pics", None, LAST, Some(Rule::O2)),
        // O3 with O5, O6
        (Op::SetMetadata, "pics", ZEROS, 1, Some(Rule::O3)),
        (Op::DeleteBlob, "pics", None, LAST, Some(Rule::O3)),
        // O5 with O6
        (Op::PutBlob, "pics", ZEROS, LAST, Some(Rule::O5)),
    ]
}

fn judge(rt: &impl Abort, alloc: Global, case: Case) {
    let (op, container, sum, count, rule) = case;
    let rows = pics_and_gone(rt, alloc, count);
    let request = request(rt, alloc, op, container, "a.txt", sum, Body::empty());
    let reading = Reading::of(alloc, &request).expect(rt, "memory");
    let refusal = rows.object_rule(alloc, &request, &reading);
    let named = refusal.expect(rt, "memory").map(|refusal| refusal.rule);
    assert!(rt; named == rule, "{op:?} {container} {count}");
}

#[test]
fn the_first_rule_that_holds_is_named(rt: HostRuntime) {
    for case in single_rules() {
        judge(&rt, rt.alloc(), case);
    }
    for case in pairs_of_rules() {
        judge(&rt, rt.alloc(), case);
    }
}

/// Whether a change moves into its row, or the row gets a copy.
#[derive(Clone, Copy, PartialEq, Eq)]
enum Way {
    Moved,
    Copied,
}

// A function of its own, since the eleven kinds of a change would cost the prover minutes in the
// body of `change`.
fn make_as(rt: &impl Abort, alloc: Global, rows: &mut Rows, change: Change, way: Way) {
    match way {
        Way::Moved => make(rt, alloc, rows, change),
        Way::Copied => {
            let fits = rows.fits(alloc, &change).expect(rt, "memory");
            assert!(rt; fits, "a change that does not fit");
            rows.apply(alloc, &change).expect(rt, "memory");
            drop(change);
        }
    }
}

// The change of a Put Blob.
fn change_of(rt: &impl Abort, alloc: Global, rows: &Rows, request: &Request) -> Change {
    assert!(rt; request.ask().op == Op::PutBlob);
    let reading = Reading::of(alloc, request).expect(rt, "memory");
    let allowed = allowed(rt, alloc, rows, request, &reading);
    let change = allowed.change(alloc, request, reading, moment(rt));
    change.expect(rt, "memory")
}

// The frame and the spans of the answer. The frame has this status and length, and no body.
fn answer(
    rt: &impl Abort,
    alloc: Global,
    rows: &Rows,
    request: &Request,
    status: Status,
    length: u64,
) -> (Reply, Items<Span>) {
    assert!(rt; matches!(request.ask().op, Op::PutBlob | Op::GetBlob));
    let reading = Reading::of(alloc, request).expect(rt, "memory");
    let allowed = allowed(rt, alloc, rows, request, &reading);
    let answer = allowed.reply(alloc, request, moment(rt), &Replacements::none());
    let FramedAnswer { frame, spans } = answer.expect(rt, "memory");
    let frame = frame.write(alloc).expect(rt, "memory");
    assert!(rt; frame.status == status && frame.length == length && frame.body.is_empty());
    (frame, spans)
}

fn put(rt: &impl Abort, alloc: Global, rows: &mut Rows, blob: &str, body: Body, way: Way) {
    let request = request(rt, alloc, Op::PutBlob, "pics", blob, None, body);
    let (_, spans) = answer(rt, alloc, rows, &request, Status::Created, 0);
    assert!(rt; spans.as_slice().is_empty());
    let change = change_of(rt, alloc, rows, &request);
    make_as(rt, alloc, rows, change, way);
}

// The spans that go out on a Get Blob of a blob of so many bytes. The metadata has its line after
// the type and the MD5.
fn read(rt: &impl Abort, alloc: Global, rows: &Rows, blob: &str, length: u64) -> Items<Span> {
    let request = request(rt, alloc, Op::GetBlob, "pics", blob, None, Body::empty());
    let (frame, spans) = answer(rt, alloc, rows, &request, Status::Success, length);
    let headers = frame.headers.as_slice();
    assert!(rt; headers.len() == 7 && matches!(headers[2], Header::Meta(_)));
    spans
}

// Whether there is one span, and it is the whole of a piece that holds these bytes.
fn is_whole(spans: &Items<Span>, bytes: &[u8]) -> bool {
    let [span] = spans.as_slice() else {
        return false;
    };
    let held = matches!(&span.piece, Piece::Bytes(share) if share.as_slice() == bytes);
    held && span.from == 0 && span.to == bytes.len() as u64
}

fn name(rt: &impl Abort, alloc: Global, number: u64) -> String {
    format!(in alloc; "blob {number}").expect(rt, "memory")
}

// A hundred blobs that have their names as their content. The changes of every other blob are
// copied.
#[test]
fn a_hundred_blobs_are_read_back(rt: HostRuntime) {
    let alloc = rt.alloc();
    let mut rows = pics(&rt, alloc, 1);
    for number in 0..100 {
        let name = name(&rt, alloc, number);
        let bytes = name.as_bytes().to_vec(alloc).expect(&rt, "memory");
        let body = body(&rt, alloc, bytes);
        let way = if number % 2 == 0 {
            Way::Moved
        } else {
            Way::Copied
        };
        put(&rt, alloc, &mut rows, name.as_str(), body, way);
    }
    for number in 0..100 {
        let name = name(&rt, alloc, number);
        let spans = read(&rt, alloc, &rows, name.as_str(), name.len() as u64);
        assert!(rt; is_whole(&spans, name.as_bytes()), "{number}");
    }
}

// How many kilobytes of the process are in memory, if the system says so.
fn resident(rt: &HostRuntime) -> Option<u64> {
    let status = fs::read_to_string(rt, "/proc/self/status").ok()?;
    let mut count = None;
    for line in status.as_str().lines() {
        if let Some(rest) = line.strip_prefix("VmRSS:") {
            count = rest.trim().trim_end_matches(" kB").parse::<u64>().ok();
        }
    }
    count
}

const QUARTER_MIB: usize = 256 * 1024;

// One body of 256 KiB under a hundred names, and a hundred answers with it, all owned at once.
#[test]
fn rows_and_answers_share_a_body(rt: HostRuntime) {
    let alloc = rt.alloc();
    let body = body(
        &rt,
        alloc,
        vec![in alloc; 7; QUARTER_MIB].expect(&rt, "memory"),
    );
    let mut rows = pics(&rt, alloc, 1);
    let mut answers = Vec::new(alloc);
    let before = resident(&rt).expect(&rt, "a status");
    for number in 0..100 {
        let name = name(&rt, alloc, number);
        let body = body.share().expect(&rt, "memory");
        put(&rt, alloc, &mut rows, name.as_str(), body, Way::Moved);
        let spans = read(&rt, alloc, &rows, name.as_str(), QUARTER_MIB as u64);
        answers.push(spans).expect(&rt, "memory");
    }
    let more = resident(&rt).expect(&rt, "a status").saturating_sub(before);
    assert!(rt; more < 16 * 1024, "{more} kB more than {before} kB");
    // All answers are still owned here.
    assert!(rt; answers.iter().all(|spans| is_whole(spans, body.as_slice())));
    drop(rows);
}
