//! Cases for tests: what was sent, what the stamp has, and the verdict.

use crate::sample_parts::page;
use crate::sample_values::{bytes, kept, text};
use access_rules::{Keys, Verdict, has_false_signature, has_true_signature, verdict};
use hmac_sign::SigningKey;
use stamp_types::{
    AccountName, Acl, Args, Ask, BlockId, BlockKinds, Body, Credential, FieldList, Items, Key,
    Level, Moment, Op, Policies, Request, Signing, Text, Verb,
};
use std::alloc::Global;
use std::process::Abort;

/// The account of each request.
pub(crate) const ACCOUNT: &str = "devstoreaccount1";

/// The header with the date, and the values of Authorization by which the two keys of the stamp sign a request with this header.
#[derive(Clone, Copy)]
pub(crate) struct Dated {
    pub name: &'static str,
    pub date: &'static str,
    pub by_first: &'static str,
    pub by_second: &'static str,
}

/// The credential that was sent.
#[derive(Clone, Copy)]
pub(crate) enum Sent {
    Nothing,
    /// The values of Authorization.
    Authorization(&'static [&'static str]),
    Token,
}

/// A request, and what the stamp has when the request is judged.
#[derive(Clone, Copy)]
pub(crate) struct Case {
    pub op: Op,
    pub kinds: Option<BlockKinds>,
    pub sent: Sent,
    pub dated: Dated,
    /// The account that the stamp has keys for.
    pub account: &'static str,
    /// The level of the container. `None` if the container does not exist.
    pub level: Option<Level>,
    /// The moment, in steps of 100 ns.
    pub now: i64,
}

/// The key of these bytes.
pub(crate) fn key(rt: &impl Abort, alloc: Global, text: &str) -> SigningKey {
    SigningKey::new(text.as_bytes().to_vec(alloc).expect(rt, "memory"))
}

/// The keys that the stamp has for the account.
pub(crate) fn keys(rt: &impl Abort, alloc: Global, account: &str) -> Keys {
    Keys {
        account: AccountName::new(text(rt, alloc, account)).expect(rt, "the name of an account"),
        first: key(rt, alloc, "key1"),
        second: key(rt, alloc, "key2"),
        epoch: 0,
    }
}

// What `PUT /devstoreaccount1/pics/a.txt` with five bytes signs, with the date in one more header.
fn signing(rt: &impl Abort, alloc: Global, dated: Dated) -> Signing {
    let mut headers = FieldList::new(alloc);
    for (name, value) in [
        ("content-length", "5"),
        ("x-ms-blob-type", "BlockBlob"),
        ("x-ms-version", "2012-02-12"),
        (dated.name, dated.date),
    ] {
        headers
            .push(name.as_bytes(), value.as_bytes())
            .expect(rt, "memory");
    }
    Signing {
        verb: Verb::Put,
        headers,
        path: bytes(rt, alloc, "/devstoreaccount1/pics/a.txt"),
        query: FieldList::new(alloc),
    }
}

// What the operation cannot come without.
fn args(rt: &impl Abort, alloc: Global, op: Op, kinds: Option<BlockKinds>) -> Args {
    let mut args = Args::none();
    args.kinds = kinds;
    match op {
        Op::PutBlob | Op::PutBlockList => args.kept = Some(kept(alloc)),
        Op::CreateContainer | Op::SetAcl => args.level = Some(Level::Closed),
        Op::ListContainers | Op::ListBlobs => args.page = Some(page()),
        Op::PutBlock => args.block = BlockId::new(bytes(rt, alloc, "0001")),
        _ => {}
    }
    args
}

fn blob(rt: &impl Abort, alloc: Global, op: Op) -> Option<Text> {
    if op.names_blob() {
        Some(text(rt, alloc, "a.txt"))
    } else {
        None
    }
}

fn credential(rt: &impl Abort, alloc: Global, sent: Sent) -> Credential {
    match sent {
        Sent::Nothing => Credential::Anonymous,
        Sent::Token => Credential::Token,
        Sent::Authorization(sent) => {
            let mut values = Vec::new(alloc);
            for value in sent {
                values.push(bytes(rt, alloc, value)).expect(rt, "memory");
            }
            Credential::Shared(Items::new(values))
        }
    }
}

/// The request of a case.
pub(crate) fn request(rt: &impl Abort, alloc: Global, case: &Case) -> Request {
    let container = if case.op.names_container() {
        "pics"
    } else {
        ""
    };
    let ask = Ask {
        op: case.op,
        key: Key {
            account: text(rt, alloc, ACCOUNT),
            container: text(rt, alloc, container),
        },
        blob: blob(rt, alloc, case.op),
        args: args(rt, alloc, case.op, case.kinds),
        signing: signing(rt, alloc, case.dated),
        credential: credential(rt, alloc, case.sent),
    };
    let request = Request::new(alloc, ask, Body::empty()).expect(rt, "memory");
    request.expect(rt, "parts that fit")
}

/// The verdict on a case.
pub(crate) fn case_verdict(rt: &impl Abort, alloc: Global, case: &Case) -> Verdict {
    let keys = keys(rt, alloc, case.account);
    verdict_under(rt, alloc, case, &keys)
}

/// The verdict on a case, if the stamp has these keys.
pub(crate) fn verdict_under(rt: &impl Abort, alloc: Global, case: &Case, keys: &Keys) -> Verdict {
    let policies = Policies::empty(alloc);
    let level = case.level.unwrap_or(Level::Closed);
    let acl = Acl { level, policies };
    let acl = if case.level.is_some() {
        Some(&acl)
    } else {
        None
    };
    let request = request(rt, alloc, case);
    let now = Moment::new(case.now).expect(rt, "a moment");
    verdict(alloc, Some(keys), acl, &request, now).expect(rt, "memory")
}

/// A Get Blob of `a.txt` in `pics` whose query has these parameters.
pub(crate) fn get_with(rt: &impl Abort, alloc: Global, query: &[(&str, &str)]) -> Request {
    let mut fields = FieldList::new(alloc);
    for (name, value) in query {
        let pushed = fields.push(name.as_bytes(), value.as_bytes());
        pushed.expect(rt, "memory");
    }
    let ask = Ask {
        op: Op::GetBlob,
        key: Key {
            account: text(rt, alloc, ACCOUNT),
            container: text(rt, alloc, "pics"),
        },
        blob: Some(text(rt, alloc, "a.txt")),
        args: Args::none(),
        signing: Signing {
            verb: Verb::Get,
            headers: FieldList::new(alloc),
            path: bytes(rt, alloc, "/devstoreaccount1/pics/a.txt"),
            query: fields,
        },
        credential: Credential::Token,
    };
    let request = Request::new(alloc, ask, Body::empty()).expect(rt, "memory");
    request.expect(rt, "parts that fit")
}

/// The verdict on a Get Blob of `a.txt` in `pics`, which does not exist, by a token with these parameters; whether the signature is
/// false; and whether it is true.
pub(crate) fn token_verdict(
    rt: &impl Abort,
    alloc: Global,
    query: &[(&str, &str)],
    now: i64,
) -> (Verdict, bool, bool) {
    let keys = keys(rt, alloc, ACCOUNT);
    let request = get_with(rt, alloc, query);
    let now = Moment::new(now).expect(rt, "a moment");
    let judged = verdict(alloc, Some(&keys), None, &request, now);
    let is_false = has_false_signature(alloc, Some(&keys), &request);
    let is_true = has_true_signature(alloc, Some(&keys), &request);
    (
        judged.expect(rt, "memory"),
        is_false.expect(rt, "memory"),
        is_true.expect(rt, "memory"),
    )
}

/// Whether the signature of a case is false.
pub(crate) fn case_has_false_signature(rt: &impl Abort, alloc: Global, case: &Case) -> bool {
    let keys = keys(rt, alloc, case.account);
    let request = request(rt, alloc, case);
    has_false_signature(alloc, Some(&keys), &request).expect(rt, "memory")
}

/// Whether the signature of a case is true.
pub(crate) fn case_has_true_signature(rt: &impl Abort, alloc: Global, case: &Case) -> bool {
    let keys = keys(rt, alloc, case.account);
    let request = request(rt, alloc, case);
    has_true_signature(alloc, Some(&keys), &request).expect(rt, "memory")
}
