//! An example of each crate whose tests are here, which the README of the crate shows whole.

use crate::blob_row_tests::{A, B, wanted};
use crate::page_tests::{page, rows_of};
use crate::sample_blobs::{content, id, put_block_list};
use crate::sample_requests::{author, body, key, list_request, moment, pics, request};
use crate::written_policy_tests::policy;
use block_blobs::{BlobRow, entries_from};
use body_forms::{BodyFault, read_block_list, read_policies, write_policies};
use list_pages::{blob_list_reply, blob_page};
use range_rows::{ObjectVerdict, Reading, Replacements, Target};
use row_trees::Rows;
use stamp_types::{Act, Body, Change, CreateContainer, Items, Level, Lookup, Op, Policies, Status};
use xml_text::{
    Kind, Tokens, after_mark, after_prolog, append_element, append_prolog, content as content_of,
    is_clean_text, is_tag, value_of,
};

// xml_text
#[test]
fn an_element_is_written_and_read_back(rt: HostRuntime) {
    let mut out = Vec::new(rt.alloc());
    append_prolog(&mut out).expect(&rt, "memory");
    append_element(&mut out, "Id", b"a & b").expect(&rt, "memory");
    assert!(rt; out.ends_with(b"<Id>a &amp; b</Id>"));
    // To read a body, the caller first tests its characters, and then skips a mark and a prolog.
    assert!(rt; is_clean_text(&out));
    let left = after_prolog(after_mark(&out)).expect(&rt, "the end of the prolog");
    let mut text = Tokens { left };
    let tag = text.tag().expect(&rt, "a tag");
    assert!(rt; is_tag(Kind::Opening, b"Id", tag));
    // The bytes up to the closing tag of the same name, and what they mean.
    let written = content_of(&mut text, tag).expect(&rt, "a closing tag");
    assert!(rt; written == b"a &amp; b".as_slice());
    let value = value_of(rt.alloc(), written).expect(&rt, "memory");
    assert!(rt; value.as_slice() == b"a & b".as_slice());
    assert!(rt; text.left.is_empty()); // the caller refuses a body that has more
}

// body_forms
#[test]
fn a_block_list_is_read_and_policies_are_written(rt: HostRuntime) {
    let alloc = rt.alloc();
    let body = b"<BlockList><Committed> AAEC </Committed></BlockList>";
    let wanted = read_block_list(alloc, body).expect(&rt, "a block list");
    let [block] = wanted.as_slice() else {
        panic!(rt; "one entry");
    };
    assert!(rt; block.lookup == Lookup::Committed);
    assert!(rt; block.id.as_slice() == [0, 1, 2].as_slice()); // the bytes whose Base64 is `AAEC`
    // `AA` lacks its padding, so this is a block list with a bad id.
    let fault = read_block_list(alloc, b"<BlockList><Latest>AA</Latest></BlockList>").err();
    assert!(rt; fault == Some(BodyFault::Id));
    // A stored policy without start, expiry and permissions, as Get Container ACL writes it.
    let one = vec![in alloc; policy(&rt, alloc, "a & b", None, None, "")].expect(&rt, "memory");
    let policies = Policies::new(Items::new(one)).expect(&rt, "at most five policies");
    let written = write_policies(alloc, &policies).expect(&rt, "memory");
    let end = b"<Id>a &amp; b</Id><AccessPolicy></AccessPolicy>\
        </SignedIdentifier></SignedIdentifiers>";
    assert!(rt; written.ends_with(end));
    let read = read_policies(alloc, &written).expect(&rt, "policies");
    assert!(rt; read == policies);
}

// block_blobs
#[test]
#[tactic(auto, using(block_blobs::proofs::FoundLemmas::resolved_fits, block_blobs::proofs::FoundLemmas::resolved_found))]
fn a_list_commits_a_block_twice(rt: HostRuntime) {
    let alloc = rt.alloc();
    let mut row = BlobRow::new(alloc);
    // The ids whose Base64 is `AAAA` and `BBBB`.
    let (first, second) = (id(&rt, alloc, A), id(&rt, alloc, B));
    assert!(rt; row.put_block(&first, content(&rt, alloc, "one")).is_ok());
    assert!(rt; row.put_block(&second, content(&rt, alloc, "two")).is_ok());
    assert!(rt; row.uncommitted_len() == 2 && row.committed().is_none());
    // A Put Block List that names the first block twice.
    let wanted = wanted(&rt, alloc, &[(Lookup::Latest, A), (Lookup::Latest, A)]);
    let found = row
        .resolve(alloc, &wanted)
        .expect(&rt, "a list without a fault");
    let entries = entries_from(alloc, Items::new(wanted), found.sources.as_slice());
    let entries = entries.expect(&rt, "memory");
    // With the headers, the metadata and the moment of the request. 7 is the new ETag.
    let list = put_block_list(&rt, alloc, entries);
    row.commit(alloc, list, found.blocks, 7);
    assert!(rt; row.len() == 6 && row.uncommitted_len() == 0);
}

// row_trees
#[test]
fn a_change_that_fits_is_taken(rt: HostRuntime) {
    let alloc = rt.alloc();
    let mut rows = Rows::new(alloc);
    let act = Act::CreateContainer(CreateContainer {
        moment: moment(&rt),
        level: Level::Blob,
        metadata: author(&rt, alloc, "me"), // `author` is `me`
    });
    let pics = key(&rt, alloc, "pantry", "pics");
    let change = Change::new(key(&rt, alloc, "pantry", "pics"), act).expect(&rt, "a change");
    // A change that does not fit must not be taken.
    let fits = rows.fits(alloc, &change).expect(&rt, "memory");
    assert!(rt; fits);
    rows.take(alloc, change).expect(&rt, "memory");
    let found = rows.find(&pics);
    assert_eq!(rt; found.count(), 1);
    assert!(rt; found.acl().is_some_and(|acl| acl.level == Level::Blob));
    let never = rows.find(&key(&rt, alloc, "pantry", "jam"));
    assert!(rt; never.count() == 0 && never.standing().is_none());
}

// range_rows
#[test]
fn a_put_blob_is_judged_answered_and_made(rt: HostRuntime) {
    let alloc = rt.alloc();
    let mut rows = pics(&rt, alloc, 1); // the container `pics`, which has taken one change
    let hello = body(&rt, alloc, b"hello".to_vec(alloc).expect(&rt, "memory"));
    let request = request(&rt, alloc, Op::PutBlob, "pics", "a.txt", None, hello);
    let ask = request.ask();
    assert!(rt; ask.op == Op::PutBlob); // it writes, and does not list names
    let reading = Reading::of(alloc, &request).expect(&rt, "memory");
    let target = Target::of(rows.find(&ask.key), ask);
    let judged = target
        .judge(alloc, &request, &reading)
        .expect(&rt, "memory");
    let ObjectVerdict::Allowed(allowed) = judged else {
        panic!(rt; "a rule O refuses");
    };
    // First the frame, which needs no row afterwards, and then the change.
    let answer = allowed.reply(alloc, &request, moment(&rt), &Replacements::none());
    let answer = answer.expect(&rt, "memory");
    let frame = answer.frame.write(alloc).expect(&rt, "memory");
    assert!(rt; frame.status == Status::Created && answer.spans.as_slice().is_empty());
    let change = allowed
        .change(alloc, &request, reading, moment(&rt))
        .expect(&rt, "memory");
    let fits = rows.fits(alloc, &change).expect(&rt, "memory");
    assert!(rt; fits);
    rows.take(alloc, change).expect(&rt, "memory");
    assert_eq!(rt; rows.find(&ask.key).count(), 2);
}

// list_pages
#[test]
fn a_page_is_gathered_and_written_later(rt: HostRuntime) {
    let alloc = rt.alloc();
    let rows = rows_of(&rt, alloc, &["a.txt", "d/1", "d/2"]); // three blobs of `pics`
    let pics = key(&rt, alloc, "devstoreaccount1", "pics");
    let found = rows.find(&pics);
    // No prefix, the delimiter `/`, no marker, and one entry.
    let page = page(&rt, alloc, ("", "/", "", 1));
    let made = blob_page(alloc, &found, &page).expect(&rt, "memory");
    let [entry] = made.entries() else {
        panic!(rt; "one entry");
    };
    assert!(rt; entry.text() == b"a.txt".as_slice());
    assert!(rt; made.next_marker() == Some(b"d/".as_slice())); // the next page begins with this group
    let asked = list_request(&rt, alloc, Op::ListBlobs, pics, page);
    assert!(rt; asked.ask().op.lists_names()); // a reply requires it
    let draft = blob_list_reply(alloc, &found, &asked).expect(&rt, "memory");
    drop(rows); // the reply is written without the rows
    let reply = draft.write(alloc).expect(&rt, "memory");
    let text = reply.body.joined(alloc).expect(&rt, "memory");
    assert!(rt; text.ends_with(b"</Blobs><NextMarker>d/</NextMarker></EnumerationResults>"));
}
