//! Pages of blobs and of containers, against pages that were written by hand.

use crate::sample_blobs::content;
use crate::sample_requests::{author, key, make, moment_after, props, text};
use list_pages::{BlobPage, ContainerPage, blob_page, container_page};
use row_trees::Rows;
use stamp_types::{
    Act, BlockId, Bytes, Change, CreateContainer, Key, Level, Page, PutBlob, PutBlock, Text,
};
use std::alloc::Global;
use std::process::Abort;

pub(crate) const ACCOUNT: &str = "devstoreaccount1";

fn given(rt: &impl Abort, alloc: Global, word: &str) -> Option<Text> {
    if word.is_empty() {
        None
    } else {
        Some(text(rt, alloc, word))
    }
}

// Prefix, delimiter, marker and the largest number of entries.
pub(crate) type Asked = (&'static str, &'static str, &'static str, u32);

pub(crate) fn page(rt: &impl Abort, alloc: Global, asked: Asked) -> Page {
    Page {
        prefix: given(rt, alloc, asked.0),
        delimiter: given(rt, alloc, asked.1),
        marker: given(rt, alloc, asked.2),
        max: asked.3,
        metadata: false,
    }
}

fn change(rt: &impl Abort, alloc: Global, rows: &mut Rows, key: Key, act: Act) {
    let change = Change::new(key, act).expect(rt, "a good change");
    make(rt, alloc, rows, change);
}

pub(crate) fn create(
    rt: &impl Abort,
    alloc: Global,
    rows: &mut Rows,
    account: &str,
    container: &str,
) {
    let act = Act::CreateContainer(CreateContainer {
        moment: moment_after(rt, 1),
        level: Level::Closed,
        metadata: author(rt, alloc, "me"),
    });
    change(rt, alloc, rows, key(rt, alloc, account, container), act);
}

// A name that ends with `?` gets an uncommitted block, and any other name a committed blob.
fn put(rt: &impl Abort, alloc: Global, rows: &mut Rows, name: &str) {
    let blob = text(rt, alloc, name);
    let act = if name.ends_with('?') {
        let id = BlockId::new(Bytes::new(b"AAAA".to_vec(alloc).expect(rt, "memory")));
        Act::PutBlock(PutBlock {
            blob,
            id: id.expect(rt, "a good id"),
            content: content(rt, alloc, "block"),
        })
    } else {
        Act::PutBlob(PutBlob {
            blob,
            moment: moment_after(rt, 2),
            props: props(rt, alloc),
            metadata: author(rt, alloc, "me"),
            content: content(rt, alloc, "four"),
        })
    };
    change(rt, alloc, rows, key(rt, alloc, ACCOUNT, "pics"), act);
}

pub(crate) fn rows_of(rt: &impl Abort, alloc: Global, names: &[&str]) -> Rows {
    let mut rows = Rows::new(alloc);
    create(rt, alloc, &mut rows, ACCOUNT, "pics");
    for name in names {
        put(rt, alloc, &mut rows, name);
    }
    rows
}

// The texts of the entries with a space after each, then `|` and NextMarker.
fn shown(rt: &impl Abort, alloc: Global, page: &BlobPage<'_>) -> Vec<u8> {
    let mut out = Vec::new(alloc);
    for entry in page.entries() {
        out.extend_from_slice(entry.text()).expect(rt, "memory");
        out.push(b' ').expect(rt, "memory");
        if let Some(blob) = entry.listed() {
            assert!(rt; blob.len() == 4 && blob.made() == moment_after(rt, 2));
            assert!(rt; blob.content_type().as_str() == "text/plain" && blob.etag() > 1);
            assert!(rt; blob.metadata().as_slice().len() == 1);
        }
    }
    out.push(b'|').expect(rt, "memory");
    out.extend_from_slice(page.next_marker().unwrap_or(b""))
        .expect(rt, "memory");
    out
}

fn has_page(rt: &impl Abort, alloc: Global, rows: &Rows, asked: Asked, wanted: &str) {
    let found = rows.find(&key(rt, alloc, ACCOUNT, "pics"));
    let page = page(rt, alloc, asked);
    let made = blob_page(alloc, &found, &page).expect(rt, "memory");
    let shown = shown(rt, alloc, &made);
    assert!(rt; shown.as_slice() == wanted.as_bytes(), "{wanted}");
}

#[test]
fn pages_of_three_blobs(rt: HostRuntime) {
    let alloc = rt.alloc();
    let rows = rows_of(&rt, alloc, &["a.txt", "d/1", "d/2"]);
    has_page(&rt, alloc, &rows, ("", "/", "", 5000), "a.txt d/ |");
    has_page(&rt, alloc, &rows, ("", "/", "", 1), "a.txt |d/");
    has_page(&rt, alloc, &rows, ("", "/", "d/", 1), "d/ |");
    has_page(&rt, alloc, &rows, ("", "/", "d/1", 5000), "|");
    has_page(&rt, alloc, &rows, ("d/", "/", "", 5000), "d/1 d/2 |");
    has_page(&rt, alloc, &rows, ("d/2", "/", "", 1), "d/2 |");
    has_page(&rt, alloc, &rows, ("", "", "d/1", 1), "d/1 |d/2");
}

// Names around a delimiter, bytes past 127, and blobs of uncommitted blocks alone.
#[test]
fn pages_of_names_that_are_alike(rt: HostRuntime) {
    let alloc = rt.alloc();
    let names = [
        "a", "a.txt", "a/", "a/b", "a0", "d/1", "d/2/x", "d/2?", "d~", "e/?", "f?", "é~1", "é~2",
        "é",
    ];
    let rows = rows_of(&rt, alloc, &names);
    has_page(
        &rt,
        alloc,
        &rows,
        ("", "/", "", 5000),
        "a a.txt a/ a0 d/ d~ é é~1 é~2 |",
    );
    has_page(
        &rt,
        alloc,
        &rows,
        ("", "~", "", 5000),
        "a a.txt a/ a/b a0 d/1 d/2/x d~ é é~ |",
    );
    has_page(&rt, alloc, &rows, ("a/", "/", "", 5000), "a/ a/b |");
    has_page(&rt, alloc, &rows, ("d/", "/", "", 1), "d/1 |d/2/");
    has_page(&rt, alloc, &rows, ("e", "/", "", 1), "|");
    has_page(&rt, alloc, &rows, ("é", "é", "", 1), "é |é~1");
}

// The names of the entries with a space after each, then `|` and NextMarker.
fn shown_containers(rt: &impl Abort, alloc: Global, page: &ContainerPage<'_>) -> Vec<u8> {
    let mut out = Vec::new(alloc);
    for entry in page.entries() {
        assert!(rt; entry.container().etag() > 0);
        out.extend_from_slice(entry.name()).expect(rt, "memory");
        out.push(b' ').expect(rt, "memory");
    }
    out.push(b'|').expect(rt, "memory");
    out.extend_from_slice(page.next_marker().unwrap_or(b""))
        .expect(rt, "memory");
    out
}

fn has_containers(
    rt: &impl Abort,
    alloc: Global,
    rows: &Rows,
    asked: Asked,
    bound: Option<Key>,
    wanted: &str,
) {
    let account = text(rt, alloc, ACCOUNT);
    let page = page(rt, alloc, asked);
    let made = container_page(alloc, rows, &account, &page, bound.as_ref()).expect(rt, "memory");
    let shown = shown_containers(rt, alloc, &made);
    assert!(rt; shown.as_slice() == wanted.as_bytes(), "{wanted}");
}

#[test]
fn pages_of_containers(rt: HostRuntime) {
    let alloc = rt.alloc();
    let mut rows = Rows::new(alloc);
    for name in ["alpha", "beta", "gone", "pics"] {
        create(&rt, alloc, &mut rows, ACCOUNT, name);
    }
    create(&rt, alloc, &mut rows, "another", "aaa");
    create(&rt, alloc, &mut rows, "other", "alpha");
    change(
        &rt,
        alloc,
        &mut rows,
        key(&rt, alloc, ACCOUNT, "gone"),
        Act::DeleteContainer,
    );
    let bound = |container: &str| Some(key(&rt, alloc, ACCOUNT, container));
    has_containers(
        &rt,
        alloc,
        &rows,
        ("", "", "", 5000),
        None,
        "alpha beta pics |",
    );
    has_containers(&rt, alloc, &rows, ("", "", "", 2), None, "alpha beta |pics");
    has_containers(&rt, alloc, &rows, ("", "", "beta", 1), None, "beta |pics");
    has_containers(&rt, alloc, &rows, ("p", "", "", 1), None, "pics |");
    has_containers(
        &rt,
        alloc,
        &rows,
        ("", "", "", 5000),
        bound("beta"),
        "alpha |beta",
    );
    has_containers(
        &rt,
        alloc,
        &rows,
        ("", "", "", 1),
        bound("m"),
        "alpha |beta",
    );
    has_containers(&rt, alloc, &rows, ("z", "", "", 1), bound("m"), "|m");
    let other = Some(key(&rt, alloc, "other", "m"));
    has_containers(&rt, alloc, &rows, ("", "", "pics", 1), other, "pics |");
}
