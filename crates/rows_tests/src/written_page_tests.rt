//! What no clause says about writing lists: that a list can be written, and bytes made outside of this repository's code.

use crate::page_tests::{ACCOUNT, Asked, create, page, rows_of};
use crate::sample_requests::{key, text};
use body_forms::{write_blob_list, write_container_list};
use list_pages::{blob_page, container_page};
use row_trees::Rows;
use std::alloc::Global;
use std::process::Abort;

pub(crate) const WITH_A_GROUP: &str =
    "<?xml version=\"1.0\" encoding=\"utf-8\"?><EnumerationResults><MaxResults>5000</MaxResults><Delimiter>/</Delimiter><Blobs><Blob><Name>a&amp;b&lt;c&gt;.txt</Name><Properties><Last-Modified>Mon, 01 Oct 2012 12:00:00 GMT</Last-Modified><Etag>\"0x0000000000000002\"</Etag><Content-Length>4</Content-Length><Content-Type>text/plain</Content-Type><BlobType>BlockBlob</BlobType></Properties></Blob><BlobPrefix><Name>d/</Name></BlobPrefix></Blobs><NextMarker></NextMarker></EnumerationResults>";

const WITH_METADATA: &str =
    "<?xml version=\"1.0\" encoding=\"utf-8\"?><EnumerationResults><Prefix>d</Prefix><Marker>d/</Marker><MaxResults>1</MaxResults><Blobs><Blob><Name>d/1</Name><Properties><Last-Modified>Mon, 01 Oct 2012 12:00:00 GMT</Last-Modified><Etag>\"0x0000000000000003\"</Etag><Content-Length>4</Content-Length><Content-Type>text/plain</Content-Type><BlobType>BlockBlob</BlobType></Properties><Metadata><author>me</author></Metadata></Blob></Blobs><NextMarker>d/2</NextMarker></EnumerationResults>";

const WITHOUT_ENTRIES: &str =
    "<?xml version=\"1.0\" encoding=\"utf-8\"?><EnumerationResults><Marker>z</Marker><MaxResults>7</MaxResults><Blobs></Blobs><NextMarker></NextMarker></EnumerationResults>";

pub(crate) const CONTAINERS: &str =
    "<?xml version=\"1.0\" encoding=\"utf-8\"?><EnumerationResults><MaxResults>5000</MaxResults><Containers><Container><Name>alpha</Name><Properties><Last-Modified>Mon, 01 Oct 2012 12:00:00 GMT</Last-Modified><Etag>\"0x0000000000000001\"</Etag></Properties></Container><Container><Name>beta</Name><Properties><Last-Modified>Mon, 01 Oct 2012 12:00:00 GMT</Last-Modified><Etag>\"0x0000000000000001\"</Etag></Properties></Container></Containers><NextMarker></NextMarker></EnumerationResults>";

const CONTAINERS_WITH_METADATA: &str =
    "<?xml version=\"1.0\" encoding=\"utf-8\"?><EnumerationResults><MaxResults>1</MaxResults><Containers><Container><Name>alpha</Name><Properties><Last-Modified>Mon, 01 Oct 2012 12:00:00 GMT</Last-Modified><Etag>\"0x0000000000000001\"</Etag></Properties><Metadata><author>me</author></Metadata></Container></Containers><NextMarker>beta</NextMarker></EnumerationResults>";

fn has_list(rt: &impl Abort, alloc: Global, rows: &Rows, asked: Asked, wanted: &str) {
    let found = rows.find(&key(rt, alloc, ACCOUNT, "pics"));
    let mut page = page(rt, alloc, asked);
    page.metadata = asked.3 == 1;
    let made = blob_page(alloc, &found, &page).expect(rt, "memory");
    let bytes = write_blob_list(alloc, &page, made.entries(), made.next_marker()).expect(
        rt, "memory",
    );
    assert!(rt; bytes.as_slice() == wanted.as_bytes(), "{wanted}");
}

// The metadata are asked for if one entry is.
#[test]
fn lists_of_blobs(rt: HostRuntime) {
    let alloc = rt.alloc();
    let rows = rows_of(&rt, alloc, &["a&b<c>.txt", "d/1", "d/2"]);
    has_list(&rt, alloc, &rows, ("", "/", "", 5000), WITH_A_GROUP);
    has_list(&rt, alloc, &rows, ("d", "", "d/", 1), WITH_METADATA);
    has_list(&rt, alloc, &rows, ("", "", "z", 7), WITHOUT_ENTRIES);
}

fn has_containers(rt: &impl Abort, alloc: Global, rows: &Rows, asked: Asked, wanted: &str) {
    let account = text(rt, alloc, ACCOUNT);
    let mut page = page(rt, alloc, asked);
    page.metadata = asked.3 == 1;
    let made = container_page(alloc, rows, &account, &page, None).expect(rt, "memory");
    let bytes = write_container_list(alloc, &page, made.entries(), made.next_marker()).expect(
        rt, "memory",
    );
    assert!(rt; bytes.as_slice() == wanted.as_bytes(), "{wanted}");
}

#[test]
fn lists_of_containers(rt: HostRuntime) {
    let alloc = rt.alloc();
    let mut rows = Rows::new(alloc);
    create(&rt, alloc, &mut rows, ACCOUNT, "alpha");
    create(&rt, alloc, &mut rows, ACCOUNT, "beta");
    has_containers(&rt, alloc, &rows, ("", "", "", 5000), CONTAINERS);
    has_containers(&rt, alloc, &rows, ("", "", "", 1), CONTAINERS_WITH_METADATA);
}
