//! Pages of the lists of blobs and of containers.
#![tactic(auto)]

mod blobs;
mod containers;
mod entries;
mod full_pages;
mod laws;
mod names;
mod replies;
mod worked_pages;

pub use blobs::blob_page;
pub use containers::container_page;
pub use entries::{BlobPage, ContainerPage, ListPage};
pub use full_pages::a_page_with_a_next_marker_is_full;
pub use laws::{
    a_page_has_each_name_that_it_reaches, a_page_is_in_order_and_in_bounds,
    a_page_of_containers_depends_on_its_range, a_page_of_containers_is_of_its_account,
    each_blob_is_under_one_entry, following_the_markers_gives_each_entry_once,
    lists_of_ranges_are_one, uncommitted_blocks_change_no_page,
};
pub use replies::{blob_list_reply, container_list_reply};
pub use worked_pages::worked_pages_are_as_written;
