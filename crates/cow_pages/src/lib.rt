//! Logical pages of 4,096 bytes on a device that may stop at any moment: the array of them, and its commits. The trait
//! `Pages`, and an array in memory, are the crate `pages`'.
#![tactic(auto)]

mod changes;
mod cow;
mod dirty_pages;
mod formatting;
mod free_pages;
mod laws;
mod open;
mod over_device;
mod page_map;
mod preserved;
mod root_switch;
mod spans;

pub use cow::{CowPages, DEFAULT_CACHE_PAGES, MAX_CACHE_PAGES};
pub use dirty_pages::MAX_DIRTY_PAGES;
pub use formatting::format;
pub use laws::{
    agreeing_images, faultless_images, few_pages, first_number, one_meaning, recoverable_images,
    settled_images, settled_is_recoverable,
};
pub use open::{OpenFault, page_count};
pub use page_map::CommitFault;
pub use page_roots::Format;
pub use pages::{MemPages, PAGE_SIZE, PageFault, Pages};
pub use preserved::preserved_stays;
pub use storage_sizes::{MAX_PAGES, MIN_PAGES};
