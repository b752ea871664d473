//! Stores of records in pages on a device: the whole of a batch is committed or nothing, whenever a stop comes. The trait
//! `Store`, and a store in memory, are the crate `store`'s.
#![tactic(auto)]

mod beside;
mod commit;
mod formatting;
mod free_pages;
mod journal_kind;
mod laws;
mod page_store;
mod read_only;
mod refusals;
mod renewal;
mod reserve;
mod tree_store;

pub use cow_pages::{DEFAULT_CACHE_PAGES, MAX_CACHE_PAGES, OpenFault};
pub use formatting::write_leaf_of;
pub use laws::{one_contents, sound_images, tree_and_records};
pub use page_store::PageStore;
pub use reserve::Reserve;
pub use store::{Batch, Change, Entry, Fault, Map, MemStore, RecordFormat, Store, StoreFault};
pub use tree_store::TreeStore;
