//! Stores: maps of records that change by commits, with what a stop at any moment leaves; and a
//! store in memory.
#![tactic(auto)]

mod admin;
mod batch;
mod behind;
mod change;
mod cursor;
mod entry;
mod fault;
mod items;
mod laws;
mod map;
mod memory;
mod piece;
mod pieces;
mod prefix;
mod stop;
mod store;

pub use batch::Batch;
pub use change::Change;
pub use cursor::{Cursor, is_within, prefix_is_a_span};
pub use entry::{Entry, EntryRef};
pub use fault::{Fault, StoreFault};
pub use items::{
    fronts_do_not_order, items_elsewhere_stay, put_items_are_held, removed_items_are_dropped,
};
pub use laws::{
    changes_are_filtered, changes_are_put, changes_in_turn, entry_begins_a_scan, entry_of_changes,
    first_change_first, first_under_changes, memory_alone_is_refused, prefix_is_a_range,
    records_are_their_values, scan_goes_on, value_of_changes,
};
pub use map::{Map, causes_join, reads_join};
pub use memory::MemStore;
pub use piece::Piece;
pub use pieces::Place;
pub use prefix::begins_with;
pub use stop::StatementError;
pub use storage_sizes::{
    MAX_KEY_LENGTH, MAX_VALUE_LENGTH, RecordFormat, comes_before, is_same_key,
};
pub use store::Store;
