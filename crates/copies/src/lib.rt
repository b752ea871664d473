//! Copies of the records of a map, in a store that is marked until it has all of them.
//! Copies of a database's records in a new store on a device.
//! Copies of the database on a device to another device.
#![tactic(auto)]

mod database_copies;
mod device_copies;
mod fault;
mod mark;
mod marked;
mod marks;
mod record_copies;
mod source;
mod taking;
mod under;
mod wanted;

pub use database_copies::copy_database;
pub use device_copies::copy_to_device;
pub use fault::CopyFault;
pub use mark::mark_of_a_copy;
pub use marked::marked_store;
pub use marks::{copied_records_stand, marked_records_stand_for_nothing};
pub use record_copies::{copy_records, first_place};
pub use source::read_source;
pub use taking::take_records;
