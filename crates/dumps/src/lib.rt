//! Dumps of a database: its records as lists of changes, in one file, with what tells whether the file is whole.
#![tactic(auto)]

mod bytes;
mod checking;
mod device_pages;
mod fault;
mod lists;
mod place;
mod reading;
mod writing;

pub use checking::check_dump;
pub use fault::DumpFault;
pub use place::DumpPlace;
pub use reading::{read_head, read_list};
pub use writing::{begin_dump, end_dump, list_pages, put_list};
