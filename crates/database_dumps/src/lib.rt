//! A dump of the database on a device, and a database made of a dump.
#![tactic(auto)]

mod counting;
mod database_dumps;
mod fault;
mod record_dumps;
mod restored_lists;
mod restoring;
mod roles;

pub use counting::pages_of_dump;
pub use database_dumps::dump_database;
pub use dumps::{DumpFault, check_dump};
pub use fault::RestoreFault;
pub use restoring::restore_database;
pub use roles::RestoredRoles;
