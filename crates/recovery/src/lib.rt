//! How a store of record format 1 becomes one of record format 2.
//! How a server is opened over a store.
#![tactic(auto)]

mod checks;
mod commits;
mod fault;
mod lists;
mod opening;
mod places;

pub use checks::read_under;
pub use commits::commit_migrated;
pub use fault::OpeningFault;
pub use lists::migration_lists;
pub use opening::{Refused, open};
