//! What a session reads and writes between two commits: the records of a store under the changes of
//! its transaction.
#![tactic(auto)]

mod changes;
mod laws;
mod merge;
mod place;
mod view;

pub use changes::ChangeLists;
pub use laws::joined_changes;
pub use merge::{Merge, MergedPlace};
pub use place::ViewPlace;
pub use view::{View, entry_at};
