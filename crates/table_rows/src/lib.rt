//! The rows of one table in a map of records: read in place, and changed by INSERT, UPDATE and
//! DELETE.
#![tactic(auto)]

mod change;
mod checks;
mod choose;
mod count;
mod laws;
mod part;
mod puts;
mod setting;
mod target;
mod values;
mod visit;
mod walk;

pub use change::{RowChanges, delete, insert, update};
pub use count::count_rows_to;
pub use laws::{held_rows_are_whole, key_is_found, other_records_stay, update_is_held};
pub use part::visit_part;
pub use target::{Assignments, Insertion, Target};
pub use visit::{Flow, RowVisitor};
pub use walk::visit_target;
