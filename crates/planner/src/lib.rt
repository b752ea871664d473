//! Plans: everything that a statement is checked for before a row is read, and what is left to do
//! with rows.
#![tactic(auto)]

mod bound;
mod changes;
mod insert;
pub mod laws;
mod masks;
mod named_table;
mod parts;
mod plans;
mod reading;
mod result_columns;
mod rights;
mod row_changes;
mod select;
mod sources;
mod tables;
mod targets;
mod values;

pub use bound::bind_query;
pub use insert::{InsertPlan, plan_insert};
pub use plans::{Plan, plan_rows};
pub use result_columns::describe_rows;
pub use row_changes::{ChangePlan, plan_delete, plan_update};
pub use select::{SelectPlan, plan_select};
pub use sources::Source;
