//! Which policies guard a table's rows from a role, and the guard that they make (PostgreSQL manual, "Row Security
//! Policies").
#![tactic(auto)]

mod formulas;
mod guarding;
mod policies;

pub use guarding::compose;
pub use policies::applies;
