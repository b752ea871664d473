//! Whether a row meets conditions: those of a query, joined by AND, and the guards that row security makes of a table's
//! policies (PostgreSQL manual, "Row Security Policies"). Nothing here takes memory.
#![tactic(auto)]

mod at_once;
pub mod conditions;
pub mod guard;
