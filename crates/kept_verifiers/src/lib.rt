//! What a table of passwords keeps for a role: the verifier with which the role's password is checked,
//! as its text. The table is one of the database, and one row of it is read.
#![tactic(auto)]

pub mod laws;
mod look_up;
mod table;

pub use look_up::verifier_of;
