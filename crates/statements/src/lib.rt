//! Statements over the database, over any map of its records: what each kind of statement comes to,
//! told as one outcome.
#![tactic(auto)]

mod execute;

pub use execute::Statements;
