//! What an expression means: the columns that it names, its type, and its value on a row.
#![tactic(auto)]

pub mod eval;
pub mod infallible;
pub mod laws;
pub mod names;
pub mod operators;
pub mod parts;
pub mod types;
