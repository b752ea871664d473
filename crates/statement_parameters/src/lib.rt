//! Statements with parameters, `$1`, `$2` and so on, and their values (PostgreSQL 15 manual, 4.1, "Positional Parameters", and 55.2.3,
//! "Extended Query").
//!
//! A statement with parameters and values for them is the text whose tokens are those of the written text, each parameter replaced by
//! the tokens of one literal. So what a value holds, whatever it is, is never read as SQL.
#![tactic(auto)]

pub mod binding;
mod eating;
pub mod fault;
pub mod laws;
mod literal;
mod place;
pub mod received;
pub mod samples;
mod span;
pub mod template;
pub mod types;
