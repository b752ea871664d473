//! Where the syntax of a text goes wrong, so that a text has one place.
#![tactic(auto)]

mod beginnings;
mod completions;
pub mod laws;
pub mod places;
mod search;
