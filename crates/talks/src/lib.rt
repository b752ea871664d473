//! Conversations of many clients with one machine, which answers one thing after the other.
#![tactic(auto)]

pub mod clients;
pub mod laws;
pub mod machine;
pub mod serving;
pub mod talk;
pub mod want;
