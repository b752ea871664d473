//! The conversations of a server with several places, each of which is of one of four kinds.
#![tactic(auto)]

pub mod laws;
pub mod placed_talk;
