//! What is said to clients that may ask what a statement would answer goes by their bytes and replies, too.
#![tactic(auto)]

pub mod laws;
