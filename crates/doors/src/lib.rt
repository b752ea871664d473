//! Whom a place lets in, and the conversations there.
#![tactic(auto)]

pub mod door;
pub mod door_talk;
pub mod entry_talk;
pub mod laws;
