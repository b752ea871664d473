//! A question of what a statement would answer, in frames, beside a conversation.
#![tactic(auto)]

pub mod answering;
pub mod heading_frame;
pub mod heading_talk;
pub mod laws;
