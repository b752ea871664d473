//! Conversations in which a client shows a password before anything else is taken.
#![tactic(auto)]

pub mod early_frame;
pub mod laws;
pub mod login;
mod looking_up;
pub mod message;
pub mod password_talk;
mod said;
pub mod stage;
