//! Conversations in which a client shows a password in PostgreSQL's messages before anything else is taken.
#![tactic(auto)]

mod entry_message;
pub mod laws;
pub mod login;
mod looking_up;
pub mod postgres_login_talk;
mod said;
pub mod stage;
pub mod start_request;
