//! The server's side of SCRAM-SHA-256 (RFC 5802, RFC 7677), without channel binding: the messages, and exchanges that show a
//! password.
#![tactic(auto)]

pub mod exchange;
mod first_message;
mod last_message;
pub mod laws;
pub mod messages;
pub mod mock;
