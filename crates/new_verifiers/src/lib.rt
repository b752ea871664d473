//! Passwords, and new verifiers of them, as `guarddb password` prints them.
#![tactic(auto)]

pub mod password_lines;
pub mod passwords;
