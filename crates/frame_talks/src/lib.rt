//! The conversation of Guarddb's own frames with a client, by `docs/protocol.md`.
#![tactic(auto)]

pub mod frame_talk;
pub mod laws;
pub mod said;
