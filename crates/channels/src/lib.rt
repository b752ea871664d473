//! Connections of which no call waits: their bytes, who comes, and what was said and has not gone out.
#![tactic(auto)]

pub mod attend;
pub mod behind;
pub mod channel;
pub mod memory;
pub mod send_queue;
