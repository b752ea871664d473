//! The connections of a port or of a socket, none of which waits, and who comes.
#![tactic(auto)]

pub mod listeners;
pub mod sockets;
pub mod streams;
