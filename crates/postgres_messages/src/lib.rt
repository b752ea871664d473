//! The messages of PostgreSQL's frontend/backend protocol 3.0 (PostgreSQL 15 manual, chapter 55): those of a client read in place,
//! those of a server written.
#![tactic(auto)]

pub mod backend;
mod backend_bodies;
mod backend_forms;
mod bodies;
mod fields;
pub mod front;
pub mod frontend;
pub mod kind;
pub mod laws;
mod lists;
pub mod message_writer;
pub mod read_error;
pub mod sasl;
pub mod start;
