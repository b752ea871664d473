//! The conversation of PostgreSQL's frontend/backend protocol 3.0 with a client, at a place without passwords.
#![tactic(auto)]

mod binding;
mod blocks;
mod classes;
mod describing;
pub mod fault;
pub mod formats;
mod labels;
pub mod laws;
pub mod moment;
pub mod named_pieces;
pub mod outcome;
pub mod parameters;
mod parsing;
pub mod piece;
mod pieces;
mod placing;
mod portals;
pub mod postgres_talk;
pub mod requests;
mod rows;
mod said;
pub mod settled;
mod standings;
mod tags;
mod taking;
mod telling;
mod told;
mod typing;
mod words;
