//! What a server of PostgreSQL's protocol says and knows beside the language: the sentence of each code, the words that PostgreSQL
//! reserves, and the settings of a session.
#![tactic(auto)]

pub mod laws;
pub mod reserved;
pub mod sentences;
pub mod settings;
mod words;
