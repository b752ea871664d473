//! Descriptions of a database and of a role as text in columns, and as JSON.
#![tactic(auto)]

pub mod database;
pub mod description;
pub mod json;
pub mod role;
pub mod section;
pub mod text;
mod words;
