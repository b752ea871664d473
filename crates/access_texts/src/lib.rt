//! Who may do what, as it is told: with a table, over the whole database, and what differs between two databases.
#![tactic(auto)]

mod access;
mod cells;
mod definitions;
mod difference_texts;
mod each_table;
mod lines;
mod powers;
mod told;
mod words;

pub use told::{DifferencesText, differences_text, powers_text, table_text};
