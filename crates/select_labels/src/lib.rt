//! Labels of a SELECT's list, `expression AS name` (PostgreSQL 15 manual, SELECT, "SELECT List").
//!
//! The language has no labels. A text with labels is the text with blanks in their places, in which every other token stands where it
//! stood; the names that a client is told for its columns are the labels.
#![tactic(auto)]

mod blanks;
mod kinds;
mod label;
pub mod laws;
mod list;
mod sorting;
pub mod unlabelled;
