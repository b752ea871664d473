//! SELECT, INSERT, UPDATE and DELETE as whole statements over a map of records and a catalogue:
//! planned, carried out and answered.
#![tactic(auto)]

mod executing;
mod joins;
mod outcome;
mod ranges;

pub use executing::execute;
pub use joins::is_looked_up;
pub use outcome::{roles_of, users_of};
pub use ranges::{RangedSource, range_where, ranged};
