//! The changes that take records to others: what differs between two lists of them in order.
#![tactic(auto)]

mod difference;
mod differences;

pub use difference::push_differences;
pub use differences::{differences_are_elsewhere, differences_lead_to_records};
