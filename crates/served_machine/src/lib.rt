//! A server as the loop of many clients sees it: it makes the steps that clients want, and opens a
//! session only for whom the place admits that its client has come to.
#![tactic(auto)]

mod entry;
pub mod laws;
mod machine;

pub use machine::ServedMachine;
