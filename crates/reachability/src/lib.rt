//! Which elements of a list finite chains lead to: each element and each link is looked at once.
#![tactic(auto)]

mod elements;
mod found;
mod keyed;
mod numbered;
mod waiting;

pub use elements::{Elements, reached};
pub use keyed::{Element, reached_by_keys};
