//! What differs between two descriptions, line by line.
#![tactic(auto)]

mod comparing;
mod line;

pub use comparing::differences;
pub use line::{DescriptionLine, LineDifference};
