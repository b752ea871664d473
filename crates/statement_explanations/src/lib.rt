//! What a statement over rows does before it reads a row: in which keys it looks for the rows of its
//! tables, and which policies and conditions they are asked. As data, as text in columns and as JSON.
#![tactic(auto)]

mod asking;
mod conditions;
mod explained;
pub mod explanation;
mod expression_text;
mod key_text;
mod key_values;
mod literal_text;
mod plan_ranges;
mod policies;
mod printing;
mod reading;
mod statement_names;
mod tables;

pub use explained::{Acting, ExplainFault, explain};
pub use plan_ranges::planned_ranges;
pub use tables::explain_tables;
