//! Sections of a description, as text in columns, as JSON, and as lines that stand by themselves.
#![tactic(auto)]

mod cell;
mod columns;
mod json;
mod line;
mod section;

pub use cell::{MembershipWay, SectionCell};
pub use columns::columns_text;
pub use json::json_text;
pub use line::{LineTexts, line_of};
pub use section::{Sections, TextSection};
