//! Expressions from tokens: which tokens spell which expression, and how it is read from them.
//!
//! ```text
//! expr = conj {OR conj}
//! conj = neg {AND neg}
//! neg  = NOT neg | test
//! test = comp {IS [NOT] NULL}
//! comp = sum [("=" | "<>" | "<" | "<=" | ">" | ">=") sum]
//! sum  = term {("+" | "-") term}
//! term = sign {("*" | "/" | "%") sign}
//! sign = "-" number | "-" sign | prim
//! prim = number | text | TRUE | FALSE | NULL | CURRENT_USER | SESSION_USER
//!      | name | name "." name | "(" expr ")" | MEMBER OF prim
//! ```
//!
//! Chains of one level group to the left. A `-` where a sign begins, directly before a number, is
//! the number's; 9223372036854775808 stands only there, and elsewhere it is out of range. Both
//! words of MEMBER OF may be names: `member` is a column where no prim stands behind `member of`.
#![tactic(auto)]

mod alone;
pub mod grammar;
pub mod laws;
mod leaf;
mod level;
mod member;
pub mod parse_error;
pub mod parser;
pub mod reader;
pub mod stages;
pub mod whole;
