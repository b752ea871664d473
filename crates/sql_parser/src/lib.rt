//! Statements from texts: how a text is parsed, stage after stage.
//!
//! A text stands for a statement where its tokens spell a command of the table in `sql_commands`, up
//! to their end or to a `;` that is the last of them, and the statement keeps the rules of form:
//!
//! - no attribute of CREATE ROLE stands beside its contrary;
//! - a table has one primary key, where each PRIMARY KEY counts;
//! - a policy has the clauses of its command: for INSERT a WITH CHECK alone, for SELECT and DELETE a
//!   USING alone, and for each other a USING;
//! - no DELETE that GRANT or REVOKE names has columns;
//! - the rows of VALUES have one length;
//! - `*` and `count(*)` have a FROM, and `count(*)` has neither ORDER BY nor LIMIT.
#![tactic(auto)]

mod beginnings;
mod completions;
mod depth;
mod form_rules;
mod fronts;
pub mod laws;
pub mod parse;
pub mod places;
