//! The definitions of the database by examples: scripts of statements by several sessions, each with the answers that
//! the definitions compute, under one sentence that says what it shows.
//!
//! Each function here does nothing: its clause is the example that it is named after, which is in `specs/`. Root is
//! a superuser, ann owns the table t, and bob, cid and dan are roles that may log in; each has a session. The words in
//! which the scripts are written are in `specs/Expressions.antt`, `specs/Wording.antt` and `specs/Lines.antt`.
#![tactic(auto)]

pub mod first_steps;
pub mod how_much_fits;
pub mod how_queries_answer;
pub mod what_a_block_shows;
pub mod what_a_policy_hides;
pub mod what_a_policy_refuses;
pub mod what_a_table_takes;
pub mod what_an_expression_is_worth;
pub mod what_may_come_in_place;
pub mod what_member_of_tells;
pub mod which_sessions_are_open;
pub mod who_grants_a_column;
pub mod who_has_a_column;
pub mod who_holds_the_lock;
pub mod who_is_in_a_role;
pub mod who_may_grant;
pub mod who_may_read;
pub mod whom_row_security_concerns;
