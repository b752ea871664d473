//! The commands of SQL, one by one: which tokens spell each, and how it is read.
//!
//! `specs/Commands.antt` is the table of the grammar: a phrase for each command, which reads as
//! its line of the grammar. One more command is a phrase there with its line in `phrase_of`; a
//! function that reads it step by step as the phrase has them; in `command.rt` a variant of
//! [`command::Command`], its place in [`command::COMMANDS`] and its line in [`command::read_as`];
//! and, where more is asked of it than that its names are names, what it spells in
//! `proofs/ReadStatements.antt`. `proofs/Table.antt` computes over [`command::COMMANDS`] that one
//! token of look-ahead tells how each command is read, and that the first two tokens tell most of
//! them apart.
//!
//! [`whole::statement`] reads all tokens of a text as one command, and `sql_parser` stands on it.
#![tactic(auto)]

pub mod command;
pub mod laws;
mod leaves;
mod list;
pub mod memberships;
mod optional;
pub mod policies;
pub mod privileges;
mod production;
pub mod queries;
mod repeated;
pub mod roles;
pub mod rows;
mod sort_key_expression;
mod steps;
pub mod tables;
pub mod transactions;
pub mod whole;
