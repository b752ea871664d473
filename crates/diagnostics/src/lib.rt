//! What is said of an event of a script on standard error, beside its answer: what the code of a refusal
//! means, where a statement's syntax goes wrong, what the word there is left out of, and which word was
//! taken for an alias.
#![tactic(auto)]

mod aliases;
pub mod events;
mod left_out;
mod marks;
pub mod meanings;
mod words;
