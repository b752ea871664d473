//! What a tenant is told whose clients have other numbers in each run.
//!
//! Each function here does nothing: its clauses are laws, which are in `specs/` and are proved in `proofs/`.
#![tactic(auto)]

pub mod clients;
pub mod connections;
pub mod renumbering;
