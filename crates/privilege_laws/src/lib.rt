//! What privileges hide from a tenant.
//!
//! Each function here does nothing: its clauses are laws, which are in `specs/` and are proved in `proofs/`.
#![tactic(auto)]

pub mod columns;
pub mod tables;
