//! What privileges hide from a tenant, over stores.
//!
//! Each function here does nothing: its clauses are laws, which are in `specs/` and are proved in `proofs/`.
#![tactic(auto)]

pub mod stores;
