//! What a tenant is told by two databases through openings and stops.
//!
//! Each function here does nothing: its clauses are laws, which are in `specs/` and are proved in `proofs/`.
#![tactic(auto)]

pub mod devices;
pub mod lives;
