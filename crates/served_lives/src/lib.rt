//! What servers of many clients tell a tenant through openings and stops.
//!
//! Each function here does nothing: its clauses are laws, which are in `specs/` and are proved in `proofs/`.
#![tactic(auto)]

pub mod apart;
pub mod lives;
pub mod saying;
