//! What servers of many clients tell a tenant.
//!
//! Each function here does nothing: its clauses are laws, which are in `specs/` and are proved in `proofs/`.
#![tactic(auto)]

pub mod apart;
pub mod protocols;
pub mod saying;
pub mod servers;
