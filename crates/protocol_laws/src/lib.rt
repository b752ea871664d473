//! What is said to clients of PostgreSQL's protocol, and at places that ask for passwords.
//!
//! Each function here does nothing: its clauses are laws, whose words are in `specs/` and whose proofs in `proofs/`.
#![tactic(auto)]

pub mod clients;
pub mod protocols;
pub mod telling;
