//! For whom sessions were opened, of all that a server of many clients did.
//!
//! Each function here does nothing: its clauses are laws, whose words are in `specs/` and whose proofs in `proofs/`.
#![tactic(auto)]

pub mod laws;
