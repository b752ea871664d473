//! What follows from the definitions of the database, in the words of its subject.
//!
//! Each function here does nothing: its clauses are laws, which are in `specs/` and are proved in `proofs/`.
#![tactic(auto)]

pub mod blocks;
pub mod column_privileges;
pub mod definitions;
pub mod grants;
pub mod memberships;
pub mod patterns;
pub mod privileges;
pub mod queries;
pub mod rights;
pub mod row_security;
pub mod rows;
pub mod runs;
pub mod sessions;
pub mod stages;
pub mod tables;
pub mod values;
pub mod whole_databases;
pub mod writes;
