//! The definitions of a database in memory, looked up by name: its roles, their memberships, and its
//! tables with their privilege descriptors and policies. Nothing here reads or writes records.
//!
//! Contracts see a [`Catalogue`] as the `Definitions` of the crate `stored_database`.
#![tactic(auto)]

pub mod change;
pub mod definitions;
pub mod descriptor_change;
pub(crate) mod descriptor_edit;
pub mod effect;
pub(crate) mod grants;
pub mod laws;
pub mod names;
pub mod numbers;
pub mod order;
pub mod policy;
pub(crate) mod reservation;
pub mod staged;
pub mod table;
