//! Who may do what with a table: each role by itself and by SET ROLE, by which grants and memberships, and under which policies.
//! And which powers each role has over the whole database, and as which roles it may act there.
#![tactic(auto)]

pub mod acting;
pub mod action;
mod asking;
mod columns;
mod grants;
mod likeness;
pub mod powers;
pub mod role;
pub mod table;
mod ways;
