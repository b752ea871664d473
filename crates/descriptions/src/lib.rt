//! What a role is in, what it may do to a table, and which policies apply to it there.
#![tactic(auto)]

pub mod access;
pub mod memberships;
pub mod policies;
pub mod privileges;
pub mod role;
