//! Many clients of one server: what was done for them, as events that the server took one after the
//! other.
#![tactic(auto)]

pub mod laws;
