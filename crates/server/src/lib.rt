//! A server of sessions over any store: what each event answers, and what a stop at any moment
//! leaves of its database.
#![tactic(auto)]

mod changing;
pub mod decide;
pub mod decision;
pub mod execute;
mod locking;
pub mod look_ups;
pub mod numbers;
mod questions;
mod reads;
pub mod server;
pub mod session;
pub mod writer;
