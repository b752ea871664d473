//! Clients over connections of which no call waits.
#![tactic(auto)]

mod arrivals;
pub mod clients;
mod ends;
mod hearing;
pub mod held;
pub mod limits;
pub mod lock_watch;
pub mod looks;
mod losing;
pub mod need;
pub mod peer;
pub mod peers;
mod rounds;
mod sending;
pub mod strangers;
pub mod times;
pub mod turns;
pub mod waiting;
