//! Lives of a database: it is opened, events are answered, and it stops; and again, without end.
//! Databases on devices: they are made and opened, and scripts and connections run over them.
#![tactic(auto)]

mod database;
mod device_following;
mod fault;
mod following;
mod making;
mod new_database;
mod on_device;
mod over_store;
mod renewing;
mod runs;
mod stopping;

pub use database::{Opened, open_database};
pub use device_following::{
    clients_are_told_their_own, each_call_may_be_the_last, runs_follow_stops, told_answers_stay,
};
pub use fault::DatabaseFault;
pub use following::lives_follow_stops;
pub use making::make_database;
pub use new_database::a_stop_leaves_none_or_the_new_one;
pub use on_device::live;
pub use over_store::live_over;
pub use renewing::renewed;
pub use runs::{run_script_on, serve_clients_on, serve_database};
pub use stopping::{either_may_be_left, steps_run_at_moments, told_answers_are_done};
