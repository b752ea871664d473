//! What becomes of the database on a device over any number of commands and crashes.
#![tactic(auto)]

mod commands;
mod on_device;

pub use commands::{commands_follow_stops, eventless_commands_bring_nothing};
pub use on_device::{check_device, copy_device, switch_device};
