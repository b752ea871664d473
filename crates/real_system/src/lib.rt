//! The system of a machine: its files, its ports and its sockets.
#![tactic(auto)]

mod drawn;
mod file_id;
mod files;
mod guarded_socket;
mod listening;
mod new_files;
mod progress;
mod real;
mod real_listener;
mod several;
mod socket;
mod streams;

pub use drawn::SystemDraw;
pub use listening::PlaceListener;
pub use progress::PrintedProgress;
pub use real::RealSystem;
pub use streams::{NULL_DEVICE, SystemStream};
