//! What a program needs of the system that it runs on, as a contract: what its paths and its places
//! name. With it stands a system in memory.
#![tactic(auto)]

mod access;
mod draw;
mod entries;
mod fault;
mod listener;
mod memory;
mod place;
mod system;

pub use access::Access;
pub use draw::{Draw, ZeroDraw};
pub use entries::{Content, NamedContent};
pub use fault::{InputFault, OpenPathFault, TextFault};
pub use listener::{MemListener, MemReader};
pub use memory::{MemSystem, memory_is_faithful};
pub use place::{ListenPlace, OnePlace, SocketAccess};
pub use sector_device::{FileFault, SystemCause};
pub use system::System;
