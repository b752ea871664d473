//! Which pages of a device are free: pages are taken, given back and protected, without memory.
#![tactic(auto)]

mod allocator;
mod order;

pub use allocator::{Full, PageAllocator, PageNo};
