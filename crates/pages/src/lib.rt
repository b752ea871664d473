//! Arrays of logical pages of 4,096 bytes: the trait that a tree stands on, and one in memory.
#![tactic(auto)]

mod array;
mod memory;

pub use array::{PageFault, Pages};
pub use memory::MemPages;
pub use storage_sizes::PAGE_SIZE;
