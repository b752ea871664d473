//! The bytes of pages in memory, of which the least recently used page gives up its place.
#![tactic(auto)]

mod cache;

pub use cache::PageCache;
