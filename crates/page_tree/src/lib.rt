//! An ordered map of byte strings in an array of pages: a tree from logical page 0.
#![tactic(auto)]

mod appending;
mod bound;
mod changes;
mod check;
mod counting;
mod cursor;
mod cuts;
mod joining;
mod laws;
mod leaf;
mod puts;
mod removal;
mod scratch;
mod search;
mod tree_walk;

pub use changes::change_first;
pub use check::check_tree;
pub use counting::count_to;
pub use cursor::{TreeCursor, first_from, first_on, next};
pub use laws::{leaf_alone, represented_map};
pub use scratch::Scratch;
pub use search::{MAX_HEIGHT, contains, get};
pub use tree_walk::{TreeWalk, step};
