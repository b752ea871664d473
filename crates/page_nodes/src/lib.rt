//! The bytes of a node of the tree, a leaf or an inner node, in a page of 4,096 bytes: read in place, and written from a list of cells.
#![tactic(auto)]

mod cell;
mod merge;
mod offsets;
mod page;
mod scratch;
mod search;
mod start;

pub use cell::{CellView, NodeKind, cell_at, is_less, push_cell};
pub use merge::LeafMerge;
pub use offsets::{IndexedPage, PageView};
pub use page::{
    EndKeys, WholeNode, first_child, fits, kind_of, node_kind, one_node, whole_node, write_node,
};
pub use scratch::{
    Cut, CutPlace, Edit, append_cells, cells_end, cut_for, edit_cells, middle, push_payload,
    skip_key,
};
pub use search::{
    Branch, CellPosition, Pair, Turn, child_for, child_of, pair_for, seek, seek_on, turn_for,
    value_in,
};
pub use storage_sizes::PAGE_SIZE;
