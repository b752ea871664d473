//! Leaves that are kept after a look-up.
ghost use Rattle.std.specs.Prelude.{◌≡◌, ◌≤◌};
ghost use Rattle.page_nodes.specs.Node.{page_size};

use storage_sizes::PAGE_SIZE;

/// The page of a leaf, where in it the cells begin that come next, and how many they are. None are left where the page is
/// no such leaf.
#[derive(Drop)]
pub(crate) struct KeptLeaf {
    pub(crate) page: [u8; PAGE_SIZE],
    pub(crate) at: usize,
    pub(crate) left: usize,
    ghost within: { at ≤ page_size },
}

/// Where a cell of a leaf begins.
#[derive(Clone, Copy, Drop)]
pub(crate) struct CellStart {
    pub(crate) at: usize,
    ghost within: { at ≤ page_size },
}

/// Where the key of a cell of a leaf begins, where its value does, at the end of the key, and where the value ends.
#[derive(Clone, Copy, Drop)]
pub(crate) struct CellParts {
    pub(crate) key_at: usize,
    pub(crate) value_at: usize,
    pub(crate) end: usize,
    ghost key_ends: { key_at ≤ value_at },
    ghost value_ends: { value_at ≤ end },
    ghost within: { end ≤ page_size },
}

impl KeptLeaf {
    // No leaf.
    pub(crate) fn none() -> Self
        ensures { result.left ≡ 0 }
    {
        KeptLeaf {
            page: [0; PAGE_SIZE],
            at: 0,
            left: 0,
        }
    }
}
