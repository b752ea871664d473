//! Memory in which a tree is changed.

use crate::bound::KeyBound;
use std::alloc::Global;
use storage_sizes::PAGE_SIZE;

/// Memory in which nodes are changed: a page, the cells of a node, and the key between the two parts of a node that was
/// split; and the key that was put last, which tells keys that rise. Beside it is how many free pages a join of two leaves leaves
/// alone.
#[derive(Drop)]
pub struct NodeScratch {
    pub(crate) page: [u8; PAGE_SIZE],
    pub(crate) cells: Vec<u8>,
    pub(crate) separator: Vec<u8>,
    pub(crate) last: Vec<u8>,
    pub(crate) spared: u32,
}

/// Memory in which a tree is changed: that in which nodes are, the page of a node that is read, and what bounds the keys of
/// a leaf. A caller keeps it from one change of a tree to the next, so that it is made once.
pub struct Scratch {
    pub(crate) nodes: NodeScratch,
    pub(crate) page: [u8; PAGE_SIZE],
    pub(crate) bound: KeyBound,
}

// Written and not derived: where a value is dropped this is one call, and not its parts one by one.
impl Drop for Scratch {
    fn drop(self) {
        let Scratch {
            nodes: _,
            page: _,
            bound: _,
        } = self;
    }
}

impl Scratch {
    /// Empty scratch.
    pub fn new(alloc: Global) -> Self {
        Scratch {
            nodes: NodeScratch {
                page: [0; PAGE_SIZE],
                cells: Vec::new(alloc),
                separator: Vec::new(alloc),
                last: Vec::new(alloc),
                spared: 0,
            },
            page: [0; PAGE_SIZE],
            bound: KeyBound {
                is_set: false,
                key: Vec::new(alloc),
            },
        }
    }
}
