//! Where a search in a node starts.
ghost use Rattle.std.specs.Prelude.{◌≤◌, ℕ, List};
ghost use Rattle.page_nodes.specs.Map.{Entry};
ghost use Rattle.page_nodes.specs.Node.{page_size, IsNode, zeros_after};
ghost use Rattle.page_nodes.specs.Search.{IsStart};
ghost use Rattle.page_nodes.specs.Views.{bytes_of};

use crate::cell::{NodeKind, cell_at, is_less};
use crate::offsets::{PageView, STRIDE};

/// Where a search among the cells of a node starts: the byte at which a cell begins, and how many cells come before it.
#[derive(Clone, Copy, Drop)]
pub(crate) struct Start {
    pub(crate) at: usize,
    pub(crate) index: usize,
}

/// Where to start a search for a key: at the last cell not after the key whose offset is known, or else at the first cell.
pub(crate) fn start_for(page: PageView<'_>, kind: NodeKind, key: &[u8]) -> Start
    ensures inside { result.at ≤ page_size }
    ensures starts { (first : List ℕ) (cells : List Entry) → IsNode kind first cells (bytes_of page.entry)
        → IsStart kind (bytes_of page.entry) key.now cells (zeros_after kind first cells) result.at
        result.index }
{
    let mut start = Start {
        at: kind.start(),
        index: 0,
    };
    let bytes = page.bytes;
    let offsets = page.offsets;
    let mut low = 0;
    let mut high = offsets.len();
    while low < high {
        let middle = low + (high - low) / 2;
        let at = offsets[middle] as usize;
        let Some(cell) = cell_at(bytes, kind, at) else {
            break;
        };
        if is_less(key, cell.key) {
            high = middle;
        } else {
            start = Start {
                at,
                index: STRIDE * middle,
            };
            low = middle + 1;
        }
    }
    start
}
