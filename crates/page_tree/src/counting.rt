//! Counts of the entries of a span of keys.
ghost use Rattle.std.specs.Prelude.{◌≡◌, ◌≢◌, OnOk, IfErr};
ghost use Rattle.page_tree.specs.Calls.{LeavesPages};
ghost use Rattle.page_tree.specs.Counts.{Counts, is_within};

use crate::tree_walk::{TreeWalk, step};
use page_nodes::is_less;
use pages::{PageFault, Pages};
use std::alloc::Global;

// Whether a key begins with a stop or comes before it.
pub(crate) fn is_within(stop: &[u8], key: &[u8]) -> bool
    ensures { result ≡ is_within stop.now key.now }
{
    key.starts_with(stop) || is_less(key, stop)
}

/// How many entries have a key from `start` on that comes before `stop` or begins with it, or `most` where they are as many or
/// more: no leaf is read behind those that tell it. Of a leaf whose last key does, the cells are counted, and no other key is
/// compared. A fault comes from the pages, or is Memory where an
/// allocation failed, and is never Full; the pages stay as they are, also then.
pub fn count_to<P: Pages>(
    alloc: Global,
    pages: &mut P,
    start: &[u8],
    stop: &[u8],
    most: u64,
) -> Result<u64, PageFault>
    ensures preserved { P.preserved pages.old pages.new }
    ensures works { P.works pages.old → OnOk result (P.works pages.new) }
    ensures only_reads { LeavesPages P.Pages pages.old pages.new }
    ensures counted { Counts P.Pages pages.old pages.new start.now stop.now most result }
    ensures faults { IfErr result (λ f. f ≢ PageFault.Full) }
{
    let mut walk = TreeWalk::from_key(alloc, start)?;
    let mut count = 0u64;
    for _ in 0..u64::MAX {
        if count >= most {
            return Ok(most);
        }
        if !step(pages, &mut walk)? {
            return Ok(count);
        }
        if !is_within(stop, walk.entry().0) {
            return Ok(count);
        }
        let passed = walk.pass_leaf(stop)?;
        count = count.saturating_add(1).saturating_add(passed as u64);
    }
    Err(PageFault::Memory)
}
