//! Look-ups: from the root down to a leaf.
ghost use Rattle.std.specs.Prelude.{◌≢◌, [], OnOk, IfErr};
ghost use Rattle.pages.specs.State.{GetOwn};
ghost use Rattle.page_tree.specs.Calls.{LeavesPages, Gets, Contains, ReadsNode, FindsLeaf};

use page_nodes::{NodeKind, child_for, kind_of, value_in};
use pages::{PageFault, Pages};
use storage_sizes::PAGE_SIZE;

/// The most nodes on a way from the root down to a leaf. An inner node has two children at least, so a tree whose leaves
/// lie below `n` inner nodes has 2 to the power of `n` leaves; these are pages of their own, whose numbers have 16 bits,
/// so `n` is at most 16, and the leaf makes 17.
pub const MAX_HEIGHT: u32 = 17;

/// Reads a page that holds a node, and tells its kind. Malformed: it holds none.
pub fn read_node<P: Pages>(
    pages: &mut P,
    page: u32,
    bytes: &mut [u8; PAGE_SIZE],
) -> Result<NodeKind, PageFault>
    ensures preserved { P.preserved pages.old pages.new }
    ensures works { OnOk result (P.works pages.new) }
    ensures only_reads { LeavesPages P.Pages pages.old pages.new }
    ensures found { ReadsNode P.Pages pages.old pages.new page bytes.new result }
    ensures faults { IfErr result (λ f. f ≢ PageFault.Full) }
    ensures own { OnOk result (GetOwn [] (P.own pages.old) (P.own pages.new)) }
{
    pages.read(page, bytes)?;
    match kind_of(bytes) {
        Some(kind) => Ok(kind),
        None => Err(PageFault::Malformed),
    }
}

/// Fetches a page that holds a node, and tells its kind. Malformed: it holds none.
pub(crate) fn fetch_node<P: Pages>(pages: &mut P, page: u32) -> Result<NodeKind, PageFault>
    ensures preserved { P.preserved pages.old pages.new }
    ensures works { OnOk result (P.works pages.new) }
    ensures only_reads { LeavesPages P.Pages pages.old pages.new }
    ensures found { ReadsNode P.Pages pages.old pages.new page (P.fetched pages.new) result }
    ensures faults { IfErr result (λ f. f ≢ PageFault.Full) }
    ensures own { OnOk result (GetOwn [] (P.own pages.old) (P.own pages.new)) }
{
    pages.fetch(page)?;
    match kind_of(pages.fetched().bytes()) {
        Some(kind) => Ok(kind),
        None => Err(PageFault::Malformed),
    }
}

/// Fetches the leaf of a key, from the page of a tree on.
fn leaf_below<P: Pages>(pages: &mut P, page: u32, levels: u32, key: &[u8]) -> Result<(), PageFault>
    ensures preserved { P.preserved pages.old pages.new }
    ensures works { OnOk result (P.works pages.new) }
    ensures only_reads { LeavesPages P.Pages pages.old pages.new }
    ensures found { FindsLeaf P.Pages pages.old pages.new page levels key.now (P.fetched pages.new)
        result }
    ensures faults { IfErr result (λ f. f ≢ PageFault.Full) }
{
    if levels == 0 {
        return Err(PageFault::Malformed);
    }
    match fetch_node(pages, page)? {
        NodeKind::Leaf => Ok(()),
        NodeKind::Inner => {
            let Some(branch) = child_for(pages.fetched(), key) else {
                return Err(PageFault::Malformed);
            };
            leaf_below(pages, branch.child, levels - 1, key)
        }
    }
}

/// Looks up a key, and copies its value to `value`. False: the map has no such key. A fault comes from the pages, or is
/// Memory where an allocation failed, and is never Full; the pages stay as they are, also then.
pub fn get<P: Pages>(pages: &mut P, key: &[u8], value: &mut Vec<u8>) -> Result<bool, PageFault>
    ensures preserved { P.preserved pages.old pages.new }
    ensures works { OnOk result (P.works pages.new) }
    ensures only_reads { LeavesPages P.Pages pages.old pages.new }
    ensures found { Gets P.Pages pages.old pages.new key.now value.new.items result }
    ensures faults { IfErr result (λ f. f ≢ PageFault.Full) }
{
    leaf_below(pages, 0, MAX_HEIGHT, key)?;
    let Some(found) = value_in(pages.fetched(), key) else {
        return Err(PageFault::Malformed);
    };
    value.clear();
    let Some(bytes_found) = found else {
        return Ok(false);
    };
    match value.extend_from_slice(bytes_found) {
        Ok(()) => Ok(true),
        Err(_) => Err(PageFault::Memory),
    }
}

/// Whether the map has a key. A fault comes from the pages, and is never Full; the pages stay as they are, also then.
pub fn contains<P: Pages>(pages: &mut P, key: &[u8]) -> Result<bool, PageFault>
    ensures preserved { P.preserved pages.old pages.new }
    ensures works { OnOk result (P.works pages.new) }
    ensures only_reads { LeavesPages P.Pages pages.old pages.new }
    ensures found { Contains P.Pages pages.old pages.new key.now result }
    ensures faults { IfErr result (λ f. f ≢ PageFault.Full) }
{
    leaf_below(pages, 0, MAX_HEIGHT, key)?;
    let Some(found) = value_in(pages.fetched(), key) else {
        return Err(PageFault::Malformed);
    };
    Ok(found.is_some())
}
