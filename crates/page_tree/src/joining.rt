//! Changes of the tree: a leaf that has few cells left is joined with the one beside it.
ghost use Rattle.std.specs.Prelude.{◌≡◌, ◌≢◌, [], length, OnOk, IfOk, IfErr, IfSome};
ghost use Rattle.pages.specs.State.{GetOwn};
ghost use Rattle.page_nodes.specs.Node.{IsCount, FitsPage};
ghost use Rattle.page_nodes.specs.declared.cell.NodeKind.TheVariants.{Leaf};
ghost use Rattle.page_tree.specs.Calls.{LeavesPages};
ghost use Rattle.page_tree.specs.Removal.{IsPageNumber};
ghost use Rattle.page_tree.specs.Joining.{TakesCell, CopiesLeaf, CopiesLeaves, StoresJoined, JoinsLeaves};
ghost use Rattle.page_tree.specs.Taking.{TakesAtMost};

use crate::removal::{copy_without, pair_at, write_cells};
use crate::scratch::NodeScratch;
use page_nodes::{NodeKind, append_cells, first_child, write_node};
use pages::{PageFault, Pages};
use storage_sizes::{MAX_PAGES, PAGE_SIZE};

/// Cells of a leaf of fewer bytes are few: a quarter of a page.
const UNDERFULL_BYTES: usize = PAGE_SIZE / 4;

/// The most bytes of the cells of two leaves that are joined. The rest of the page, an eighth, is left for cells that are put later.
const MAX_JOINED: usize = PAGE_SIZE / 8 * 7;

/// How many free pages a join leaves alone, besides one for each change that is still to be made.
const RESERVED_PAGES: u32 = 64;

/// Two leaves side by side.
#[derive(Clone, Copy, Drop)]
struct Neighbours {
    left: u32,
    right: u32,
}

/// Two leaves side by side. The number of a page has 32 bits.
fn beside(left: u32, right: u32) -> Neighbours
    ensures pages { (result.left ≡ left) × (result.right ≡ right) }
    ensures numbers { IsPageNumber left × IsPageNumber right }
{
    Neighbours { left, right }
}

/// Whether cells of so many bytes are few for a leaf.
pub(crate) fn is_underfull(cells: usize) -> bool {
    cells < UNDERFULL_BYTES
}

/// Takes the cell of the right one of two children from an inner node that has been read: the child of a key, and the one beside
/// it. None: the node would have one child left.
fn take_cell(
    bytes: &mut [u8; PAGE_SIZE],
    key: &[u8],
    cells: &mut Vec<u8>,
) -> Result<Option<Neighbours>, PageFault>
    ensures taken { TakesCell bytes.old bytes.new key.now result }
    ensures numbers { IfOk result (λ found. IfSome found (λ leaves.
        IsPageNumber leaves.left × IsPageNumber leaves.right)) }
    ensures faults { IfErr result (λ f. f ≢ PageFault.Full) }
{
    let pair = pair_at(bytes, key)?;
    let left = pair.left;
    let right = pair.right;
    let count = copy_without(bytes, NodeKind::Inner, pair.key, cells)?;
    if count == 0 {
        return Ok(None);
    }
    let first = first_child(bytes).to_be_bytes();
    write_node(bytes, NodeKind::Inner, &first, cells.as_slice(), count);
    Ok(Some(beside(left, right)))
}

/// How many free pages a join leaves alone where so many changes are still to be made: one for the leaf of each, and 64 besides. A
/// change that splits nodes takes more than one, so a join may take a page that one of these changes needs: no contract bounds that.
pub(crate) fn pages_to_spare(changes: usize) -> u32 {
    RESERVED_PAGES + changes.min(MAX_PAGES as usize) as u32
}

/// Whether two leaves may be joined below a page: each of the three has a page of its own already, or more than so many are free.
fn may_join<P: Pages>(pages: &P, page: u32, leaves: Neighbours, spared: u32) -> bool {
    pages.spares(page, spared)
        && pages.spares(leaves.left, spared)
        && pages.spares(leaves.right, spared)
}

/// Copies the cells of a leaf to scratch, after those that are there, and gives their number. Malformed: the page holds none.
fn copy_leaf<P: Pages>(pages: &mut P, page: u32, cells: &mut Vec<u8>) -> Result<usize, PageFault>
    ensures preserved { P.preserved pages.old pages.new }
    ensures works { OnOk result (P.works pages.new) }
    ensures only_reads { LeavesPages P.Pages pages.old pages.new }
    ensures copied { CopiesLeaf P.Pages pages.old pages.new page cells.old.items cells.new.items result }
    ensures few { IfOk result (λ count. IsCount count) }
    ensures faults { IfErr result (λ f. f ≢ PageFault.Full) }
    ensures own { OnOk result (GetOwn [] (P.own pages.old) (P.own pages.new)) }
{
    pages.fetch(page)?;
    let copied = append_cells(pages.fetched().bytes(), NodeKind::Leaf, cells)?;
    match copied {
        Some(count) => Ok(count),
        None => Err(PageFault::Malformed),
    }
}

/// Copies the cells of two leaves to scratch, and gives their number. None: they would leave little room in one page.
fn copy_leaves<P: Pages>(
    pages: &mut P,
    leaves: Neighbours,
    cells: &mut Vec<u8>,
) -> Result<Option<usize>, PageFault>
    ensures preserved { P.preserved pages.old pages.new }
    ensures works { OnOk result (P.works pages.new) }
    ensures only_reads { LeavesPages P.Pages pages.old pages.new }
    ensures copied { CopiesLeaves P.Pages pages.old pages.new leaves cells.new.items result }
    ensures few { IfOk result (λ count. IfSome count (λ n. IsCount n)) }
    ensures fits { IfOk result (λ count. IfSome count (λ n. FitsPage Leaf (length cells.new.items))) }
    ensures faults { IfErr result (λ f. f ≢ PageFault.Full) }
    ensures own { OnOk result (GetOwn [] (P.own pages.old) (P.own pages.new)) }
{
    cells.clear();
    let left = copy_leaf(pages, leaves.left, cells)?;
    let right = copy_leaf(pages, leaves.right, cells)?;
    let count = left + right;
    if cells.len() > MAX_JOINED || count > PAGE_SIZE {
        return Ok(None);
    }
    Ok(Some(count))
}

/// Writes the cells in scratch, so many, to the left one of two leaves, frees the right one, and writes the inner node above.
fn store_joined<P: Pages>(
    pages: &mut P,
    bytes: &[u8; PAGE_SIZE],
    page: u32,
    leaves: Neighbours,
    count: usize,
    scratch: &mut NodeScratch,
) -> Result<(), PageFault>
    requires few { IsCount count }
    requires fits { FitsPage Leaf (length scratch.old.cells.items) }
    ensures preserved { P.preserved pages.old pages.new }
    ensures works { OnOk result (P.works pages.new) }
    ensures stored { StoresJoined P.Pages pages.old pages.new page leaves bytes.now
        scratch.old.cells.items count result }
    ensures takes { TakesAtMost P.Pages pages.old pages.new result (λ _. 2) 1 }
{
    pages.free_page(leaves.right)?;
    write_cells(
        pages,
        &mut scratch.page,
        leaves.left,
        NodeKind::Leaf,
        b"",
        scratch.cells.as_slice(),
        count,
    )?;
    pages.write(page, bytes)
}

/// Joins the leaf of a key with the one beside it, where their cells leave room in one page and the inner node above, which has
/// been read, keeps two children. Else nothing is written.
pub(crate) fn join_leaves<P: Pages>(
    pages: &mut P,
    bytes: &mut [u8; PAGE_SIZE],
    page: u32,
    key: &[u8],
    scratch: &mut NodeScratch,
) -> Result<(), PageFault>
    ensures preserved { P.preserved pages.old pages.new }
    ensures works { P.works pages.old → OnOk result (P.works pages.new) }
    ensures joined { JoinsLeaves P.Pages pages.old pages.new page bytes.old key.now result }
    ensures takes { TakesAtMost P.Pages pages.old pages.new result (λ _. 2) 1 }
{
    let taken = take_cell(bytes, key, &mut scratch.cells)?;
    let Some(leaves) = taken else {
        return Ok(());
    };
    if !may_join(pages, page, leaves, scratch.spared) {
        return Ok(());
    }
    let copied = copy_leaves(pages, leaves, &mut scratch.cells)?;
    let Some(count) = copied else {
        return Ok(());
    };
    store_joined(pages, bytes, page, leaves, count, scratch)
}
