//! Changes of the tree: nodes follow what a removal has left of one below.
ghost use Rattle.std.specs.Prelude.{◌≡◌, ◌≢◌, ◌↔◌, IsTrue, length, OnOk, IfOk, IfErr, IfSome};
ghost use Rattle.page_nodes.specs.Map.{without};
ghost use Rattle.page_nodes.specs.Node.{four_bytes, IsKeySize, IsShortKey, IsFirst, IsCount, FitsPage};
ghost use Rattle.page_nodes.specs.declared.cell.NodeKind.TheVariants.{Inner};
ghost use Rattle.page_tree.specs.Calls.{CopiesCells};
ghost use Rattle.page_tree.specs.Removal.{IsPageNumber, HasSeparator};
ghost use Rattle.page_tree.specs.Taking.{TakesAtMost, TakesToFollow, most_left, most_stored, most_merged};
ghost use Rattle.page_tree.specs.RemovalCalls.{WritesCells, PairsChildren, CopiesRest, StoresRest, RemovesChild, JoinsBefore, JoinsNeighbour, MergesChild, FollowsChild, ClearsRoot, CollapsesRoot};

use crate::cuts::SplitPoint;
use crate::joining::join_leaves;
use crate::puts::{copy_with, put_child, set_separator, store_cells};
use crate::scratch::NodeScratch;
use page_nodes::{NodeKind, Pair, edit_cells, first_child, pair_for, write_node};
use pages::{PageFault, Pages};
use storage_sizes::PAGE_SIZE;

/// What is left of a tree once an entry is removed from it.
#[derive(Clone, Copy, Drop)]
pub enum Underflow {
    /// No entry: the page is to be freed.
    Nothing,
    /// One child: it is to be put elsewhere, and the page to be freed.
    Child(u32),
    /// A tree under its page, and perhaps a second one under a new page, from the separator on.
    Trees(Option<u32>),
    /// A leaf under its page, with few cells: it is to be joined with the one beside it.
    FewCells,
}

/// An inner node without one of its children: the first child that is left, and how many cells are in scratch.
#[derive(Clone, Copy, Drop)]
struct Rest {
    first: u32,
    count: usize,
}

/// Copies to scratch the cells of a node without the cell of a key, and gives their number. Malformed: these bytes are no
/// node of that kind.
pub(crate) fn copy_without(
    bytes: &[u8; PAGE_SIZE],
    kind: NodeKind,
    key: &[u8],
    cells: &mut Vec<u8>,
) -> Result<usize, PageFault>
    requires { IsShortKey key.now }
    ensures copied { CopiesCells kind bytes.now (without key.now) cells.new.items result }
    ensures few { IfOk result (λ count. IsCount count) }
    ensures fits { OnOk result (FitsPage kind (length cells.new.items)) }
    ensures faults { IfErr result (λ f. f ≢ PageFault.Full) }
{
    match edit_cells(bytes, kind, key, None, cells) {
        Ok(Some(edit)) => Ok(edit.count),
        Ok(None) => Err(PageFault::Malformed),
        Err(_) => Err(PageFault::Memory),
    }
}

/// Writes to a page the node that has these cells.
pub fn write_cells<P: Pages>(
    pages: &mut P,
    bytes: &mut [u8; PAGE_SIZE],
    page: u32,
    kind: NodeKind,
    first: &[u8],
    cells: &[u8],
    count: usize,
) -> Result<(), PageFault>
    requires first { IsFirst kind first.now }
    requires few { IsCount count }
    requires fits { FitsPage kind (length cells.now) }
    ensures preserved { P.preserved pages.old pages.new }
    ensures works { OnOk result (P.works pages.new) }
    ensures written { WritesCells P.Pages pages.old pages.new page kind first.now cells.now count
        result }
    ensures takes { TakesAtMost P.Pages pages.old pages.new result (λ _. 1) 0 }
{
    write_node(bytes, kind, first, cells, count);
    pages.write(page, bytes)
}

/// The child of a key beside the one before it; the first child beside the one after it. Malformed: these bytes are no
/// inner node with a cell.
pub(crate) fn pair_at<'a>(bytes: &'a [u8; PAGE_SIZE], key: &[u8]) -> Result<Pair<'a>, PageFault>
    ensures pair { PairsChildren bytes.now key.now result }
    ensures size { IfOk result (λ p. IsKeySize p.key.now) }
    ensures faults { IfErr result (λ f. f ≢ PageFault.Full) }
{
    let Some(pair) = pair_for(bytes, key) else {
        return Err(PageFault::Malformed);
    };
    Ok(pair)
}

/// Whether two pages are the same one. The number of a page has 32 bits.
fn is_same_page(a: u32, b: u32) -> bool
    ensures same { IsTrue result ↔ (four_bytes a ≡ four_bytes b) }
    ensures number { IsPageNumber a }
{
    a == b
}

/// Copies to scratch an inner node that has been read, without the child of a key.
fn copy_rest(
    bytes: &[u8; PAGE_SIZE],
    child: u32,
    key: &[u8],
    cells: &mut Vec<u8>,
) -> Result<Rest, PageFault>
    ensures copied { CopiesRest bytes.now key.now child cells.new.items result }
    ensures few { IfOk result (λ rest. IsCount rest.count) }
    ensures fits { OnOk result (FitsPage Inner (length cells.new.items)) }
    ensures faults { IfErr result (λ f. f ≢ PageFault.Full) }
{
    let pair = pair_at(bytes, key)?;
    let count = copy_without(bytes, NodeKind::Inner, pair.key, cells)?;
    if is_same_page(pair.left, child) {
        return Ok(Rest {
            first: pair.right,
            count,
        });
    }
    Ok(Rest {
        first: first_child(bytes),
        count,
    })
}

/// Writes to a page the inner node that has a first child and the cells in scratch, unless there are none.
fn store_rest<P: Pages>(
    pages: &mut P,
    page: u32,
    rest: Rest,
    scratch: &mut NodeScratch,
) -> Result<Underflow, PageFault>
    requires { IsCount rest.count }
    ensures preserved { P.preserved pages.old pages.new }
    ensures works { P.works pages.old → OnOk result (P.works pages.new) }
    ensures size { IfOk result (λ left. HasSeparator left scratch.new.separator.items) }
    ensures stored { StoresRest P.Pages pages.old pages.new page rest scratch.old.cells.items
        scratch.new.separator.items result }
    ensures takes { TakesAtMost P.Pages pages.old pages.new result (λ left. most_stored left) 1 }
{
    if rest.count == 0 {
        return Ok(Underflow::Child(rest.first));
    }
    let first = rest.first.to_be_bytes();
    let made = store_cells(
        pages,
        page,
        NodeKind::Inner,
        &first,
        rest.count,
        SplitPoint::Middle,
        scratch,
    )?;
    Ok(Underflow::Trees(made))
}

/// Removes from an inner node that has been read the child of a key, of which nothing is left.
fn remove_child<P: Pages>(
    pages: &mut P,
    bytes: &[u8; PAGE_SIZE],
    page: u32,
    child: u32,
    key: &[u8],
    scratch: &mut NodeScratch,
) -> Result<Underflow, PageFault>
    ensures preserved { P.preserved pages.old pages.new }
    ensures works { P.works pages.old → OnOk result (P.works pages.new) }
    ensures size { IfOk result (λ left. HasSeparator left scratch.new.separator.items) }
    ensures removed { RemovesChild P.Pages pages.old pages.new page child bytes.now key.now
        scratch.new.separator.items result }
    ensures takes { TakesAtMost P.Pages pages.old pages.new result (λ left. most_stored left) 1 }
{
    let rest = copy_rest(bytes, child, key, &mut scratch.cells)?;
    store_rest(pages, page, rest, scratch)
}

/// Puts a child before the children of an inner node, which are from the key on. Some: the page of the second part, if the
/// node was split.
fn join_before<P: Pages>(
    pages: &mut P,
    page: u32,
    child: u32,
    key: &[u8],
    scratch: &mut NodeScratch,
) -> Result<Option<u32>, PageFault>
    requires { IsKeySize key.now }
    ensures number { IsPageNumber page }
    ensures preserved { P.preserved pages.old pages.new }
    ensures works { OnOk result (P.works pages.new) }
    ensures size { IfOk result (λ made. IfSome made (λ there.
        IsKeySize scratch.new.separator.items)) }
    ensures joined { JoinsBefore P.Pages pages.old pages.new page child key.now
        scratch.new.separator.items result }
    ensures takes { TakesAtMost P.Pages pages.old pages.new result (λ _. 2) 1 }
{
    pages.read(page, &mut scratch.page)?;
    let first = first_child(&scratch.page).to_be_bytes();
    let edit = copy_with(
        &scratch.page,
        NodeKind::Inner,
        key,
        &first,
        &mut scratch.cells,
    )?;
    store_cells(
        pages,
        page,
        NodeKind::Inner,
        &child.to_be_bytes(),
        edit.count,
        SplitPoint::Middle,
        scratch,
    )
}

/// Puts the one child that is left of the child of a key under the neighbour. Some: the page of the second part, if the
/// neighbour was split.
fn join<P: Pages>(
    pages: &mut P,
    bytes: &[u8; PAGE_SIZE],
    child: u32,
    left: u32,
    key: &[u8],
    scratch: &mut NodeScratch,
) -> Result<Option<u32>, PageFault>
    ensures preserved { P.preserved pages.old pages.new }
    ensures works { OnOk result (P.works pages.new) }
    ensures size { IfOk result (λ made. IfSome made (λ there.
        IsKeySize scratch.new.separator.items)) }
    ensures joined { JoinsNeighbour P.Pages pages.old pages.new child left bytes.now key.now
        scratch.new.separator.items result }
    ensures takes { TakesAtMost P.Pages pages.old pages.new result (λ _. 2) 1 }
{
    let pair = pair_at(bytes, key)?;
    if is_same_page(pair.left, child) {
        return join_before(pages, pair.right, left, pair.key, scratch);
    }
    set_separator(&mut scratch.separator, pair.key)?;
    put_child(pages, pair.left, left, scratch)
}

/// Removes from an inner node that has been read the child of a key, and puts the one child that is left of it under the
/// neighbour.
fn merge_child<P: Pages>(
    pages: &mut P,
    bytes: &[u8; PAGE_SIZE],
    page: u32,
    child: u32,
    left: u32,
    key: &[u8],
    scratch: &mut NodeScratch,
) -> Result<Underflow, PageFault>
    ensures preserved { P.preserved pages.old pages.new }
    ensures works { OnOk result (P.works pages.new) }
    ensures size { IfOk result (λ left. HasSeparator left scratch.new.separator.items) }
    ensures merged { MergesChild P.Pages pages.old pages.new page child left bytes.now key.now
        scratch.new.separator.items result }
    ensures takes { TakesAtMost P.Pages pages.old pages.new result
        (λ left. most_merged left) 4 }
{
    let made = join(pages, bytes, child, left, key, scratch)?;
    let rest = copy_rest(bytes, child, key, &mut scratch.cells)?;
    let Some(second) = made else {
        return store_rest(pages, page, rest, scratch);
    };
    let first = rest.first.to_be_bytes();
    let cells = scratch.cells.as_slice();
    write_cells(
        pages,
        &mut scratch.page,
        page,
        NodeKind::Inner,
        &first,
        cells,
        rest.count,
    )?;
    let split = put_child(pages, page, second, scratch)?;
    Ok(Underflow::Trees(split))
}

/// Changes an inner node as the child of a key has changed.
pub fn follow_child<P: Pages>(
    pages: &mut P,
    bytes: &mut [u8; PAGE_SIZE],
    page: u32,
    child: u32,
    underflow: Underflow,
    key: &[u8],
    scratch: &mut NodeScratch,
) -> Result<Underflow, PageFault>
    requires { HasSeparator underflow scratch.old.separator.items }
    ensures number { IsPageNumber child }
    ensures preserved { P.preserved pages.old pages.new }
    ensures works { P.works pages.old → OnOk result (P.works pages.new) }
    ensures size { IfOk result (λ left. HasSeparator left scratch.new.separator.items) }
    ensures followed { FollowsChild P.Pages pages.old pages.new page child underflow key.now
        scratch.old.separator.items scratch.new.separator.items result }
    ensures takes { TakesToFollow P.Pages pages.old pages.new underflow result }
{
    match underflow {
        Underflow::Nothing => {
            pages.free_page(child)?;
            pages.read(page, bytes)?;
            remove_child(pages, bytes, page, child, key, scratch)
        }
        Underflow::Child(left) => {
            pages.free_page(child)?;
            pages.read(page, bytes)?;
            merge_child(pages, bytes, page, child, left, key, scratch)
        }
        Underflow::Trees(made) => {
            let Some(second) = made else {
                return Ok(Underflow::Trees(None));
            };
            let split = put_child(pages, page, second, scratch)?;
            Ok(Underflow::Trees(split))
        }
        Underflow::FewCells => {
            pages.read(page, bytes)?;
            join_leaves(pages, bytes, page, key, scratch)?;
            Ok(Underflow::Trees(None))
        }
    }
}

/// Makes the root a leaf without entries.
pub fn clear_root<P: Pages>(pages: &mut P, bytes: &mut [u8; PAGE_SIZE]) -> Result<(), PageFault>
    ensures preserved { P.preserved pages.old pages.new }
    ensures works { OnOk result (P.works pages.new) }
    ensures cleared { ClearsRoot P.Pages pages.old pages.new result }
    ensures takes { TakesAtMost P.Pages pages.old pages.new result (λ _. 1) 0 }
{
    write_node(bytes, NodeKind::Leaf, b"", b"", 0);
    pages.write(0, bytes)
}

/// Gives the root the content of its only child.
pub fn collapse_root<P: Pages>(
    pages: &mut P,
    bytes: &mut [u8; PAGE_SIZE],
    child: u32,
) -> Result<(), PageFault>
    ensures preserved { P.preserved pages.old pages.new }
    ensures works { OnOk result (P.works pages.new) }
    ensures collapsed { CollapsesRoot P.Pages pages.old pages.new child result }
    ensures takes { TakesAtMost P.Pages pages.old pages.new result (λ _. 1) 0 }
{
    pages.read(child, bytes)?;
    pages.write(0, bytes)?;
    pages.free_page(child)
}
