//! Changes of the tree: an entry is put.
ghost use Rattle.std.specs.Prelude.{◌≡◌, ◌≢◌, ◌↔◌, ◌⊎◌, ◌∷◌, ◌<◌, ℕ, List, [], Some, length, OnOk, IfOk, IfErr, IfSome};
ghost use Rattle.page_nodes.specs.Map.{Entry, with_entry};
ghost use Rattle.page_tree.specs.Forest.{AllUnder};
ghost use Rattle.page_nodes.specs.Node.{cells_bytes, IsKeySize, IsValueSize, IsPayloadSize, IsFirst, IsCount, IsNode, FitsPage};
ghost use Rattle.page_nodes.specs.declared.cell.NodeKind.TheVariants.{Inner};
ghost use Rattle.page_tree.specs.declared.cuts.SplitPoint.TheVariants.{End};
ghost use Rattle.page_tree.specs.Taking.{TakesAtMost, TakesToPut, TakesToPutBelow, TakesToGrow, TakesToChange};
ghost use Rattle.page_tree.specs.Calls.{Changes, PutsCell, CutsAtEnd, StoresAfter, TakesSecond, StoresCells, StoresEntry, StoresChild, PutsBelow, GrowsRoot};

use crate::cuts::{SplitPoint, cut_cells};
use crate::scratch::{NodeScratch, Scratch};
use crate::search::{MAX_HEIGHT, read_node};
use page_nodes::{
    Edit, NodeKind, PageView, cell_at, child_for, edit_cells, first_child, fits, push_cell, seek,
    write_node,
};
use pages::{PageFault, Pages};
use storage_sizes::PAGE_SIZE;

/// Copies to scratch the cells of a node with this payload at a key. Malformed: these bytes are no node of that kind.
pub fn copy_with(
    bytes: &[u8; PAGE_SIZE],
    kind: NodeKind,
    key: &[u8],
    payload: &[u8],
    cells: &mut Vec<u8>,
) -> Result<Edit, PageFault>
    requires key { IsKeySize key.now }
    requires payload { IsPayloadSize kind payload.now }
    ensures copied { PutsCell kind bytes.now key.now payload.now cells.new.items result }
    ensures few { IfOk result (λ edit. IsCount edit.count) }
    ensures last { (first : List ℕ) (cs : List Entry) → IsNode kind first cs bytes.now
        → AllUnder (Some key.now) cs → IfOk result (λ edit. edit.after ≡ 0) }
    ensures faults { IfErr result (λ f. f ≢ PageFault.Full) }
{
    match edit_cells(bytes, kind, key, Some(payload), cells) {
        Ok(Some(edit)) => Ok(edit),
        Ok(None) => Err(PageFault::Malformed),
        Err(_) => Err(PageFault::Memory),
    }
}

/// Where a node is cut, should its edited cells be too long for a page: where the key comes last, at the end. So leaves
/// stay full when keys are put in rising order.
pub fn place_for(edit: Edit) -> SplitPoint
    ensures { result ≡ End ↔ edit.after ≡ 0 }
{
    if edit.after == 0 {
        SplitPoint::End
    } else {
        SplitPoint::Middle
    }
}

/// Whether a leaf has a cell of one key, and another key belongs right after it. False where these bytes are no leaf.
fn comes_next(bytes: &[u8; PAGE_SIZE], last: &[u8], key: &[u8]) -> bool {
    let Some(before) = seek(bytes, NodeKind::Leaf, last) else {
        return false;
    };
    let Some(place) = seek(bytes, NodeKind::Leaf, key) else {
        return false;
    };
    match cell_at(bytes, NodeKind::Leaf, before.at) {
        Some(cell) => cell.key == last && cell.end == place.at,
        None => false,
    }
}

/// Notes the key that is put, or none where an allocation fails.
fn remember(last: &mut Vec<u8>, key: &[u8])
    ensures { (last.new.items ≡ key.now) ⊎ (last.new.items ≡ []) }
{
    last.clear();
    if last.extend_from_slice(key).is_err() {
        last.clear();
    }
}

/// Where a leaf is cut, should its edited cells be too long for a page: at the end where the key comes last, and beside
/// the key where it comes right after the one that was put before it. So leaves stay full when keys are put in rising order, also
/// where other keys come after them.
fn place_in_leaf(scratch: &NodeScratch, key: &[u8], edit: Edit) -> SplitPoint
    ensures { result ≡ End ↔ edit.after ≡ 0 }
{
    let place = place_for(edit);
    if place == SplitPoint::Middle
        && !fits(NodeKind::Leaf, scratch.cells.len())
        && comes_next(&scratch.page, scratch.last.as_slice(), key)
    {
        return SplitPoint::After(edit.count.saturating_sub(edit.after).saturating_sub(1));
    }
    place
}

/// Sets the separator to a key.
pub fn set_separator(separator: &mut Vec<u8>, key: &[u8]) -> Result<(), PageFault>
    ensures set { OnOk result (separator.new.items ≡ key.now) }
    ensures fault { IfErr result (λ f. f ≡ PageFault.Memory) }
{
    separator.clear();
    match separator.extend_from_slice(key) {
        Ok(()) => Ok(()),
        Err(_) => Err(PageFault::Memory),
    }
}

/// Writes to a new page the node that has the cells after a cut, and sets the separator to the key of the first of them. In
/// an inner node that cell's child comes before the others.
pub fn write_back<P: Pages>(
    pages: &mut P,
    bytes: &mut [u8; PAGE_SIZE],
    kind: NodeKind,
    cells: &[u8],
    count: usize,
    separator: &mut Vec<u8>,
) -> Result<u32, PageFault>
    requires fits { FitsPage kind (length cells.now) }
    requires some { 0 < count }
    requires few { IsCount count }
    ensures preserved { P.preserved pages.old pages.new }
    ensures works { OnOk result (P.works pages.new) }
    ensures size { IfOk result (λ page. IsKeySize separator.new.items) }
    ensures taken { TakesSecond P.Pages pages.old pages.new kind cells.now count
        separator.new.items result }
    ensures takes { TakesAtMost P.Pages pages.old pages.new result (λ _. 1) 0 }
{
    let Some(cell) = cell_at(cells, kind, 0) else {
        return Err(PageFault::Malformed);
    };
    set_separator(separator, cell.key)?;
    match kind {
        NodeKind::Leaf => write_node(bytes, kind, b"", cells, count),
        NodeKind::Inner => write_node(bytes, kind, cell.payload, &cells[cell.end..], count - 1),
    }
    pages.new_page(bytes)
}

/// Writes to a page the node that has the cells in scratch. If they are too long for it, the page gets those before a cut
/// at this place, and a new page, which is given, those after it.
pub fn store_cells<P: Pages>(
    pages: &mut P,
    page: u32,
    kind: NodeKind,
    first: &[u8],
    count: usize,
    place: SplitPoint,
    scratch: &mut NodeScratch,
) -> Result<Option<u32>, PageFault>
    requires first { IsFirst kind first.now }
    requires few { IsCount count }
    ensures preserved { P.preserved pages.old pages.new }
    ensures works { OnOk result (P.works pages.new) }
    ensures size { IfOk result (λ made. IfSome made (λ there.
        IsKeySize scratch.new.separator.items)) }
    ensures stored { StoresCells P.Pages pages.old pages.new page kind first.now
        scratch.old.cells.items count scratch.new.separator.items result }
    ensures end { CutsAtEnd P.Pages pages.old pages.new page kind first.now
        scratch.old.cells.items count place result }
    ensures takes { TakesToPut P.Pages pages.old pages.new page 0 result }
{
    let cells = scratch.cells.as_slice();
    if fits(kind, cells.len()) {
        write_node(&mut scratch.page, kind, first, cells, count);
        pages.write(page, &scratch.page)?;
        return Ok(None);
    }
    let Some(cut) = cut_cells(cells, kind, count, place) else {
        return Err(PageFault::Malformed);
    };
    write_node(&mut scratch.page, kind, first, &cells[..cut.at], cut.index);
    pages.write(page, &scratch.page)?;
    let back = &cells[cut.at..];
    let left = count - cut.index;
    let made = write_back(
        pages,
        &mut scratch.page,
        kind,
        back,
        left,
        &mut scratch.separator,
    )?;
    Ok(Some(made))
}

/// Puts an entry into the leaf that has been read to scratch. Some: the page of the second part, if the leaf was split.
fn put_entry<P: Pages>(
    pages: &mut P,
    page: u32,
    key: &[u8],
    value: &[u8],
    scratch: &mut NodeScratch,
) -> Result<Option<u32>, PageFault>
    requires key { IsKeySize key.now }
    requires value { IsValueSize value.now }
    ensures preserved { P.preserved pages.old pages.new }
    ensures works { OnOk result (P.works pages.new) }
    ensures size { IfOk result (λ made. IfSome made (λ there.
        IsKeySize scratch.new.separator.items)) }
    ensures stored { StoresEntry P.Pages pages.old pages.new page scratch.old.page key.now
        value.now scratch.new.separator.items result }
    ensures after { StoresAfter P.Pages pages.old pages.new page scratch.old.page key.now
        value.now result }
    ensures takes { TakesToPut P.Pages pages.old pages.new page 0 result }
{
    let bytes = &scratch.page;
    let edit = copy_with(bytes, NodeKind::Leaf, key, value, &mut scratch.cells)?;
    let place = place_in_leaf(scratch, key, edit);
    remember(&mut scratch.last, key);
    store_cells(pages, page, NodeKind::Leaf, b"", edit.count, place, scratch)
}

/// Puts a new child, from the separator on, into an inner node. Some: the page of the second part, if the node was split.
pub fn put_child<P: Pages>(
    pages: &mut P,
    page: u32,
    child: u32,
    scratch: &mut NodeScratch,
) -> Result<Option<u32>, PageFault>
    requires { IsKeySize scratch.old.separator.items }
    ensures preserved { P.preserved pages.old pages.new }
    ensures works { OnOk result (P.works pages.new) }
    ensures size { IfOk result (λ made. IfSome made (λ there.
        IsKeySize scratch.new.separator.items)) }
    ensures stored { StoresChild P.Pages pages.old pages.new page child
        scratch.old.separator.items scratch.new.separator.items result }
    ensures takes { TakesToPut P.Pages pages.old pages.new page 0 result }
{
    pages.read(page, &mut scratch.page)?;
    let first = first_child(&scratch.page).to_be_bytes();
    let key = scratch.separator.as_slice();
    let edit = copy_with(
        &scratch.page,
        NodeKind::Inner,
        key,
        &child.to_be_bytes(),
        &mut scratch.cells,
    )?;
    let place = place_for(edit);
    store_cells(
        pages,
        page,
        NodeKind::Inner,
        &first,
        edit.count,
        place,
        scratch,
    )
}

/// Puts an entry into a tree, from its page on. Some: the page of the tree after it that a split has made, from the
/// separator on.
fn put_below<P: Pages>(
    pages: &mut P,
    page: u32,
    levels: u32,
    key: &[u8],
    value: &[u8],
    scratch: &mut NodeScratch,
) -> Result<Option<u32>, PageFault>
    requires key { IsKeySize key.now }
    requires value { IsValueSize value.now }
    ensures preserved { P.preserved pages.old pages.new }
    ensures works { OnOk result (P.works pages.new) }
    ensures size { IfOk result (λ made. IfSome made (λ there.
        IsKeySize scratch.new.separator.items)) }
    ensures put { PutsBelow P.Pages pages.old pages.new page levels key.now value.now
        scratch.new.separator.items result }
    ensures takes { TakesToPutBelow P.Pages pages.old pages.new page levels key.now result }
{
    if levels == 0 {
        return Err(PageFault::Malformed);
    }
    match read_node(pages, page, &mut scratch.page)? {
        NodeKind::Leaf => put_entry(pages, page, key, value, scratch),
        NodeKind::Inner => {
            let Some(branch) = child_for(PageView::plain(&scratch.page), key) else {
                return Err(PageFault::Malformed);
            };
            let made = put_below(pages, branch.child, levels - 1, key, value, scratch)?;
            let Some(child) = made else {
                return Ok(None);
            };
            put_child(pages, page, child, scratch)
        }
    }
}

/// Makes the one cell of a node with two children.
fn set_only_cell(cells: &mut Vec<u8>, key: &[u8], child: &[u8]) -> Result<(), PageFault>
    requires key { IsKeySize key.now }
    requires child { length child.now ≡ 4 }
    ensures copied { OnOk result (cells.new.items ≡ cells_bytes Inner ((key.now, child.now) ∷ [])) }
    ensures fault { IfErr result (λ f. f ≡ PageFault.Memory) }
{
    cells.clear();
    match push_cell(cells, NodeKind::Inner, key, child) {
        Ok(()) => Ok(()),
        Err(_) => Err(PageFault::Memory),
    }
}

/// Makes a root of two trees: the first has been at page 0 and gets a new page, and the keys of the second are from the
/// separator on.
pub fn grow_root<P: Pages>(
    pages: &mut P,
    second: u32,
    scratch: &mut NodeScratch,
) -> Result<(), PageFault>
    requires { IsKeySize scratch.old.separator.items }
    ensures preserved { P.preserved pages.old pages.new }
    ensures works { OnOk result (P.works pages.new) }
    ensures grown { GrowsRoot P.Pages pages.old pages.new second
        scratch.old.separator.items result }
    ensures takes { TakesToGrow P.Pages pages.old pages.new result }
{
    pages.read(0, &mut scratch.page)?;
    let first = pages.new_page(&scratch.page)?;
    let key = scratch.separator.as_slice();
    set_only_cell(&mut scratch.cells, key, &second.to_be_bytes())?;
    let cells = scratch.cells.as_slice();
    let bytes = &mut scratch.page;
    write_node(bytes, NodeKind::Inner, &first.to_be_bytes(), cells, 1);
    pages.write(0, bytes)
}

/// Sets the value of a key, and leaves every other entry as it is. A key has 1 to 205 bytes, a value at most 1,200.
/// Memory: an allocation failed, here or in the pages. Full, Device: the pages gave it. Malformed: the array is no tree.
/// After a fault nothing is known of the array: the caller abandons what it was doing.
pub fn put<P: Pages>(
    pages: &mut P,
    scratch: &mut Scratch,
    key: &[u8],
    value: &[u8],
) -> Result<(), PageFault>
    requires key { IsKeySize key.now }
    requires value { IsValueSize value.now }
    ensures preserved { P.preserved pages.old pages.new }
    ensures works { OnOk result (P.works pages.new) }
    ensures put { Changes P.Pages pages.old pages.new (with_entry key.now value.now) result }
    ensures takes { TakesToChange P.Pages pages.old pages.new result }
{
    let scratch = &mut scratch.nodes;
    match put_below(pages, 0, MAX_HEIGHT, key, value, scratch)? {
        None => Ok(()),
        Some(second) => grow_root(pages, second, scratch),
    }
}
