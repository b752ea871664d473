//! Changes of the tree: as many of a list as one leaf takes.
ghost use Rattle.std.specs.Prelude.{◌≡◌, ◌≢◌, ◌↔◌, ◌⊎◌, ◌<◌, ◌≤◌, ℕ, List, Option, None, true, length, IsTrue, IfOk, OnOk, IfErr, IfSome, MatchResult};
ghost use Rattle.std.specs.List.{AllByRecursion};
ghost use Rattle.page_nodes.specs.Map.{Entry, is_below};
ghost use Rattle.page_nodes.specs.Node.{four_bytes, IsNode, IsCount, FitsPage};
ghost use Rattle.page_nodes.specs.Search.{child_in, cell_past};
ghost use Rattle.page_nodes.specs.Views.{bytes_of};
ghost use Rattle.page_nodes.specs.declared.cell.NodeKind.TheVariants.{Leaf, Inner};
ghost use Rattle.store.specs.Records.{IsChangeSize};
ghost use Rattle.page_tree.specs.Forest.{IsUnder};
ghost use Rattle.page_tree.specs.Bounds.{IsBound, bound_past};
ghost use Rattle.page_tree.specs.Removal.{HasSeparator};
ghost use Rattle.page_tree.specs.declared.removal.Underflow.TheVariants.{FewCells, Trees};
ghost use Rattle.page_tree.specs.Taking.{TakesAtMost, TakesToChange, TakesToSettle, TakesToChangeBelow, most_changed};
ghost use Rattle.page_tree.specs.RemovalCalls.{SettlesRoot};
ghost use Rattle.page_tree.specs.Changed.{MergesChanges, CopiesChanged, ChangesLeaf, ChangesBelow, ChangesFirst, PutsFirst};

use crate::appending::append_leaf;
use crate::bound::KeyBound;
use crate::joining::{is_underfull, pages_to_spare};
use crate::puts::{grow_root, put};
use crate::removal::{Underflow, clear_root, collapse_root, follow_child, write_cells};
use crate::scratch::{NodeScratch, Scratch};
use crate::search::{MAX_HEIGHT, fetch_node};
use page_nodes::{LeafMerge, NodeKind, PageView, is_less, turn_for};
use pages::{PageFault, Pages};
use storage_sizes::PAGE_SIZE;
use store::Change;

/// Changes that are made in the cells of a leaf, so many, and these cells.
#[derive(Clone, Copy, Drop)]
struct Merged {
    made: usize,
    merge: LeafMerge,
}

/// So many changes are made in the cells of a leaf, which are so many now.
#[derive(Clone, Copy, Drop)]
pub(crate) struct InLeaf {
    pub(crate) made: usize,
    pub(crate) count: usize,
}

/// So many changes are made in a tree, and what is left of it.
#[derive(Clone, Copy, Drop)]
pub(crate) struct Changed {
    pub(crate) made: usize,
    pub(crate) left: Underflow,
}

/// Whether a key comes after another one and before a bound.
fn comes_between(last: &[u8], key: &[u8], bound: &KeyBound) -> bool
    ensures { (high : Option (List ℕ)) → IsBound bound.now high
        → (IsTrue result ↔ ((is_below last.now key.now ≡ true) × IsUnder key.now high)) }
{
    is_less(last, key) && bound.is_above(key)
}

/// Makes changes in the cells of a leaf, one after another, as long as their keys rise below the bound and the cells fit in
/// a page.
fn merge_changes(
    bytes: &[u8; PAGE_SIZE],
    changes: &[Change],
    bound: &KeyBound,
    begun: LeafMerge,
    cells: &mut Vec<u8>,
) -> Result<Merged, PageFault>
    requires { AllByRecursion IsChangeSize changes.now }
    ensures merged { MergesChanges bytes.now cells.old.items cells.new.items bound.now changes.now
        begun result }
    ensures most { IfOk result (λ merged. merged.made ≤ length changes.now) }
    ensures faults { IfErr result (λ f. f ≡ PageFault.Memory) }
{
    let mut merge = begun;
    let mut last: &[u8] = b"";
    for made in 0..changes.len() {
        let change = &changes[made];
        if !comes_between(last, change.key(), bound) {
            return Ok(Merged { made, merge });
        }
        let edited = merge.edit(bytes, change.key(), change.value(), cells)?;
        let Some(next) = edited else {
            return Ok(Merged { made, merge });
        };
        merge = next;
        last = change.key();
    }
    Ok(Merged {
        made: changes.len(),
        merge,
    })
}

/// Copies to scratch the cells of a leaf with as many changes made as it takes, from the first on. Malformed: these bytes
/// are no leaf.
pub(crate) fn copy_changed(
    bytes: &[u8; PAGE_SIZE],
    changes: &[Change],
    bound: &KeyBound,
    cells: &mut Vec<u8>,
) -> Result<InLeaf, PageFault>
    requires { AllByRecursion IsChangeSize changes.now }
    ensures copied { CopiesChanged bytes.now cells.new.items bound.now changes.now result }
    ensures most { IfOk result (λ leaf. leaf.made ≤ length changes.now) }
    ensures few { IfOk result (λ leaf. IsCount leaf.count) }
    ensures fits { OnOk result (FitsPage Leaf (length cells.new.items)) }
    ensures faults { IfErr result (λ f. f ≢ PageFault.Full) }
{
    cells.clear();
    let Some(merge) = LeafMerge::new(bytes) else {
        return Err(PageFault::Malformed);
    };
    let merged = merge_changes(bytes, changes, bound, merge, cells)?;
    let finished = merged.merge.finish(bytes, cells)?;
    let Some(count) = finished else {
        return Err(PageFault::Malformed);
    };
    Ok(InLeaf {
        made: merged.made,
        count,
    })
}

/// What a change has left of a leaf whose cells have so many bytes: few cells, if it removes a key and they are few.
fn left_in(change: &Change, cells: usize) -> Underflow
    ensures { (result ≡ FewCells) ⊎ (result ≡ Trees None) }
{
    if change.value().is_none() && is_underfull(cells) {
        Underflow::FewCells
    } else {
        Underflow::Trees(None)
    }
}

/// Makes changes in the leaf that has been read, as many as it takes, and writes it once. Where no cell is left, nothing is
/// written; where the leaf has no room for the first one, which comes after its cells, a new leaf takes as many. None: no change
/// is made.
fn change_leaf<P: Pages>(
    pages: &mut P,
    bytes: &[u8; PAGE_SIZE],
    page: u32,
    changes: &[Change],
    bound: &KeyBound,
    scratch: &mut NodeScratch,
) -> Result<Option<Changed>, PageFault>
    requires { AllByRecursion IsChangeSize changes.now }
    ensures preserved { P.preserved pages.old pages.new }
    ensures works { P.works pages.old → OnOk result (P.works pages.new) }
    ensures size { IfOk result (λ changed. IfSome changed
        (λ c. HasSeparator c.left scratch.new.separator.items)) }
    ensures most { IfOk result (λ changed. IfSome changed
        (λ c. (0 < c.made) × (c.made ≤ length changes.now))) }
    ensures changed { ChangesLeaf P.Pages pages.old pages.new page bytes.now
        scratch.new.separator.items bound.now changes.now result }
    ensures takes { TakesAtMost P.Pages pages.old pages.new result (λ c. most_changed 0 c) 0 }
{
    let leaf = copy_changed(bytes, changes, bound, &mut scratch.cells)?;
    let made = leaf.made;
    let count = leaf.count;
    if made == 0 {
        return append_leaf(pages, bytes, page, changes, bound, scratch);
    }
    if count == 0 {
        return Ok(Some(Changed {
            made,
            left: Underflow::Nothing,
        }));
    }
    write_cells(
        pages,
        &mut scratch.page,
        page,
        NodeKind::Leaf,
        b"",
        scratch.cells.as_slice(),
        count,
    )?;
    Ok(Some(Changed {
        made,
        left: left_in(&changes[made - 1], scratch.cells.len()),
    }))
}

/// The child of an inner node under which a key belongs. Where a cell comes after it, its key becomes the bound. Malformed:
/// the page is no inner node.
fn turn_to(page: PageView<'_>, key: &[u8], bound: &mut KeyBound) -> Result<u32, PageFault>
    ensures turned { (first : List ℕ) (cells : List Entry) (high : Option (List ℕ))
        → IsNode Inner first cells (bytes_of page.entry) → IsBound bound.old high
        → MatchResult result (λ child. (four_bytes child ≡ child_in key.now first cells)
        × IsBound bound.new (bound_past (cell_past key.now cells) high))
        (λ f. f ≡ PageFault.Memory) }
    ensures faults { IfErr result (λ f. f ≢ PageFault.Full) }
{
    let Some(turn) = turn_for(page, key) else {
        return Err(PageFault::Malformed);
    };
    let child = turn.child;
    match turn.next {
        Some(cell) => {
            bound.set(cell.key)?;
            Ok(child)
        }
        None => Ok(child),
    }
}

/// Makes the first of these changes in a tree, from its page on, and as many after it as belong into the same leaf. None:
/// no change is made, since the first one puts a value for which the leaf has no room.
fn change_below<P: Pages>(
    pages: &mut P,
    bytes: &mut [u8; PAGE_SIZE],
    page: u32,
    levels: u32,
    changes: &[Change],
    bound: &mut KeyBound,
    scratch: &mut NodeScratch,
) -> Result<Option<Changed>, PageFault>
    requires some { 0 < length changes.now }
    requires sizes { AllByRecursion IsChangeSize changes.now }
    ensures preserved { P.preserved pages.old pages.new }
    ensures works { OnOk result (P.works pages.new) }
    ensures size { IfOk result (λ changed. IfSome changed
        (λ c. HasSeparator c.left scratch.new.separator.items)) }
    ensures most { IfOk result (λ changed. IfSome changed
        (λ c. (0 < c.made) × (c.made ≤ length changes.now))) }
    ensures changed { ChangesBelow P.Pages pages.old pages.new page levels
        scratch.new.separator.items bound.old changes.now result }
    ensures takes { TakesToChangeBelow P.Pages pages.old pages.new page levels bound.old changes.now
        result }
{
    if levels == 0 {
        return Err(PageFault::Malformed);
    }
    match fetch_node(pages, page)? {
        NodeKind::Leaf => {
            *bytes = *pages.fetched().bytes();
            change_leaf(pages, bytes, page, changes, bound, scratch)
        }
        NodeKind::Inner => {
            let key = changes[0].key();
            let child = turn_to(pages.fetched(), key, bound)?;
            let below = change_below(pages, bytes, child, levels - 1, changes, bound, scratch)?;
            let Some(changed) = below else {
                return Ok(None);
            };
            let left = follow_child(pages, bytes, page, child, changed.left, key, scratch)?;
            Ok(Some(Changed {
                made: changed.made,
                left,
            }))
        }
    }
}

/// Makes a tree at page 0 of what changes have left of it.
fn settle_root<P: Pages>(
    pages: &mut P,
    bytes: &mut [u8; PAGE_SIZE],
    left: Underflow,
    scratch: &mut NodeScratch,
) -> Result<(), PageFault>
    requires { HasSeparator left scratch.old.separator.items }
    ensures preserved { P.preserved pages.old pages.new }
    ensures works { P.works pages.old → OnOk result (P.works pages.new) }
    ensures settled { SettlesRoot P.Pages pages.old pages.new left
        scratch.old.separator.items result }
    ensures takes { TakesToSettle P.Pages pages.old pages.new left result }
{
    match left {
        Underflow::Nothing => clear_root(pages, bytes),
        Underflow::Child(child) => collapse_root(pages, bytes, child),
        Underflow::Trees(made) => {
            let Some(second) = made else {
                return Ok(());
            };
            grow_root(pages, second, scratch)
        }
        Underflow::FewCells => Ok(()),
    }
}

/// Makes the first of these changes, which puts a value. Malformed: it puts none.
fn put_first<P: Pages>(
    pages: &mut P,
    scratch: &mut Scratch,
    changes: &[Change],
) -> Result<usize, PageFault>
    requires some { 0 < length changes.now }
    requires sizes { AllByRecursion IsChangeSize changes.now }
    ensures preserved { P.preserved pages.old pages.new }
    ensures works { OnOk result (P.works pages.new) }
    ensures made { IfOk result (λ made. made ≡ 1) }
    ensures put { PutsFirst P.Pages pages.old pages.new changes.now result }
    ensures takes { TakesToChange P.Pages pages.old pages.new result }
{
    let change = &changes[0];
    let Some(value) = change.value() else {
        return Err(PageFault::Malformed);
    };
    put(pages, scratch, change.key(), value)?;
    Ok(1)
}

/// Makes the first of these changes, and as many after it as belong into the same leaf and find room there, and tells how
/// many: each sets the value of its key, or removes the key, and every other entry stays as it is. They are made in their
/// order; those after a key that does not rise are left. Memory: an allocation failed, here or in the pages. Full, Device:
/// the pages gave it. Malformed: the array is no tree. After a fault nothing is known of the array: the caller abandons what
/// it was doing.
pub fn change_first<P: Pages>(
    pages: &mut P,
    scratch: &mut Scratch,
    changes: &[Change],
) -> Result<usize, PageFault>
    requires some { 0 < length changes.now }
    requires sizes { AllByRecursion IsChangeSize changes.now }
    ensures preserved { P.preserved pages.old pages.new }
    ensures works { OnOk result (P.works pages.new) }
    ensures made { IfOk result (λ made. (0 < made) × (made ≤ length changes.now)) }
    ensures changed { ChangesFirst P.Pages pages.old pages.new changes.now result }
    ensures takes { TakesToChange P.Pages pages.old pages.new result }
{
    let bytes = &mut scratch.page;
    let bound = &mut scratch.bound;
    let nodes = &mut scratch.nodes;
    bound.clear();
    nodes.spared = pages_to_spare(changes.len());
    match change_below(pages, bytes, 0, MAX_HEIGHT, changes, bound, nodes)? {
        Some(changed) => {
            settle_root(pages, bytes, changed.left, nodes)?;
            Ok(changed.made)
        }
        None => put_first(pages, scratch, changes),
    }
}
