//! A list of cells that is changed: copied from a page to scratch, from which pages are written.
ghost use Rattle.std.specs.Prelude.{◌≡◌, ◌≢◌, ℕ, ◌+◌, ◌-◌, ◌<◌, ◌≤◌, ◌++◌, List, [], length, None, Some, IfOk, IfSome, MatchOption, drop};
ghost use Rattle.page_nodes.specs.Map.{Entry, edited, lent_bytes};
ghost use Rattle.page_nodes.specs.declared.scratch.CutPlace.TheVariants.{End};
ghost use Rattle.page_nodes.specs.Node.{cells_bytes, IsNode, HasSizes, IsPayloadSize, IsShortKey, IsCount, FitsPage, ExceedsPage};
ghost use Rattle.page_nodes.specs.Search.{AreCellsAt};
ghost use Rattle.page_nodes.specs.Scratch.{cells_after, IsEdited, IsOneCellOver, IsCut, IsLeastAfter, EndFits};

use crate::cell::{NodeKind, cell_at, is_less, push_cell, two_at};
use crate::page::fits;
use crate::search::seek;
use std::alloc::AllocError;
use storage_sizes::PAGE_SIZE;

/// Edited cells: how many they are, and how many of them come after the edited key.
#[derive(Clone, Copy, Drop)]
pub struct Edit {
    pub count: usize,
    pub after: usize,
}

/// Where cells that are too long for one page are to be cut.
#[derive(Clone, Copy, Drop, PartialEq, Eq)]
pub enum CutPlace {
    /// Near the middle: both parts have room for more cells.
    Middle,
    /// Before the last cell, in an inner node before the last two: the first part stays full.
    End,
}

/// Where a list of cells is cut: the byte at which the second part begins, and how many cells are before it.
#[derive(Clone, Copy, Drop)]
pub struct Cut {
    pub at: usize,
    pub index: usize,
}

/// The end of so many cells. None: there are not so many.
pub fn cells_end(bytes: &[u8], kind: NodeKind, at: usize, left: usize) -> Option<usize>
    requires { at ≤ length bytes.now }
    ensures end { (cells : List Entry) (after : List ℕ) → AreCellsAt kind bytes.now at cells after
        → left ≡ length cells → MatchOption result ⊥ (λ end. drop end bytes.now ≡ after) }
    ensures order { IfSome result (λ end. at + left ≤ end) }
    ensures inside { IfSome result (λ end. end ≤ length bytes.now) }
{
    let mut end = at;
    for i in 0..left {
        let cell = cell_at(bytes, kind, end)?;
        end = cell.end;
    }
    Some(end)
}

/// Skips a cell of this key, if one begins here: where the others begin, and how many they are.
pub fn skip_key(
    bytes: &[u8],
    kind: NodeKind,
    key: &[u8],
    at: usize,
    left: usize,
) -> Option<(usize, usize)>
    requires { at ≤ length bytes.now }
    ensures skipped { (cells : List Entry) (after : List ℕ)
        → AreCellsAt kind bytes.now at cells after → left ≡ length cells
        → MatchOption result ⊥ (λ there.
        AreCellsAt kind bytes.now there.0 (cells_after key.now cells) after
        × (there.1 ≡ length (cells_after key.now cells))) }
    ensures order { IfSome result (λ there. at ≤ there.0) }
    ensures inside { IfSome result (λ there. there.0 ≤ length bytes.now) }
{
    if left == 0 {
        return Some((at, 0));
    }
    let cell = cell_at(bytes, kind, at)?;
    if is_less(key, cell.key) {
        return Some((at, left));
    }
    Some((cell.end, left - 1))
}

/// Writes a cell after those that are there, if there is a payload for it, and gives the number of cells written.
pub fn push_payload(
    scratch: &mut Vec<u8>,
    kind: NodeKind,
    key: &[u8],
    payload: Option<&[u8]>,
) -> Result<usize, AllocError>
    requires key { IsShortKey key.now }
    requires payload { IfSome payload (λ b. IsPayloadSize kind b.now) }
    ensures pushed { IfOk result (λ count. let new = edited key.now (lent_bytes payload.entry) [] in
        (count ≡ length new) × (scratch.new.items ≡ scratch.old.items ++ cells_bytes kind new)) }
    ensures one { IfOk result (λ count. count ≤ 1) }
{
    let Some(payload) = payload else {
        return Ok(0);
    };
    push_cell(scratch, kind, key, payload)?;
    Ok(1)
}

/// Copies to scratch the cells of a node with this payload at a key, or without the cell of that key. None: these bytes
/// are no node of that kind. Err: an allocation failed, and nothing is known of scratch.
pub fn edit_cells(
    bytes: &[u8; PAGE_SIZE],
    kind: NodeKind,
    key: &[u8],
    payload: Option<&[u8]>,
    scratch: &mut Vec<u8>,
) -> Result<Option<Edit>, AllocError>
    requires key { IsShortKey key.now }
    requires payload { IfSome payload (λ b. IsPayloadSize kind b.now) }
    ensures edited { (first : List ℕ) (cells : List Entry) → IsNode kind first cells bytes.now
        → IfOk result (λ made. MatchOption made ⊥ (λ edit.
        IsEdited kind key.now (lent_bytes payload.entry) cells scratch.new.items edit)) }
    ensures few { IfOk result (λ made. IfSome made (λ edit. IsCount edit.count)) }
    ensures fits { payload.entry ≡ None
        → IfOk result (λ made. IfSome made (λ edit. FitsPage kind (length scratch.new.items))) }
{
    let Some(sought) = seek(bytes, kind, key) else {
        return Ok(None);
    };
    let Some((at, left)) = skip_key(bytes, kind, key, sought.at, sought.left) else {
        return Ok(None);
    };
    let Some(end) = cells_end(bytes, kind, at, left) else {
        return Ok(None);
    };
    scratch.clear();
    scratch.extend_from_slice(&bytes[kind.start()..sought.at])?;
    let added = push_payload(scratch, kind, key, payload)?;
    scratch.extend_from_slice(&bytes[at..end])?;
    Ok(Some(Edit {
        count: sought.index + added + left,
        after: left,
    }))
}

/// Writes the cells of a node after those that are in scratch, and gives their number. None: these bytes are no node of
/// that kind. Err: an allocation failed, and nothing is known of scratch.
pub fn append_cells(
    bytes: &[u8; PAGE_SIZE],
    kind: NodeKind,
    scratch: &mut Vec<u8>,
) -> Result<Option<usize>, AllocError>
    ensures copied { (first : List ℕ) (cells : List Entry) → IsNode kind first cells bytes.now
        → IfOk result (λ count. (count ≡ Some (length cells))
        × (scratch.new.items ≡ scratch.old.items ++ cells_bytes kind cells)) }
    ensures few { IfOk result (λ count. IfSome count (λ n. IsCount n)) }
{
    let count = two_at(bytes, 2);
    let Some(end) = cells_end(bytes, kind, kind.start(), count) else {
        return Ok(None);
    };
    scratch.extend_from_slice(&bytes[kind.start()..end])?;
    Ok(Some(count))
}

/// Where cells that are too long for one page are cut, so that each part fits. None: these bytes are no cells.
pub fn middle(cells: &[u8], kind: NodeKind) -> Option<Cut>
    requires { ExceedsPage kind (length cells.now) }
    ensures cut { (cs : List Entry) → HasSizes kind cs → cells.now ≡ cells_bytes kind cs
        → IsOneCellOver kind (length cells.now)
        → MatchOption result ⊥ (λ cut. IsCut kind cs cut.at cut.index) }
    ensures inside { IfSome result (λ cut. cut.at ≤ length cells.now) }
{
    let room = PAGE_SIZE - kind.start();
    let mut at = 0;
    for i in 0..cells.len() {
        if at >= cells.len() - at {
            return Some(Cut { at, index: i });
        }
        let cell = cell_at(cells, kind, at)?;
        if cell.end > room {
            return Some(Cut { at, index: i });
        }
        at = cell.end;
    }
    None
}

/// Where so many cells are cut near their middle. None: these bytes are not so many cells.
fn cut_in_middle(cells: &[u8], kind: NodeKind, count: usize) -> Option<Cut>
    requires { ExceedsPage kind (length cells.now) }
    ensures cut { (cs : List Entry) → HasSizes kind cs → cells.now ≡ cells_bytes kind cs
        → count ≡ length cs → IsOneCellOver kind (length cells.now)
        → MatchOption result ⊥ (λ cut. IsCut kind cs cut.at cut.index) }
    ensures inside { IfSome result (λ cut. cut.at ≤ length cells.now) }
    ensures front { IfSome result (λ cut. FitsPage kind cut.at) }
    ensures back { IfSome result (λ cut. FitsPage kind (length cells.now - cut.at)) }
    ensures few { IfSome result (λ cut. cut.index < count) }
{
    let cut = middle(cells, kind)?;
    if cut.index >= count {
        return None;
    }
    if !fits(kind, cut.at) {
        return None;
    }
    if !fits(kind, cells.len() - cut.at) {
        return None;
    }
    Some(cut)
}

/// Where so many cells are cut so that as few as may be come after the cut. None: no cell is before it, or the cells
/// before it are too long for a page, or these bytes are not so many cells.
fn cut_at_end(cells: &[u8], kind: NodeKind, count: usize) -> Option<Cut>
    ensures cut { (cs : List Entry) → HasSizes kind cs → cells.now ≡ cells_bytes kind cs
        → count ≡ length cs → IfSome result (λ cut. IsCut kind cs cut.at cut.index) }
    ensures found { (cs : List Entry) → HasSizes kind cs → cells.now ≡ cells_bytes kind cs
        → count ≡ length cs → EndFits kind cs → result ≢ None }
    ensures last { IfSome result (λ cut. IsLeastAfter kind cut.index count) }
    ensures inside { IfSome result (λ cut. cut.at ≤ length cells.now) }
    ensures front { IfSome result (λ cut. FitsPage kind cut.at) }
    ensures back { IfSome result (λ cut. FitsPage kind (length cells.now - cut.at)) }
{
    let after = kind.min_cells();
    if count <= after {
        return None;
    }
    let index = count - after;
    let at = cells_end(cells, kind, 0, index)?;
    if !fits(kind, at) {
        return None;
    }
    if !fits(kind, cells.len() - at) {
        return None;
    }
    Some(Cut { at, index })
}

/// Where so many cells, too long for one page, are cut into two pages: at the place that is asked for, or near the middle
/// where the cells before the last do not fit in a page. None: these bytes are not so many cells.
pub fn cut_for(cells: &[u8], kind: NodeKind, count: usize, place: CutPlace) -> Option<Cut>
    requires { ExceedsPage kind (length cells.now) }
    ensures cut { (cs : List Entry) → HasSizes kind cs → cells.now ≡ cells_bytes kind cs
        → count ≡ length cs → IsOneCellOver kind (length cells.now)
        → MatchOption result ⊥ (λ cut. IsCut kind cs cut.at cut.index) }
    ensures end { place ≡ End → (cs : List Entry) → HasSizes kind cs
        → cells.now ≡ cells_bytes kind cs → count ≡ length cs → EndFits kind cs
        → IfSome result (λ cut. IsLeastAfter kind cut.index count) }
    ensures inside { IfSome result (λ cut. cut.at ≤ length cells.now) }
    ensures front { IfSome result (λ cut. FitsPage kind cut.at) }
    ensures back { IfSome result (λ cut. FitsPage kind (length cells.now - cut.at)) }
    ensures few { IfSome result (λ cut. cut.index < count) }
{
    if place == CutPlace::End {
        if let Some(cut) = cut_at_end(cells, kind, count) {
            return Some(cut);
        }
    }
    cut_in_middle(cells, kind, count)
}
