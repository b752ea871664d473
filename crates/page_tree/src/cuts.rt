//! Where a list of cells that is too long for a page is cut in two.
ghost use Rattle.std.specs.Prelude.{◌⊎◌, suc, ◌≡◌, ◌≢◌, ℕ, ◌-◌, ◌<◌, ◌≤◌, List, length, None, IfSome, MatchOption, drop};
ghost use Rattle.page_nodes.specs.Map.{Entry};
ghost use Rattle.page_nodes.specs.Node.{cells_bytes, HasSizes, FitsPage, ExceedsPage};
ghost use Rattle.page_nodes.specs.Search.{AreCellsAt};
ghost use Rattle.page_nodes.specs.Scratch.{IsOneCellOver, IsCut, IsLeastAfter, EndFits};
ghost use Rattle.page_tree.specs.declared.cuts.SplitPoint.TheVariants.{End, After};

use page_nodes::{Cut, CutPlace, NodeKind, cell_at, cut_for, fits};

/// Where cells that are too long for one page are to be cut.
#[derive(Clone, Copy, Drop, PartialEq, Eq)]
pub enum SplitPoint {
    /// Near the middle: both parts have room for more cells.
    Middle,
    /// Before the last cell, in an inner node before the last two: the first part stays full.
    End,
    /// After the cell of this index, or before it, or near the middle: the first of these cuts whose two parts fit in pages.
    After(usize),
}

/// The byte at which so many cells end. None: there are not so many.
fn cells_end(bytes: &[u8], kind: NodeKind, count: usize) -> Option<usize>
    ensures end { (cells : List Entry) (after : List ℕ) → AreCellsAt kind bytes.now 0 cells after
        → count ≡ length cells → MatchOption result ⊥ (λ end. drop end bytes.now ≡ after) }
    ensures inside { IfSome result (λ end. end ≤ length bytes.now) }
{
    let mut end = 0;
    for i in 0..count {
        let cell = cell_at(bytes, kind, end)?;
        end = cell.end;
    }
    Some(end)
}

/// The cut of so many cells before the one of this index. None: a part has too few cells or is too long for a page, or these
/// bytes are not so many cells.
fn cut_before(cells: &[u8], kind: NodeKind, count: usize, index: usize) -> Option<Cut>
    ensures cut { (cs : List Entry) → HasSizes kind cs → cells.now ≡ cells_bytes kind cs
        → count ≡ length cs → IfSome result (λ cut. IsCut kind cs cut.at cut.index) }
    ensures found { (cs : List Entry) → HasSizes kind cs → cells.now ≡ cells_bytes kind cs
        → count ≡ length cs → (at : ℕ) → IsCut kind cs at index → result ≢ None }
    ensures index { IfSome result (λ cut. cut.index ≡ index) }
    ensures inside { IfSome result (λ cut. cut.at ≤ length cells.now) }
    ensures front { IfSome result (λ cut. FitsPage kind cut.at) }
    ensures back { IfSome result (λ cut. FitsPage kind (length cells.now - cut.at)) }
    ensures few { IfSome result (λ cut. cut.index < count) }
{
    if index == 0 || count < index || count - index < kind.min_cells() {
        return None;
    }
    let at = cells_end(cells, kind, index)?;
    if !fits(kind, at) {
        return None;
    }
    if !fits(kind, cells.len() - at) {
        return None;
    }
    Some(Cut { at, index })
}

/// The cut of so many cells after the one of this index, or before it. None: neither has two parts that fit in pages, or these
/// bytes are not so many cells.
fn cut_beside(cells: &[u8], kind: NodeKind, count: usize, index: usize) -> Option<Cut>
    ensures cut { (cs : List Entry) → HasSizes kind cs → cells.now ≡ cells_bytes kind cs
        → count ≡ length cs → IfSome result (λ cut. IsCut kind cs cut.at cut.index) }
    ensures after { (cs : List Entry) → HasSizes kind cs → cells.now ≡ cells_bytes kind cs
        → count ≡ length cs → (at : ℕ) → IsCut kind cs at (suc index)
        → MatchOption result ⊥ (λ cut. cut.index ≡ suc index) }
    ensures before { (cs : List Entry) → HasSizes kind cs → cells.now ≡ cells_bytes kind cs
        → count ≡ length cs → (at : ℕ) → IsCut kind cs at index
        → MatchOption result ⊥ (λ cut. (cut.index ≡ suc index) ⊎ (cut.index ≡ index)) }
    ensures inside { IfSome result (λ cut. cut.at ≤ length cells.now) }
    ensures front { IfSome result (λ cut. FitsPage kind cut.at) }
    ensures back { IfSome result (λ cut. FitsPage kind (length cells.now - cut.at)) }
    ensures few { IfSome result (λ cut. cut.index < count) }
{
    if index >= count {
        return None;
    }
    match cut_before(cells, kind, count, index + 1) {
        Some(cut) => Some(cut),
        None => cut_before(cells, kind, count, index),
    }
}

/// Where so many cells, too long for one page, are cut into two pages: at the place that is asked for, or near the middle
/// where the parts do not fit in their pages. None: these bytes are not so many cells.
pub fn cut_cells(cells: &[u8], kind: NodeKind, count: usize, place: SplitPoint) -> Option<Cut>
    requires { ExceedsPage kind (length cells.now) }
    ensures cut { (cs : List Entry) → HasSizes kind cs → cells.now ≡ cells_bytes kind cs
        → count ≡ length cs → IsOneCellOver kind (length cells.now)
        → MatchOption result ⊥ (λ cut. IsCut kind cs cut.at cut.index) }
    ensures end { place ≡ End → (cs : List Entry) → HasSizes kind cs
        → cells.now ≡ cells_bytes kind cs → count ≡ length cs → EndFits kind cs
        → IfSome result (λ cut. IsLeastAfter kind cut.index count) }
    ensures after { (index : ℕ) → place ≡ After index → (cs : List Entry) → HasSizes kind cs
        → cells.now ≡ cells_bytes kind cs → count ≡ length cs → (at : ℕ)
        → IsCut kind cs at (suc index) → IfSome result (λ cut. cut.index ≡ suc index) }
    ensures before { (index : ℕ) → place ≡ After index → (cs : List Entry) → HasSizes kind cs
        → cells.now ≡ cells_bytes kind cs → count ≡ length cs → (at : ℕ) → IsCut kind cs at index
        → IfSome result (λ cut. (cut.index ≡ suc index) ⊎ (cut.index ≡ index)) }
    ensures inside { IfSome result (λ cut. cut.at ≤ length cells.now) }
    ensures front { IfSome result (λ cut. FitsPage kind cut.at) }
    ensures back { IfSome result (λ cut. FitsPage kind (length cells.now - cut.at)) }
    ensures few { IfSome result (λ cut. cut.index < count) }
{
    match place {
        SplitPoint::Middle => cut_for(cells, kind, count, CutPlace::Middle),
        SplitPoint::End => cut_for(cells, kind, count, CutPlace::End),
        SplitPoint::After(index) => match cut_beside(cells, kind, count, index) {
            Some(cut) => Some(cut),
            None => cut_for(cells, kind, count, CutPlace::Middle),
        },
    }
}
