//! Walks over the entries of a map, which lend what they find.
ghost use Rattle.std.specs.Prelude.{◌≡◌, ◌≢◌, ◌<◌, ◌++◌, ◌∷◌, [], List, length, MatchOption, OnOk, IfOk, IfErr};
ghost use Rattle.page_nodes.specs.Map.{Entry, IsRising, rest_entries};
ghost use Rattle.page_tree.specs.Calls.{LeavesPages};
ghost use Rattle.page_tree.specs.Kept.{AreLeft, IsLastAt};
ghost use Rattle.page_tree.specs.Counts.{IsPassed};
ghost use Rattle.page_tree.specs.Ahead.{HasAhead, IsFoundAt, IsFoundBy, GoesOn, IsSteppedInLeaf};

use crate::counting::is_within;
use crate::cursor::{TreeCursor, first_from};
use crate::leaf::{CellParts, CellStart};
use page_nodes::{NodeKind, cell_at};
use pages::{PageFault, Pages};
use std::alloc::{AllocError, Global};

/// Where a walk over a map goes on: in the leaf that it keeps, or, where none of its cells is left,
/// at a key. It is of use as long as the map stays as it is.
#[derive(Drop)]
pub struct TreeWalk {
    // The leaf, and the first entry that was found in it.
    cursor: TreeCursor,
    // Where the entry that was found last is in the leaf, if it is a later one.
    found: Option<CellParts>,
    // The key from which on the walk goes on where no cell of the leaf is left.
    next: Vec<u8>,
}

// Where no cells of a leaf are left, sets the key from which a walk goes on: the least one after
// that of the last cell, which is this key with a zero byte.
fn go_behind(next: &mut Vec<u8>, left: usize, key: &[u8]) -> Result<(), AllocError>
    ensures { OnOk result (left ≡ 0 → next.new.items ≡ key.now ++ (0 ∷ [])) }
{
    if left > 0 {
        return Ok(());
    }
    next.clear();
    next.extend_from_slice(key)?;
    next.push(0)?;
    Ok(())
}

// Where the last of the cells of a leaf that are left begins, or `None` where one of them is no cell.
fn last_cell(cursor: &TreeCursor) -> Option<CellStart>
    ensures { (cells : List Entry) → AreLeft cells cursor.now → 0 < length cells
        → MatchOption result ⊥ (λ last. IsLastAt cells last.at cursor.now) }
{
    let mut at = cursor.leaf.at;
    for passed in 1..cursor.leaf.left {
        let Some(cell) = cell_at(&cursor.leaf.page, NodeKind::Leaf, at) else {
            return None;
        };
        at = cell.end;
    }
    Some(CellStart { at })
}

// The key and the value of the entry that was found last: the first one in a leaf, or a cell of it.
fn found_entry(cursor: &TreeCursor, found: Option<CellParts>) -> (&[u8], &[u8])
    ensures { (entry : Entry) → IsFoundAt found cursor.now entry
        → (result.0.now ≡ entry.0) × (result.1.now ≡ entry.1) }
{
    let Some(cell) = found else {
        return (cursor.key(), cursor.value());
    };
    let page = &cursor.leaf.page;
    (
        &page[cell.key_at..cell.value_at],
        &page[cell.value_at..cell.end],
    )
}

impl TreeWalk {
    /// A walk over the entries from a key on. No page is read yet.
    pub fn from_key(alloc: Global, key: &[u8]) -> Result<Self, AllocError>
        ensures { IfOk result (λ walk. (map : List Entry)
            → HasAhead map walk (rest_entries key.now map)) }
    {
        Ok(TreeWalk {
            cursor: TreeCursor::new(alloc),
            found: None,
            next: Vec::from_slice(alloc, key)?,
        })
    }

    /// The key and the value of the entry that was found last.
    pub fn entry(&self) -> (&[u8], &[u8])
        ensures { (entry : Entry) → IsFoundBy self.now entry
            → (result.0.now ≡ entry.0) × (result.1.now ≡ entry.1) }
    {
        found_entry(&self.cursor, self.found)
    }

    // Goes on to the first of the cells of the leaf that are left. False: none is, and the walk goes
    // on at its key. Where no cell can be read in the place of one, that key is the one behind the
    // entry that was found last, so that a search comes to the page that is no leaf.
    fn step_in_leaf(&mut self) -> Result<bool, AllocError>
        ensures { (map : List Entry) → IsRising map → (entries : List Entry)
            → HasAhead map self.old entries
            → IfOk result (λ found. IsSteppedInLeaf map found self.new entries) }
    {
        if self.cursor.leaf.left == 0 {
            return Ok(false);
        }
        let leaf = &self.cursor.leaf;
        let begin = leaf.at;
        let left = leaf.left - 1;
        let Some(cell) = cell_at(&leaf.page, NodeKind::Leaf, begin) else {
            let (key, _) = found_entry(&self.cursor, self.found);
            go_behind(&mut self.next, 0, key)?;
            return Ok(false);
        };
        let end = cell.end;
        let value_at = end - cell.payload.len();
        let key_at = value_at - cell.key.len();
        go_behind(&mut self.next, left, cell.key)?;
        self.found = Some(CellParts {
            key_at,
            value_at,
            end,
        });
        self.cursor.leaf.at = end;
        self.cursor.leaf.left = left;
        Ok(true)
    }

    // Right behind the first entry of a leaf, passes all cells of it that are left, where the last of
    // them is within the stop, and tells how many they are. Else it passes none.
    pub(crate) fn pass_leaf(&mut self, stop: &[u8]) -> Result<usize, AllocError>
        ensures { (map : List Entry) → IsRising map → (entries : List Entry)
            → HasAhead map self.old entries
            → IfOk result (λ passed. IsPassed map stop.now passed self.new entries) }
    {
        if self.found.is_some() || self.cursor.leaf.left == 0 {
            return Ok(0);
        }
        let Some(last) = last_cell(&self.cursor) else {
            return Ok(0);
        };
        let leaf = &self.cursor.leaf;
        let passed = leaf.left;
        let Some(cell) = cell_at(&leaf.page, NodeKind::Leaf, last.at) else {
            return Ok(0);
        };
        if !is_within(stop, cell.key) {
            return Ok(0);
        }
        go_behind(&mut self.next, 0, cell.key)?;
        self.cursor.leaf.left = 0;
        Ok(passed)
    }
}

/// Goes on to the first entry ahead of a walk, which the walk then lends. False: none is ahead.
/// After false or a fault nothing is known of the walk. No page is read where a cell of its leaf is
/// left. A fault comes from the pages, or is Memory where an allocation failed, and is never Full;
/// the pages stay as they are, also then.
pub fn step<P: Pages>(pages: &mut P, walk: &mut TreeWalk) -> Result<bool, PageFault>
    ensures preserved { P.preserved pages.old pages.new }
    ensures works { P.works pages.old → OnOk result (P.works pages.new) }
    ensures only_reads { LeavesPages P.Pages pages.old pages.new }
    ensures found { GoesOn P.Pages pages.old pages.new walk.old walk.new result }
    ensures faults { IfErr result (λ f. f ≢ PageFault.Full) }
{
    if walk.step_in_leaf()? {
        return Ok(true);
    }
    walk.found = None;
    if !first_from(pages, &walk.next, &mut walk.cursor)? {
        return Ok(false);
    }
    let left = walk.cursor.leaf.left;
    go_behind(&mut walk.next, left, walk.cursor.key())?;
    Ok(true)
}
