//! Cells of a leaf that are edited one after another, in the order of their keys.
ghost use Rattle.std.specs.Prelude.{◌≡◌, ℕ, ◌≤◌, List, [], length, true, None, Some, Ok, IfOk, IfSome, MatchOption};
ghost use Rattle.page_nodes.specs.Map.{is_below, Entry, edited, lent_bytes};
ghost use Rattle.page_nodes.specs.Node.{page_size, cells_bytes, IsNode, IsKeySize, IsPayloadSize, IsCount, FitsPage, ExceedsPage};
ghost use Rattle.page_nodes.specs.declared.cell.NodeKind.TheVariants.{Leaf};

use crate::cell::{NodeKind, two_at};
use crate::page::fits;
use crate::scratch::{cells_end, push_payload, skip_key};
use crate::search::seek_on;
use std::alloc::AllocError;
use storage_sizes::PAGE_SIZE;

/// The cells of a leaf that are edited in the order of their keys: so many are in scratch, edited, and so many in the page
/// still, from one index to another.
#[derive(Clone, Copy, Drop)]
pub struct LeafMerge {
    count: usize,
    at: usize,
    left: usize,
    end: usize,
    ghost begins: { at ≤ page_size },
    ghost ends: { end ≤ page_size },
}

// How many bytes the cell of a key takes, if there is a value for it.
fn cell_length(key: &[u8], value: Option<&[u8]>) -> usize
    requires key { IsKeySize key.now }
    requires value { IfSome value (λ b. IsPayloadSize Leaf b.now) }
    ensures bytes { result ≡ length (cells_bytes Leaf (edited key.now (lent_bytes value.entry) [])) }
    ensures most { result ≤ page_size }
{
    match value {
        Some(value) => 4 + key.len() + value.len(),
        None => 0,
    }
}

impl LeafMerge {
    ghost use Rattle.page_nodes.specs.Merge.{AreMerged};

    /// The cells of a leaf, of which none is in scratch yet. None: these bytes are no leaf.
    pub fn new(bytes: &[u8; PAGE_SIZE]) -> Option<LeafMerge>
        ensures { (cells : List Entry) → IsNode Leaf [] cells bytes.now
            → MatchOption result ⊥ (λ merge. AreMerged bytes.now [] [] cells merge) }
    {
        let left = two_at(bytes, 2);
        let at = NodeKind::Leaf.start();
        let end = cells_end(bytes, NodeKind::Leaf, at, left)?;
        Some(LeafMerge {
            count: 0,
            at,
            left,
            end,
        })
    }

    /// Edits the cells, and copies those up to the key to scratch: the key, which comes after those that were edited before,
    /// has this value, or no cell. None: the cells would be too long for a page, or these bytes are no leaf; scratch stays
    /// as it is. Err: an allocation failed, and nothing is known of scratch.
    pub fn edit(
        self,
        bytes: &[u8; PAGE_SIZE],
        key: &[u8],
        value: Option<&[u8]>,
        scratch: &mut Vec<u8>,
    ) -> Result<Option<LeafMerge>, AllocError>
        requires key { IsKeySize key.now }
        requires value { IfSome value (λ b. IsPayloadSize Leaf b.now) }
        ensures edited { (last : List ℕ) (cells : List Entry)
            → AreMerged bytes.now scratch.old.items last cells self → is_below last key.now ≡ true
            → IfOk result (λ made. let new = edited key.now (lent_bytes value.entry) cells in
            MatchOption made (ExceedsPage Leaf (length (cells_bytes Leaf new)))
            (λ merge. AreMerged bytes.now scratch.new.items key.now new merge)) }
        ensures stays { result ≡ Ok None → scratch.new.items ≡ scratch.old.items }
    {
        let Some(sought) = seek_on(bytes, NodeKind::Leaf, key, self.at, self.left) else {
            return Ok(None);
        };
        let Some((to, left)) = skip_key(bytes, NodeKind::Leaf, key, sought.at, sought.left) else {
            return Ok(None);
        };
        if to > self.end {
            return Ok(None);
        }
        if self.count > PAGE_SIZE {
            return Ok(None);
        }
        let length = scratch.len() + (sought.at - self.at) + cell_length(key, value);
        if !fits(NodeKind::Leaf, length + (self.end - to)) {
            return Ok(None);
        }
        scratch.extend_from_slice(&bytes[self.at..sought.at])?;
        let added = push_payload(scratch, NodeKind::Leaf, key, value)?;
        Ok(Some(LeafMerge {
            count: self.count + sought.index + added,
            at: to,
            left,
            end: self.end,
        }))
    }

    /// Copies the cells that are in the page still to scratch, and gives the number of all cells. None: these bytes are no
    /// leaf. In both cases nothing is known of scratch.
    pub fn finish(
        self,
        bytes: &[u8; PAGE_SIZE],
        scratch: &mut Vec<u8>,
    ) -> Result<Option<usize>, AllocError>
        ensures finished { (last : List ℕ) (cells : List Entry)
            → AreMerged bytes.now scratch.old.items last cells self
            → IfOk result (λ count. (count ≡ Some (length cells))
            × (scratch.new.items ≡ cells_bytes Leaf cells)) }
        ensures few { IfOk result (λ count. IfSome count (λ n. IsCount n)) }
        ensures fits { IfOk result (λ count. IfSome count
            (λ n. FitsPage Leaf (length scratch.new.items))) }
    {
        if self.at > self.end {
            return Ok(None);
        }
        if self.count > PAGE_SIZE {
            return Ok(None);
        }
        if self.left > PAGE_SIZE {
            return Ok(None);
        }
        scratch.extend_from_slice(&bytes[self.at..self.end])?;
        if !fits(NodeKind::Leaf, scratch.len()) {
            return Ok(None);
        }
        Ok(Some(self.count + self.left))
    }
}
