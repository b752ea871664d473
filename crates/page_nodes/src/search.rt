//! Searches in a node, in place. Cells have no fixed length, so they are read one after another, from the last known offset on
//! that is not past the key.
ghost use Rattle.std.specs.Prelude.{◌≡◌, ℕ, ◌+◌, ◌<◌, ◌≤◌, List, ◌∷◌, length, IfSome, MatchOption};
ghost use Rattle.page_nodes.specs.Map.{is_below, Entry, first_at, value_for, lent_bytes};
ghost use Rattle.page_nodes.specs.Node.{page_size, four_bytes, IsKeySize, IsCount, IsNode, zeros_after, start};
ghost use Rattle.page_nodes.specs.Views.{bytes_of};
ghost use Rattle.page_nodes.specs.Search.{AreCellsAt, IsPosition, IsLent, IsPage, child_in, later_in, cell_past, pair_from};

use crate::cell::{CellView, NodeKind, cell_at, is_less, two_at};
use crate::offsets::PageView;
use crate::start::start_for;
use byteorder::{BigEndian, ByteOrder};
use storage_sizes::PAGE_SIZE;

/// A position among the cells of a node: the byte at which the cells from a key on begin, how many cells come before it,
/// and how many from there on.
#[derive(Clone, Copy, Drop)]
pub struct CellPosition {
    pub at: usize,
    pub index: usize,
    pub left: usize,
}

/// The child of a key, and the child after it.
#[derive(Clone, Copy, Drop)]
pub struct Branch {
    pub child: u32,
    pub later: Option<u32>,
}

/// The child of a key, and the cell that ends the keys of this child, if one comes after it.
#[derive(Drop)]
pub struct Turn<'a> {
    pub child: u32,
    pub next: Option<CellView<'a>>,
}

/// Two children side by side, and the key between them.
#[derive(Drop)]
pub struct Pair<'a> {
    pub left: u32,
    pub key: &'a [u8],
    pub right: u32,
}

/// The position of the first cell at or after a key. None: these bytes are no node of that kind.
pub fn seek(bytes: &[u8; PAGE_SIZE], kind: NodeKind, key: &[u8]) -> Option<CellPosition>
    ensures sought { (first : List ℕ) (cells : List Entry) → IsNode kind first cells bytes.now
        → MatchOption result ⊥ (λ s. IsPosition kind bytes.now key.now cells
        (zeros_after kind first cells) s.at s.index s.left) }
    ensures begins { IfSome result (λ s. start kind ≤ s.at) }
    ensures ends { IfSome result (λ s. s.at ≤ page_size) }
    ensures index { IfSome result (λ s. s.index ≤ s.at) }
    ensures few { IfSome result (λ s. IsCount (s.index + s.left)) }
{
    let count = two_at(bytes, 2);
    seek_on(bytes, kind, key, kind.start(), count)
}

/// The position of the first cell at or after a key among so many cells, which begin at an index. None: these bytes are not
/// so many cells.
pub fn seek_on(
    bytes: &[u8; PAGE_SIZE],
    kind: NodeKind,
    key: &[u8],
    begin: usize,
    count: usize,
) -> Option<CellPosition>
    requires { begin ≤ page_size }
    ensures sought { (cells : List Entry) (after : List ℕ) → AreCellsAt kind bytes.now begin cells after
        → count ≡ length cells → MatchOption result ⊥ (λ s. IsPosition kind bytes.now key.now cells
        after s.at s.index s.left) }
    ensures begins { IfSome result (λ s. begin + s.index ≤ s.at) }
    ensures ends { IfSome result (λ s. s.at ≤ page_size) }
    ensures total { IfSome result (λ s. s.index + s.left ≡ count) }
{
    let mut at = begin;
    for i in 0..count {
        let cell = cell_at(bytes, kind, at)?;
        if !is_less(cell.key, key) {
            return Some(CellPosition {
                at,
                index: i,
                left: count - i,
            });
        }
        at = cell.end;
    }
    Some(CellPosition {
        at,
        index: count,
        left: 0,
    })
}

/// The first entry of a leaf at or after a key. None: the page is no leaf. Some(None): the leaf has no such entry.
fn entry_from<'a>(page: PageView<'a>, key: &[u8]) -> Option<Option<CellView<'a>>>
    ensures { (first : List ℕ) (cells : List Entry) → IsNode NodeKind.Leaf first cells (bytes_of page.entry)
        → MatchOption result ⊥ (λ found. IsLent (first_at key.now cells) found) }
{
    let bytes = page.bytes;
    let count = two_at(bytes, 2);
    let start = start_for(page, NodeKind::Leaf, key);
    let mut at = start.at;
    for i in start.index..count {
        let entry = cell_at(bytes, NodeKind::Leaf, at)?;
        if !is_less(entry.key, key) {
            return Some(Some(entry));
        }
        at = entry.end;
    }
    Some(None)
}

/// The value of a key in a leaf. None: the page is no leaf. Some(None): the leaf has no such key.
pub fn value_in<'a>(page: PageView<'a>, key: &[u8]) -> Option<Option<&'a [u8]>>
    ensures { (first : List ℕ) (cells : List Entry) → IsNode NodeKind.Leaf first cells (bytes_of page.entry)
        → MatchOption result ⊥ (λ found. lent_bytes found ≡ value_for key.now cells) }
{
    let found = entry_from(page, key)?;
    let Some(entry) = found else {
        return Some(None);
    };
    if is_less(key, entry.key) {
        return Some(None);
    }
    Some(Some(entry.payload))
}

/// The page whose four bytes these are.
pub fn child_of(payload: &[u8]) -> u32
    requires { length payload.now ≡ 4 }
    ensures { four_bytes result ≡ payload.now }
{
    BigEndian::read_u32(payload)
}

/// The child of an inner node under which a key belongs, and the first cell whose key is after this one. None: the page is
/// no inner node.
pub fn turn_for<'a>(page: PageView<'a>, key: &[u8]) -> Option<Turn<'a>>
    ensures turn { (first : List ℕ) (cells : List Entry) → IsNode NodeKind.Inner first cells (bytes_of page.entry)
        → MatchOption result ⊥ (λ t. (four_bytes t.child ≡ child_in key.now first cells)
        × IsLent (cell_past key.now cells) t.next) }
    ensures size { IfSome result (λ t. IfSome t.next (λ cell. length cell.payload.now ≡ 4)) }
{
    let bytes = page.bytes;
    let count = two_at(bytes, 2);
    let start = start_for(page, NodeKind::Inner, key);
    let mut child = child_of(&bytes[4..8]);
    let mut at = start.at;
    for i in start.index..count {
        let cell = cell_at(bytes, NodeKind::Inner, at)?;
        if is_less(key, cell.key) {
            return Some(Turn {
                child,
                next: Some(cell),
            });
        }
        child = child_of(cell.payload);
        at = cell.end;
    }
    Some(Turn { child, next: None })
}

/// The child of an inner node under which a key belongs, and the child after it. None: the page is no inner node.
pub fn child_for(page: PageView<'_>, key: &[u8]) -> Option<Branch>
    ensures { (first : List ℕ) (cells : List Entry) → IsNode NodeKind.Inner first cells (bytes_of page.entry)
        → MatchOption result ⊥ (λ b. (four_bytes b.child ≡ child_in key.now first cells)
        × IsPage (later_in key.now cells) b.later) }
{
    let turn = turn_for(page, key)?;
    let child = turn.child;
    match turn.next {
        Some(cell) => Some(Branch {
            child,
            later: Some(child_of(cell.payload)),
        }),
        None => Some(Branch { child, later: None }),
    }
}

/// The child of an inner node under which a key belongs beside the child before it; the first child beside the one after
/// it. None: these bytes are no inner node with a cell.
pub fn pair_for<'a>(bytes: &'a [u8; PAGE_SIZE], key: &[u8]) -> Option<Pair<'a>>
    ensures pair { (first : List ℕ) (c : Entry) (cells : List Entry)
        → IsNode NodeKind.Inner first (c ∷ cells) bytes.now
        → MatchOption result ⊥ (λ p. let pair = pair_from key.now first c cells in
        (four_bytes p.left ≡ pair.0) × (p.key.now ≡ pair.1.0) × (four_bytes p.right ≡ pair.1.1)) }
    ensures size { IfSome result (λ p. IsKeySize p.key.now) }
{
    let count = two_at(bytes, 2);
    let mut left = child_of(&bytes[4..8]);
    let mut right = cell_at(bytes, NodeKind::Inner, 8)?;
    for i in 1..count {
        let next = cell_at(bytes, NodeKind::Inner, right.end)?;
        if is_less(key, next.key) {
            break;
        }
        left = child_of(right.payload);
        right = next;
    }
    Some(Pair {
        left,
        key: right.key,
        right: child_of(right.payload),
    })
}
