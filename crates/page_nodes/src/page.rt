//! The bytes of a page as a whole: written from cells, and tested.
ghost use Rattle.std.specs.Prelude.{◌≡◌, ◌↔◌, ℕ, ◌+◌, ◌<◌, ◌≤◌, List, length, Some, None, IsTrue, IfSome, MatchOption, slice_index, drop, get_or};
ghost use Rattle.page_nodes.specs.Map.{Entry, IsRising};
ghost use Rattle.page_nodes.specs.Search.{RiseTo};
ghost use Rattle.page_nodes.specs.Ends.{AreEnds};
ghost use Rattle.page_nodes.specs.Node.{AreZeros, page_size, four_bytes, cells_bytes, IsNode, IsWhole, IsFirst, IsCount, FitsPage, HasSizes, start, zeros_after, tag, HasCell};

use crate::cell::{NodeKind, cell_at, is_less, two_at};
use crate::search::child_of;
use byteorder::{BigEndian, ByteOrder};
use storage_sizes::PAGE_SIZE;

/// The first and the last key of a node.
#[derive(Clone, Copy, Drop)]
pub struct EndKeys<'a> {
    pub first: &'a [u8],
    pub last: &'a [u8],
}

/// A page that is a node: its kind, and its end keys, where it has cells.
#[derive(Clone, Copy, Drop)]
pub struct WholeNode<'a> {
    pub kind: NodeKind,
    pub keys: Option<EndKeys<'a>>,
}

/// Cells with keys that rise: the index at which they end, and their end keys, where there are any.
#[derive(Clone, Copy, Drop)]
struct RisingCells<'a> {
    end: usize,
    keys: Option<EndKeys<'a>>,
}

/// Whether cells of so many bytes fit in the page of a node.
pub fn fits(kind: NodeKind, cells: usize) -> bool
    ensures { IsTrue result ↔ FitsPage kind cells }
{
    cells <= PAGE_SIZE - kind.start()
}

/// Writes the page of a node: the four bytes of its first child, if it is an inner one, and its cells, which are `count`. The
/// rest of the page is zero, whatever it was before.
pub fn write_node(
    page: &mut [u8; PAGE_SIZE],
    kind: NodeKind,
    first: &[u8],
    cells: &[u8],
    count: usize,
)
    requires first_size { IsFirst kind first.now }
    requires fits { FitsPage kind (length cells.now) }
    requires count { IsCount count }
    ensures { (cs : List Entry) → HasSizes kind cs → cells.now ≡ cells_bytes kind cs
        → count ≡ length cs → IsNode kind first.now cs page.new }
{
    page[0] = kind.tag();
    page[1] = 0;
    BigEndian::write_u16(&mut page[2..4], count as u16);
    let at = 4 + first.len();
    page[4..at].copy_from_slice(first);
    let end = at + cells.len();
    page[at..end].copy_from_slice(cells);
    page[end..].fill(0);
}

/// The kind of the node that these bytes spell, by its first byte. None: they spell no node.
pub fn kind_of(bytes: &[u8; PAGE_SIZE]) -> Option<NodeKind>
    ensures spelled { (kind : NodeKind) (first : List ℕ) (cells : List Entry)
        → IsNode kind first cells bytes.now → result ≡ Some kind }
    ensures tagged { IfSome result (λ kind. slice_index bytes.now 0 ≡ tag kind) }
{
    match bytes[0] {
        1 => Some(NodeKind::Leaf),
        2 => Some(NodeKind::Inner),
        _ => None,
    }
}

/// The child of an inner node before its first cell.
pub fn first_child(bytes: &[u8; PAGE_SIZE]) -> u32
    ensures { (first : List ℕ) (cells : List Entry)
        → IsNode NodeKind.Inner first cells bytes.now → four_bytes result ≡ first }
{
    child_of(&bytes[4..8])
}

// Whether the eight bytes from an index on are zeros.
fn are_eight_zeros(bytes: &[u8], at: usize) -> bool
    requires { at + 8 ≤ length bytes.now }
    ensures { IsTrue result ↔ AreZeros bytes.now at (at + 8) }
{
    let number = u64::from_be_bytes([
        bytes[at],
        bytes[at + 1],
        bytes[at + 2],
        bytes[at + 3],
        bytes[at + 4],
        bytes[at + 5],
        bytes[at + 6],
        bytes[at + 7],
    ]);
    number == 0
}

// Whether all bytes from an index on are zeros.
fn ends_in_zeros(bytes: &[u8], from: usize) -> bool
    requires { from ≤ length bytes.now }
    ensures { IsTrue result ↔ AreZeros bytes.now from (length bytes.now) }
{
    for at in from..bytes.len() {
        if bytes[at] != 0 {
            return false;
        }
    }
    true
}

/// Whether all of these are zeros. They are read eight at once.
fn are_zeros(bytes: &[u8]) -> bool
    ensures { IsTrue result ↔ ((k : ℕ) → k < length bytes.now → slice_index bytes.now k ≡ 0) }
{
    let eights = bytes.len() / 8;
    for i in 0..eights {
        if !are_eight_zeros(bytes, 8 * i) {
            return false;
        }
    }
    ends_in_zeros(bytes, 8 * eights)
}

/// The cells of a node of that kind: where they end, and their end keys. None: no cells are spelled, or their keys do not rise.
fn rising_cells<'a>(bytes: &'a [u8; PAGE_SIZE], kind: NodeKind) -> Option<RisingCells<'a>>
    ensures read { IfSome result (λ read. RiseTo kind bytes.now read.end) }
    ensures end { (first : List ℕ) (cells : List Entry) → IsNode kind first cells bytes.now
        → IsRising cells
        → MatchOption result ⊥ (λ read. drop read.end bytes.now ≡ zeros_after kind first cells) }
    ensures keys { (first : List ℕ) (cells : List Entry) → IsNode kind first cells bytes.now
        → IsRising cells → IfSome result (λ read. AreEnds cells read.keys) }
    ensures begins { IfSome result (λ read. start kind ≤ read.end) }
    ensures inside { IfSome result (λ read. read.end ≤ page_size) }
{
    let count = two_at(bytes, 2);
    let start = kind.start();
    if count == 0 {
        return Some(RisingCells {
            end: start,
            keys: None,
        });
    }
    let mut last = cell_at(bytes, kind, start)?;
    let first = last.key;
    for i in 1..count {
        let next = cell_at(bytes, kind, last.end)?;
        if !is_less(last.key, next.key) {
            return None;
        }
        last = next;
    }
    Some(RisingCells {
        end: last.end,
        keys: Some(EndKeys {
            first,
            last: last.key,
        }),
    })
}

/// Whether a node of this kind may have so many cells.
fn may_have(kind: NodeKind, cells: usize) -> bool
    ensures { IsTrue result ↔ HasCell kind cells }
{
    match kind {
        NodeKind::Leaf => true,
        NodeKind::Inner => cells > 0,
    }
}

/// The node that a page is. None: the page is no node, that is, its first bytes are not those of a node, a cell is not
/// spelled within the page with a key and a payload of the allowed sizes, the keys do not rise strictly, an inner node has
/// no cell, or a byte after the cells is not zero.
pub fn whole_node<'a>(bytes: &'a [u8; PAGE_SIZE]) -> Option<WholeNode<'a>>
    ensures node { IfSome result (λ node. IsWhole bytes.now node.kind) }
    ensures keys { IfSome result (λ node. (first : List ℕ) (cells : List Entry)
        → IsNode node.kind first cells bytes.now → AreEnds cells node.keys) }
    ensures none { result ≡ None → (kind : NodeKind) → IsWhole bytes.now kind → ⊥ }
{
    let kind = kind_of(bytes)?;
    if bytes[1] != 0 {
        return None;
    }
    if !may_have(kind, two_at(bytes, 2)) {
        return None;
    }
    let read = rising_cells(bytes, kind)?;
    if !are_zeros(&bytes[read.end..]) {
        return None;
    }
    Some(WholeNode {
        kind,
        keys: read.keys,
    })
}

/// The kind of the node that a page is. None: the page is no node, as `whole_node` tells.
pub fn node_kind(bytes: &[u8; PAGE_SIZE]) -> Option<NodeKind>
    ensures node { IfSome result (λ kind. IsWhole bytes.now kind) }
    ensures none { result ≡ None → (kind : NodeKind) → IsWhole bytes.now kind → ⊥ }
{
    let node = whole_node(bytes)?;
    Some(node.kind)
}

/// The law that bytes spell at most one node, and that a node is spelled by one page only.
pub fn one_node()
    ensures kind { (bytes : List ℕ) (kind other : NodeKind) (first others : List ℕ)
        (cells ds : List Entry) → IsNode kind first cells bytes → IsNode other others ds bytes
        → kind ≡ other }
    ensures first { (bytes : List ℕ) (kind : NodeKind) (first others : List ℕ)
        (cells ds : List Entry) → IsNode kind first cells bytes → IsNode kind others ds bytes
        → first ≡ others }
    ensures cells { (bytes : List ℕ) (kind : NodeKind) (first others : List ℕ)
        (cells ds : List Entry) → IsNode kind first cells bytes → IsNode kind others ds bytes
        → cells ≡ ds }
    ensures bytes { (bytes more : List ℕ) (kind : NodeKind) (first : List ℕ) (cells : List Entry)
        → IsNode kind first cells bytes → IsNode kind first cells more → bytes ≡ more }
{}
