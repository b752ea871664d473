//! Cells: a key with a value, or with the page of a child.
ghost use Rattle.std.specs.Prelude.{◌≡◌, ℕ, ◌+◌, ◌<◌, ◌≤◌, ◌++◌, List, length, drop, None, IfSome, OnOk};
ghost use Rattle.page_nodes.specs.Map.{is_below, Entry};
ghost use Rattle.page_nodes.specs.Node.{two_bytes, four_bytes, cell_bytes, IsKeySize, IsShortKey, IsPayloadSize, IsCellAt, IsCount, tag, start};
ghost use Rattle.page_nodes.specs.Scratch.{min_cells};

use byteorder::{BigEndian, ByteOrder};
use std::alloc::AllocError;
use storage_sizes::{MAX_KEY_LENGTH, MAX_VALUE_LENGTH, comes_before};

/// The two kinds of nodes.
#[derive(Clone, Copy, Drop, PartialEq, Eq)]
pub enum NodeKind {
    /// Each cell has a value.
    Leaf,
    /// Each cell has a child.
    Inner,
}

impl NodeKind {
    /// The first byte of a node of this kind.
    pub fn tag(self) -> u8
        ensures { result ≡ tag self }
    {
        match self {
            NodeKind::Leaf => 1,
            NodeKind::Inner => 2,
        }
    }

    /// The index of the first byte of the cells in a node of this kind.
    pub fn start(self) -> usize
        ensures { result ≡ start self }
    {
        match self {
            NodeKind::Leaf => 4,
            NodeKind::Inner => 8,
        }
    }

    /// How many cells come after a cut at least: in an inner node two, of which the first becomes the separator.
    pub fn min_cells(self) -> usize
        ensures { result ≡ min_cells self }
    {
        match self {
            NodeKind::Leaf => 1,
            NodeKind::Inner => 2,
        }
    }
}

/// A cell, lent by the bytes that spell it: its key, its payload (a value, or the four bytes of a child's page), and the
/// index at which the next cell begins.
#[derive(Drop)]
pub struct CellView<'a> {
    pub key: &'a [u8],
    pub payload: &'a [u8],
    pub end: usize,
}

/// Whether a key comes before another in byte order.
pub fn is_less(a: &[u8], b: &[u8]) -> bool
    ensures { result ≡ is_below a.now b.now }
{
    comes_before(a, b)
}

/// The number that the two bytes at an index spell.
pub fn two_at(bytes: &[u8], at: usize) -> usize
    requires { at + 2 ≤ length bytes.now }
    ensures spelled { drop at bytes.now ≡ two_bytes result ++ drop (at + 2) bytes.now }
    ensures fits { IsCount result }
{
    BigEndian::read_u16(&bytes[at..]) as usize
}

/// The cell of a leaf or an inner node that is spelled at an index. None: no cell with a key and a payload of the allowed
/// sizes is.
pub fn cell_at<'a>(bytes: &'a [u8], kind: NodeKind, at: usize) -> Option<CellView<'a>>
    requires { at ≤ length bytes.now }
    ensures found { IfSome result (λ cell.
        IsCellAt kind bytes.now at cell.key.now cell.payload.now cell.end) }
    ensures none { result ≡ None → (c : Entry) (rest : List ℕ) → IsKeySize c.0
        → IsPayloadSize kind c.1 → drop at bytes.now ≡ cell_bytes kind c ++ rest → ⊥ }
{
    match kind {
        NodeKind::Leaf => leaf_cell_at(bytes, at),
        NodeKind::Inner => inner_cell_at(bytes, at),
    }
}

fn leaf_cell_at<'a>(bytes: &'a [u8], at: usize) -> Option<CellView<'a>>
    requires { at ≤ length bytes.now }
    ensures found { IfSome result (λ cell.
        IsCellAt NodeKind.Leaf bytes.now at cell.key.now cell.payload.now cell.end) }
    ensures none { result ≡ None → (c : Entry) (rest : List ℕ) → IsKeySize c.0
        → IsPayloadSize NodeKind.Leaf c.1
        → drop at bytes.now ≡ cell_bytes NodeKind.Leaf c ++ rest → ⊥ }
{
    if bytes.len() - at < 4 {
        return None;
    }
    let key_len = two_at(bytes, at);
    let value_len = two_at(bytes, at + 2);
    if key_len == 0 || key_len > MAX_KEY_LENGTH || value_len > MAX_VALUE_LENGTH {
        return None;
    }
    if bytes.len() - at < 4 + key_len + value_len {
        return None;
    }
    let value_for = at + 4 + key_len;
    let end = value_for + value_len;
    Some(CellView {
        key: &bytes[at + 4..value_for],
        payload: &bytes[value_for..end],
        end,
    })
}

fn inner_cell_at<'a>(bytes: &'a [u8], at: usize) -> Option<CellView<'a>>
    requires { at ≤ length bytes.now }
    ensures found { IfSome result (λ cell.
        IsCellAt NodeKind.Inner bytes.now at cell.key.now cell.payload.now cell.end) }
    ensures none { result ≡ None → (c : Entry) (rest : List ℕ) → IsKeySize c.0
        → IsPayloadSize NodeKind.Inner c.1
        → drop at bytes.now ≡ cell_bytes NodeKind.Inner c ++ rest → ⊥ }
{
    if bytes.len() - at < 6 {
        return None;
    }
    let key_len = two_at(bytes, at);
    if key_len == 0 || key_len > MAX_KEY_LENGTH {
        return None;
    }
    if bytes.len() - at < 6 + key_len {
        return None;
    }
    let key_at = at + 6;
    let end = key_at + key_len;
    Some(CellView {
        key: &bytes[key_at..end],
        payload: &bytes[at + 2..key_at],
        end,
    })
}

fn push_two(out: &mut Vec<u8>, number: usize) -> Result<(), AllocError>
    requires { IsCount number }
    ensures { OnOk result (out.new.items ≡ out.old.items ++ two_bytes number) }
{
    out.extend_from_slice(&(number as u16).to_be_bytes())
}

/// Writes a cell after those that are there. Err: an allocation failed, and nothing is known of `out`.
pub fn push_cell(
    out: &mut Vec<u8>,
    kind: NodeKind,
    key: &[u8],
    payload: &[u8],
) -> Result<(), AllocError>
    requires key { IsShortKey key.now }
    requires payload { IsPayloadSize kind payload.now }
    ensures { OnOk result
        (out.new.items ≡ out.old.items ++ cell_bytes kind (key.now, payload.now)) }
{
    push_two(out, key.len())?;
    match kind {
        NodeKind::Leaf => {
            push_two(out, payload.len())?;
            out.extend_from_slice(key)?;
            out.extend_from_slice(payload)?;
        }
        NodeKind::Inner => {
            out.extend_from_slice(payload)?;
            out.extend_from_slice(key)?;
        }
    }
    Ok(())
}
