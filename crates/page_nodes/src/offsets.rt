//! Pages with offsets of their cells, by which a search in a node leaves out most cells before the one that it looks for.
ghost use Rattle.std.specs.Prelude.{◌≡◌, ◌≤◌, ℕ, List, length, take};
ghost use Rattle.page_nodes.specs.Map.{Entry};
ghost use Rattle.page_nodes.specs.Node.{IsNode, zeros_after};
ghost use Rattle.page_nodes.specs.Offsets.{AreOffsets, AreInside, HasOffsets};

use crate::cell::{NodeKind, cell_at, is_less, two_at};
use crate::page::kind_of;
use storage_sizes::PAGE_SIZE;

/// How many cells there are from one offset to the next.
pub(crate) const STRIDE: usize = 8;

/// The most offsets of a page. A cell takes five bytes at least, so a page has at most 818 cells.
const MAX_OFFSETS: usize = 103;

/// A page that is lent, with the offsets that are known of its cells: those of the first cell and of each eighth cell
/// after it, as far as they go; perhaps none.
#[derive(Clone, Copy, Drop)]
pub struct PageView<'a> {
    pub(crate) bytes: &'a [u8; PAGE_SIZE],
    pub(crate) offsets: &'a [u16],
    ghost most: { length offsets.now ≤ 103 },
    ghost inside: { AreInside offsets.now },
    ghost are_offsets: { AreOffsets bytes.now offsets.now },
}

/// A page and offsets of its cells: none until they are asked for, and then as far as its bytes are those of a node whose
/// keys rise.
#[derive(Drop)]
pub struct IndexedPage {
    bytes: [u8; PAGE_SIZE],
    offsets: [u16; MAX_OFFSETS],
    count: usize,
    ghost most: { count ≤ 103 },
    ghost inside: { AreInside (take count offsets) },
    ghost are_offsets: { AreOffsets bytes (take count offsets) },
}

impl<'a> PageView<'a> {
    ghost use Rattle.page_nodes.specs.Views.{bytes_of};

    /// A page of whose cells no offset is known.
    pub fn plain(bytes: &'a [u8; PAGE_SIZE]) -> PageView<'a>
        ensures { bytes_of result ≡ bytes.now }
    {
        PageView {
            bytes,
            offsets: &[],
        }
    }

    /// The bytes of the page.
    pub fn bytes(self) -> &'a [u8; PAGE_SIZE]
        ensures { result.now ≡ bytes_of self.entry }
    {
        self.bytes
    }
}

impl IndexedPage {
    ghost use Rattle.page_nodes.specs.Views.{bytes_of, kept_bytes};

    /// The page of these bytes, whatever they are. No offset is known yet.
    pub fn new(bytes: &[u8; PAGE_SIZE]) -> IndexedPage
        ensures { kept_bytes result ≡ bytes.now }
    {
        IndexedPage {
            bytes: *bytes,
            offsets: [0; MAX_OFFSETS],
            count: 0,
        }
    }

    /// Gives the page these bytes, whatever they are. No offset is known then.
    pub fn replace(&mut self, bytes: &[u8; PAGE_SIZE])
        ensures { kept_bytes self.new ≡ bytes.now }
    {
        self.count = 0;
        self.bytes = *bytes;
    }

    /// Finds the offsets, where none is known.
    pub fn index(&mut self)
        ensures { kept_bytes self.new ≡ kept_bytes self.old }
    {
        if self.count > 0 {
            return;
        }
        if let Some(kind) = kind_of(&self.bytes) {
            self.count = find_offsets(&self.bytes, kind, &mut self.offsets);
        }
    }

    /// Lends the page.
    pub fn view(&self) -> PageView<'_>
        ensures { bytes_of result ≡ kept_bytes self.now }
    {
        PageView {
            bytes: &self.bytes,
            offsets: &self.offsets[..self.count],
        }
    }
}

// Puts the offsets of a node's cells, and tells how many they are: as far as its keys rise.
fn find_offsets(bytes: &[u8; PAGE_SIZE], kind: NodeKind, offsets: &mut [u16; MAX_OFFSETS]) -> usize
    ensures most { result ≤ 103 }
    ensures inside { AreInside (take result offsets.new) }
    ensures found { (first : List ℕ) (cells : List Entry) → IsNode kind first cells bytes.now
        → HasOffsets kind bytes.now cells (zeros_after kind first cells)
        (take result offsets.new) }
{
    let cells = two_at(bytes, 2);
    let mut count = 0;
    let mut at = kind.start();
    let mut last: &[u8] = &[];
    for i in 0..cells {
        let Some(cell) = cell_at(bytes, kind, at) else {
            break;
        };
        if !is_less(last, cell.key) {
            break;
        }
        if i == STRIDE * count && count < MAX_OFFSETS {
            offsets[count] = at as u16;
            count += 1;
        }
        last = cell.key;
        at = cell.end;
    }
    count
}
