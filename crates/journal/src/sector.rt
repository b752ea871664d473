//! The sectors of a journal, and what their bytes say.
ghost use Rattle.std.specs.Prelude.{◌≡◌, ◌↔◌, ℕ, List, length, drop};
ghost use Rattle.std.specs.Str.{bytes_eq};
ghost use Rattle.journal.specs.Chain.{Part, Blank, Holds};
ghost use Rattle.journal.specs.Sectors.{IsPart, begins_with_magic, may_be, zeros, part_with, part_at, sector_bytes, sector_at, says};

use crate::fields::{MAGIC, magic_then_zeros, put_part, put_u16, put_u64, u16_at, u64_at};
use storage_sizes::SECTOR_SIZE;

/// The bytes of a tag, with which a sector begins.
pub const TAG_SIZE: usize = 24;

/// The bytes of a part of a record, which follow its tag.
pub const PART_SIZE: usize = 488;

const _: () = prove!(TAG_SIZE + PART_SIZE == SECTOR_SIZE);

/// What a sector says of the part in it.
#[derive(Clone, Copy, PartialEq, Eq, Drop)]
pub struct SectorTag {
    /// The number of the root whose pages the record follows, at least 1.
    pub root: u64,
    /// The number of the record.
    pub number: u64,
    /// Which part of the record it is, from 0 on.
    pub index: u16,
    /// How many parts the record has.
    pub count: u16,
}

/// What the bytes of a sector say.
#[derive(Clone, Copy, PartialEq, Eq, Drop)]
pub enum JournalSector {
    /// All bytes are zero.
    Blank,
    /// They are the spelling of a part with this tag.
    Part(SectorTag),
    /// They are neither.
    Malformed,
}

impl SectorTag {
    /// The 512 bytes of the sector with this tag, and a part of 488 bytes behind it.
    pub fn sector_with(&self, part: &[u8]) -> [u8; SECTOR_SIZE]
        requires { length part.now ≡ PART_SIZE }
        ensures { result ≡ sector_bytes (part_with self.now part.now) }
    {
        let mut bytes = magic_then_zeros();
        put_u64(&mut bytes, 4, self.root);
        put_u64(&mut bytes, 12, self.number);
        put_u16(&mut bytes, 20, self.index);
        put_u16(&mut bytes, 22, self.count);
        put_part(&mut bytes, part);
        bytes
    }
}

// Whether all bytes are zero.
fn is_zero(bytes: &[u8; SECTOR_SIZE]) -> bool
    ensures { result ≡ bytes_eq bytes.now zeros }
{
    *bytes == [0; SECTOR_SIZE]
}

// Whether the bytes begin with the magic of a part.
fn has_magic(bytes: &[u8; SECTOR_SIZE]) -> bool
    ensures { result ≡ begins_with_magic bytes.now }
{
    bytes.starts_with(MAGIC)
}

// The tag whose fields stand in these bytes.
fn tag_in(bytes: &[u8; SECTOR_SIZE]) -> SectorTag
    ensures { part_with result (drop 24 bytes.now) ≡ part_at bytes.now }
{
    SectorTag {
        root: u64_at(bytes, 4),
        number: u64_at(bytes, 12),
        index: u16_at(bytes, 20),
        count: u16_at(bytes, 22),
    }
}

// Whether the root and the range of a tag are those of a part in a journal of so many sectors.
fn may_be(room: u16, tag: SectorTag) -> bool
    ensures { (bytes : List ℕ) → result ≡ may_be room (part_with tag bytes) }
{
    tag.root >= 1 && (tag.index < tag.count && tag.count <= room)
}

/// What the bytes of a sector say in a journal of so many sectors. A part is found exactly where the
/// bytes are its spelling, its root is at least 1, its index is one of its record's, and the record
/// has room in the journal.
pub fn read_sector(room: u16, bytes: &[u8; SECTOR_SIZE]) -> JournalSector
    ensures exact { says result bytes.now ≡ sector_at room bytes.now }
    ensures found { (part : Part) → (says result bytes.now ≡ Holds part)
        ↔ (IsPart room part × (bytes.now ≡ sector_bytes part)) }
    ensures blank { (says result bytes.now ≡ Blank) ↔ (bytes.now ≡ zeros) }
{
    if is_zero(bytes) {
        return JournalSector::Blank;
    }
    if !has_magic(bytes) {
        return JournalSector::Malformed;
    }
    let tag = tag_in(bytes);
    if !may_be(room, tag) {
        return JournalSector::Malformed;
    }
    JournalSector::Part(tag)
}
