//! The sectors of a record.
ghost use Rattle.std.specs.Prelude.{◌≡◌, ◌≤◌, ◌<◌, ◌/◌, ◌%◌, ◌^◌, [], ℕ, length, drop, get_or, IfOk};
ghost use Rattle.journal.specs.Chain.{Holds, part_of};
ghost use Rattle.journal.specs.Sectors.{sector_bytes, sector_at};
ghost use Rattle.journal.specs.Records.{entry_of};

use crate::sector::{PART_SIZE, SectorTag, TAG_SIZE};
use std::alloc::{AllocError, Global};
use storage_sizes::SECTOR_SIZE;

/// The bytes behind the tag of a sector.
pub fn part_bytes(bytes: &[u8; SECTOR_SIZE]) -> &[u8]
    ensures part { result.now ≡ drop TAG_SIZE bytes.now }
    ensures whole { length result.now ≡ PART_SIZE }
{
    &bytes[TAG_SIZE..]
}

/// The sectors of the record of this number whose parts have these bytes, which follows the pages of this
/// root. Each is read as its part.
pub fn write_sectors(
    alloc: Global,
    root: u64,
    number: u64,
    bytes: &[u8],
) -> Result<Vec<[u8; SECTOR_SIZE]>, AllocError>
    requires whole { length bytes.now % PART_SIZE ≡ 0 }
    requires short { length bytes.now / PART_SIZE < 2 ^ 16 }
    ensures count { IfOk result (λ sectors. length sectors.items ≡ length bytes.now / PART_SIZE) }
    ensures spelled { IfOk result (λ sectors. (i : ℕ) → i < length sectors.items
        → get_or sectors.items i [] ≡ sector_bytes (part_of root (entry_of number bytes.now) i)) }
    ensures read { IfOk result (λ sectors. (room i : ℕ) → 1 ≤ root → length sectors.items ≤ room
        → i < length sectors.items → sector_at room (get_or sectors.items i [])
        ≡ Holds (part_of root (entry_of number bytes.now) i)) }
{
    let count = bytes.len() / PART_SIZE;
    let mut sectors = Vec::new(alloc);
    for index in 0..count {
        let tag = SectorTag {
            root,
            number,
            index: index as u16,
            count: count as u16,
        };
        let start = PART_SIZE * index;
        sectors.push(tag.sector_with(&bytes[start..start + PART_SIZE]))?;
    }
    Ok(sectors)
}
