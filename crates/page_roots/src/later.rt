//! The format of a file that a later program made.
ghost use Rattle.std.specs.Prelude.{◌≡◌, ◌⊎◌, ◌≤◌, IfSome};
ghost use Rattle.page_roots.specs.Sector.{root_at};
ghost use Rattle.page_roots.specs.Later.{is_later, has_newer, later_format, number_said, format_said, NamesLater};

use crate::fields::{u32_at, u64_at};
use crate::format::Format;
use crate::sector::{RootSector, has_magic, read_root};
use storage_sizes::SECTOR_SIZE;

// The format that a root sector says.
fn format_at(bytes: &[u8; SECTOR_SIZE]) -> u32
    ensures { result ≡ format_said bytes.now }
{
    u32_at(bytes, 8)
}

// The number that a root sector says.
fn number_at(bytes: &[u8; SECTOR_SIZE]) -> u64
    ensures { result ≡ number_said bytes.now }
{
    u64_at(bytes, 16)
}

// Whether the bytes begin as a root of this sector does, of a format above the known ones.
fn begins_later(sector: u32, bytes: &[u8; SECTOR_SIZE]) -> bool
    ensures { result ≡ is_later sector bytes.now }
{
    has_magic(bytes) && format_at(bytes) > Format::LAST && number_at(bytes) % 2 == sector as u64
}

// Whether the sector has a root of a known format or a later one, of at least this number.
fn holds_newer(sector: u32, bytes: &[u8; SECTOR_SIZE], number: u64) -> bool
    ensures { result ≡ has_newer sector bytes.now number }
{
    let is_root = begins_later(sector, bytes)
        || match read_root(sector, bytes) {
            RootSector::Found(_) => true,
            RootSector::Empty | RootSector::Malformed => false,
        };
    is_root && number <= number_at(bytes)
}

/// The format, above the known ones, of a file that a later program made: one of the root sectors 0
/// and 1 begins as a root of it, and the other holds no newer root. None of any other file, also
/// where a root of a known format is the newer one.
pub fn later_format(even: &[u8; SECTOR_SIZE], odd: &[u8; SECTOR_SIZE]) -> Option<u32>
    ensures exact { result ≡ later_format even.now odd.now }
    ensures above { IfSome result (λ format. 4 ≤ format) }
    // No root of a known format is newer than the one that is told.
    ensures newest { IfSome result (λ format.
        NamesLater 0 even.now (root_at 1 odd.now) format
        ⊎ NamesLater 1 odd.now (root_at 0 even.now) format) }
{
    if begins_later(0, even) && !holds_newer(1, odd, number_at(even)) {
        Some(format_at(even))
    } else if begins_later(1, odd) && !holds_newer(0, even, number_at(odd)) {
        Some(format_at(odd))
    } else {
        None
    }
}
