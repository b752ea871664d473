//! Root sectors, and what their bytes say.
ghost use Rattle.std.specs.Prelude.{◌≡◌, ◌↔◌, ℕ, true, false, IsTrue, IfSome, IfNone, take};
ghost use Rattle.std.specs.Str.{bytes_eq};
ghost use Rattle.page_roots.specs.Root.{RootFields, IsRootOf, magic, root_bytes};
ghost use Rattle.page_roots.specs.Sector.{root_at, begins_with_magic, zeros, fields_in, may_stand};
ghost use Rattle.page_roots.specs.declared.sector.RootSector.TheVariants.{Empty, Found};

use crate::fields::{MAGIC, MAX_MAP_PAGES, read_numbers_at, u32_at, u64_at};
use crate::format::Format;
use crate::root::Root;
use storage_sizes::SECTOR_SIZE;

/// What the bytes of a root sector say.
#[derive(Drop)]
pub enum RootSector {
    /// All bytes are zero: no root was written yet.
    Empty,
    /// The bytes are the spelling of this root, and it may stand in this sector.
    Found(Root),
    /// The bytes are neither.
    Malformed,
}

/// Whether the bytes begin with the magic of a root.
pub fn has_magic(bytes: &[u8; SECTOR_SIZE]) -> bool
    ensures exact { result ≡ begins_with_magic bytes.now }
    ensures magic { IsTrue result ↔ (take 8 bytes.now ≡ magic) }
{
    bytes.starts_with(MAGIC)
}

// Whether all bytes are zero.
fn is_zero(bytes: &[u8; SECTOR_SIZE]) -> bool
    ensures { result ≡ bytes_eq bytes.now zeros }
{
    *bytes == [0; SECTOR_SIZE]
}

// The root whose fields stand in these bytes, if they are such that it may stand in this sector.
fn fields_of_bytes(sector: u32, bytes: &[u8; SECTOR_SIZE]) -> Option<Root>
    ensures some { IfSome result
        (λ root. (may_stand sector bytes.now ≡ true) × (root ≡ fields_in bytes.now)) }
    ensures none { IfNone result (may_stand sector bytes.now ≡ false) }
{
    let count = u32_at(bytes, 24) as usize;
    let number = u64_at(bytes, 16);
    if count == 0 || count > MAX_MAP_PAGES || number == 0 || number % 2 != sector as u64 {
        return None;
    }
    let mut maps = [0; MAX_MAP_PAGES];
    read_numbers_at(bytes, 28, count, &mut maps);
    let format = Format::of_number(u32_at(bytes, 8));
    Some(Root::new(format, number, u32_at(bytes, 12), &maps[..count]))
}

/// A root sector in which no root was written yet.
pub fn empty_sector() -> [u8; SECTOR_SIZE]
    ensures zero { result ≡ zeros }
    ensures read { (sector : ℕ) → root_at sector result ≡ Empty }
{
    [0; SECTOR_SIZE]
}

/// What the bytes of this root sector say, 0 or 1.
pub fn read_root(sector: u32, bytes: &[u8; SECTOR_SIZE]) -> RootSector
    ensures exact { result ≡ root_at sector bytes.now }
    // A root is found exactly where the bytes are its spelling and it may stand in this sector.
    ensures found { (root : RootFields)
        → (result ≡ Found root) ↔ (IsRootOf sector root × (bytes.now ≡ root_bytes root)) }
    ensures empty { (result ≡ Empty) ↔ (bytes.now ≡ zeros) }
    ensures magic { (root : RootFields) → result ≡ Found root → take 8 bytes.now ≡ magic }
{
    if is_zero(bytes) {
        return RootSector::Empty;
    }
    match fields_of_bytes(sector, bytes) {
        Some(root) => {
            if *bytes == root.bytes() {
                RootSector::Found(root)
            } else {
                RootSector::Malformed
            }
        }
        None => RootSector::Malformed,
    }
}
