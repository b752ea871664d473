//! Map pages.
ghost use Rattle.std.specs.Prelude.{◌≡◌, length};
ghost use Rattle.page_roots.specs.MapPage.{entries_in, map_page_bytes};

use crate::fields::read_numbers;
use byteorder::{BigEndian, ByteOrder};
use storage_sizes::PAGE_SIZE;

/// The entries of a map page.
pub const ENTRIES_PER_MAP_PAGE: usize = 1024;

/// Reads the entries of a map page. Any bytes are a map page, that of these entries alone.
pub fn read_map_page(bytes: &[u8; PAGE_SIZE], entries: &mut [u32])
    requires { length entries.old ≡ ENTRIES_PER_MAP_PAGE }
    ensures entries { entries.new ≡ entries_in bytes.now }
    ensures spelled { map_page_bytes entries.new ≡ bytes.now }
{
    read_numbers(bytes, entries);
}

/// Writes the map page with these entries, whatever was there before.
pub fn put_map_page(entries: &[u32], bytes: &mut [u8; PAGE_SIZE])
    requires { length entries.now ≡ ENTRIES_PER_MAP_PAGE }
    ensures spelled { bytes.new ≡ map_page_bytes entries.now }
    ensures read { entries_in bytes.new ≡ entries.now }
{
    BigEndian::write_u32_into(entries, bytes);
}

/// The bytes of the map page with these entries.
pub fn write_map_page(entries: &[u32]) -> [u8; PAGE_SIZE]
    requires { length entries.now ≡ ENTRIES_PER_MAP_PAGE }
    ensures spelled { result ≡ map_page_bytes entries.now }
    ensures read { entries_in result ≡ entries.now }
{
    let mut bytes = [0; PAGE_SIZE];
    put_map_page(entries, &mut bytes);
    bytes
}
