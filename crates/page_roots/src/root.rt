//! A root, and its bytes.
ghost use Rattle.std.specs.Prelude.{◌≡◌, ◌+◌, ◌-◌, ◌*◌, ◌<◌, ◌≤◌, length, take};
ghost use Rattle.page_roots.specs.Root.{RootFields, IsRootOf, fields_of, root_bytes, home};

use crate::fields::{MAX_MAP_PAGES, magic_then_zeros, put_numbers, put_u64};
use crate::format::Format;
use std::marker::Model;
use storage_sizes::SECTOR_SIZE;

/// A root, which names a whole state of a device: the format of its records, a number that rises by one a commit, how many
/// pages the device has, and the physical pages of its 1 to 64 map pages, in order.
#[derive(Drop)]
pub struct Root {
    format: Format,
    number: u64,
    pages: u32,
    // The first `count` of them are in use.
    maps: [u32; MAX_MAP_PAGES],
    count: usize,
}

impl Model for Root {
    ghost Value = { RootFields };

    ghost view = { λ r. fields_of r.format r.number r.pages r.maps r.count };

    ghost invariant = { λ r. (r.count ≤ 64)
        × IsRootOf (home r.number) (fields_of r.format r.number r.pages r.maps r.count) };
}

impl Root {
    ghost use Rattle.page_roots.specs.Sector.{root_at};
    ghost use Rattle.page_roots.specs.declared.sector.RootSector.TheVariants.{Found};

    /// The root of this format and this number, at least 1, on a device of so many pages, with these map pages.
    pub fn new(format: Format, number: u64, pages: u32, maps: &[u32]) -> Root
        requires first { 1 ≤ number }
        requires some { 1 ≤ length maps.now }
        requires most { length maps.now ≤ MAX_MAP_PAGES }
        ensures { result ≡ record { format = format; number = number; pages = pages; maps = maps.now } }
    {
        let mut named = [0; MAX_MAP_PAGES];
        named[..maps.len()].copy_from_slice(maps);
        Root {
            format,
            number,
            pages,
            maps: named,
            count: maps.len(),
        }
    }

    /// The format of the records.
    pub fn format(&self) -> Format
        ensures { result ≡ self.now.format }
    {
        self.format
    }

    /// The number of its commit, at least 1.
    pub fn number(&self) -> u64
        ensures number { result ≡ self.now.number }
        ensures first { 1 ≤ result }
    {
        self.number
    }

    /// How many pages the device has.
    pub fn pages(&self) -> u32
        ensures { result ≡ self.now.pages }
    {
        self.pages
    }

    /// The physical pages of its map pages, 1 to 64.
    pub fn maps(&self) -> &[u32]
        ensures maps { result.now ≡ self.now.maps }
        ensures some { 1 ≤ length result.now }
        ensures most { length result.now ≤ MAX_MAP_PAGES }
    {
        &self.maps[..self.count]
    }

    /// Its root sector: 0 for an even number, 1 for an odd one.
    pub fn sector(&self) -> u32
        ensures home { result ≡ home self.now.number }
        ensures stands { IsRootOf result self.now }
    {
        (self.number % 2) as u32
    }

    /// The 512 bytes of its sector. What is written is read back from there.
    pub fn bytes(&self) -> [u8; SECTOR_SIZE]
        ensures spelled { result ≡ root_bytes self.now }
        ensures read { root_at (home self.now.number) result ≡ Found self.now }
    {
        let mut bytes = magic_then_zeros();
        put_numbers(&mut bytes, 8, &[self.format.number(), self.pages]);
        put_u64(&mut bytes, 16, self.number);
        put_numbers(&mut bytes, 24, &[self.count as u32]);
        put_numbers(&mut bytes, 28, &self.maps[..self.count]);
        bytes
    }
}
