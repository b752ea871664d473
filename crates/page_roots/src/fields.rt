//! The fields of a root at their places in its sector.
ghost use Rattle.std.specs.Prelude.{◌≡◌, ◌+◌, ◌*◌, ◌<◌, ◌≤◌, ◌++◌, length, take, drop, replicate};
ghost use Rattle.byteorder.specs.Endian.{big_bytes, big_number};
ghost use Rattle.page_roots.specs.Numbers.{bytes_of_numbers, numbers_in};
ghost use Rattle.page_roots.specs.Root.{magic};

use byteorder::{BigEndian, ByteOrder};
use storage_sizes::SECTOR_SIZE;

/// The most map pages of a root.
pub const MAX_MAP_PAGES: usize = 64;

// What a root sector begins with.
pub(crate) const MAGIC: &[u8; 8] = b"GUARDDB1";

// The magic, and zeros.
pub(crate) fn magic_then_zeros() -> [u8; SECTOR_SIZE]
    ensures { result ≡ magic ++ replicate 504 0 }
{
    let mut bytes = [0; SECTOR_SIZE];
    bytes[..8].copy_from_slice(MAGIC);
    bytes
}

// The number of four bytes at this place.
pub(crate) fn u32_at(bytes: &[u8; SECTOR_SIZE], place: usize) -> u32
    requires { place + 4 ≤ 512 }
    ensures { result ≡ big_number 4 (drop place bytes.now) }
{
    BigEndian::read_u32(&bytes[place..])
}

// The number of eight bytes at this place.
pub(crate) fn u64_at(bytes: &[u8; SECTOR_SIZE], place: usize) -> u64
    requires { place + 8 ≤ 512 }
    ensures { result ≡ big_number 8 (drop place bytes.now) }
{
    BigEndian::read_u64(&bytes[place..])
}

// Reads the bytes, all of them, as numbers of four bytes each.
pub(crate) fn read_numbers(bytes: &[u8], numbers: &mut [u32])
    requires { length bytes.now ≡ 4 * length numbers.old }
    ensures { numbers.new ≡ numbers_in (length numbers.old) bytes.now }
{
    BigEndian::read_u32_into(bytes, numbers);
}

// Reads so many numbers of four bytes each from this place on.
pub(crate) fn read_numbers_at(
    bytes: &[u8; SECTOR_SIZE],
    place: usize,
    count: usize,
    numbers: &mut [u32; MAX_MAP_PAGES],
)
    requires most { count ≤ 64 }
    requires inside { place + 4 * count ≤ 512 }
    ensures { take count numbers.new ≡ numbers_in count (drop place bytes.now) }
{
    read_numbers(&bytes[place..place + 4 * count], &mut numbers[..count]);
}

// Writes a number of eight bytes at this place.
pub(crate) fn put_u64(bytes: &mut [u8; SECTOR_SIZE], place: usize, number: u64)
    requires { place + 8 ≤ 512 }
    ensures { bytes.new
        ≡ take place bytes.old ++ (big_bytes 8 number ++ drop (place + 8) bytes.old) }
{
    BigEndian::write_u64(&mut bytes[place..place + 8], number);
}

// Writes numbers of four bytes each from this place on.
pub(crate) fn put_numbers(bytes: &mut [u8; SECTOR_SIZE], place: usize, numbers: &[u32])
    requires { place + 4 * length numbers.now ≤ 512 }
    ensures { bytes.new ≡ take place bytes.old
        ++ (bytes_of_numbers numbers.now ++ drop (place + 4 * length numbers.now) bytes.old) }
{
    BigEndian::write_u32_into(numbers, &mut bytes[place..place + 4 * numbers.len()]);
}
