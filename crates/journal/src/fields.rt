//! The fields of a tag at their places in its sector.
ghost use Rattle.std.specs.Prelude.{◌≡◌, ◌+◌, ◌≤◌, ◌++◌, take, drop, length, replicate};
ghost use Rattle.byteorder.specs.Endian.{big_bytes, big_number};
ghost use Rattle.journal.specs.Sectors.{magic};

use byteorder::{BigEndian, ByteOrder};
use storage_sizes::SECTOR_SIZE;

// What a sector with a part of a record begins with.
pub(crate) const MAGIC: &[u8; 4] = b"GDBJ";

// The magic, and zeros.
pub(crate) fn magic_then_zeros() -> [u8; SECTOR_SIZE]
    ensures { result ≡ magic ++ replicate 508 0 }
{
    let mut bytes = [0; SECTOR_SIZE];
    bytes[..4].copy_from_slice(MAGIC);
    bytes
}

// The number of eight bytes at this place.
pub(crate) fn u64_at(bytes: &[u8; SECTOR_SIZE], place: usize) -> u64
    requires { place + 8 ≤ 512 }
    ensures { result ≡ big_number 8 (drop place bytes.now) }
{
    BigEndian::read_u64(&bytes[place..])
}

// The number of two bytes at this place.
pub(crate) fn u16_at(bytes: &[u8; SECTOR_SIZE], place: usize) -> u16
    requires { place + 2 ≤ 512 }
    ensures { result ≡ big_number 2 (drop place bytes.now) }
{
    BigEndian::read_u16(&bytes[place..])
}

// Writes a number of eight bytes at this place.
pub(crate) fn put_u64(bytes: &mut [u8; SECTOR_SIZE], place: usize, number: u64)
    requires { place + 8 ≤ 512 }
    ensures { bytes.new
        ≡ take place bytes.old ++ (big_bytes 8 number ++ drop (place + 8) bytes.old) }
{
    BigEndian::write_u64(&mut bytes[place..place + 8], number);
}

// Writes a number of two bytes at this place.
pub(crate) fn put_u16(bytes: &mut [u8; SECTOR_SIZE], place: usize, number: u16)
    requires { place + 2 ≤ 512 }
    ensures { bytes.new
        ≡ take place bytes.old ++ (big_bytes 2 number ++ drop (place + 2) bytes.old) }
{
    BigEndian::write_u16(&mut bytes[place..place + 2], number);
}

// Writes a part behind its tag.
pub(crate) fn put_part(bytes: &mut [u8; SECTOR_SIZE], part: &[u8])
    requires { length part.now ≡ 488 }
    ensures { bytes.new ≡ take 24 bytes.old ++ part.now }
{
    bytes[24..].copy_from_slice(part);
}
