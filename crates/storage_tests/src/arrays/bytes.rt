//! Bytes of pages, and how bytes are printed.

use crate::transcript::Transcript;
use sector_device::SECTOR_SIZE;
use storage_sizes::PAGE_SIZE;

/// The page of a tag: each sector begins with its index in the page, and is full of the tag.
pub fn filled(tag: u8) -> [u8; PAGE_SIZE] {
    let mut bytes = [tag; PAGE_SIZE];
    for sector in 0..8 {
        bytes[SECTOR_SIZE * sector] = sector as u8;
    }
    bytes
}

/// The tag of a page, if it is the page of a tag.
pub fn tag_of(bytes: &[u8; PAGE_SIZE]) -> Option<u8> {
    let tag = bytes[1];
    if *bytes == filled(tag) {
        Some(tag)
    } else {
        None
    }
}

/// Tells each four bytes that are not all zero, after their place.
pub fn tell_bytes(out: &mut Transcript, bytes: &[u8]) {
    let mut at = 0u64;
    for four in bytes.chunks(4) {
        let number = number_of(four);
        if number != 0 {
            out.put(" ");
            out.put_number(at);
            out.put(":");
            out.put_hex(u64::from(number));
        }
        at = at.wrapping_add(4);
    }
}

/// The number that four bytes spell.
fn number_of(four: &[u8]) -> u32 {
    match four {
        [first, second, third, fourth] => u32::from_be_bytes([*first, *second, *third, *fourth]),
        _ => 0,
    }
}
