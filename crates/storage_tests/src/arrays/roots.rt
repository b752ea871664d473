//! The bytes of roots and of map pages.

use crate::arrays::bytes::tell_bytes;
use crate::arrays::words::{Word, number_in};
use crate::transcript::Transcript;
use page_roots::{ENTRIES_PER_MAP_PAGE, Format, MAX_MAP_PAGES, Root, write_map_page};
use std::alloc::{AllocError, Global};

/// Tells the bytes of the root of a number and of so many pages, with the map pages that words name.
pub fn tell_root(
    alloc: Global,
    word: Word<'_>,
    words: &str,
    out: &mut Transcript,
) -> Result<(), AllocError> {
    let maps = maps_in(alloc, words)?;
    match root_of(word.first, word.second, maps.as_slice()) {
        Some(root) => tell_bytes(out, &root.bytes()),
        None => out.put(" none"),
    }
    Ok(())
}

/// The map pages that words name.
fn maps_in(alloc: Global, words: &str) -> Result<Vec<u32>, AllocError> {
    let mut maps = Vec::new(alloc);
    for word in words.split(' ') {
        let (map, _) = number_in(word);
        maps.push(map)?;
    }
    Ok(maps)
}

/// The root of a number, on a device of so many pages, with these map pages.
pub fn root_of(number: u32, pages: u32, maps: &[u32]) -> Option<Root> {
    if number == 0 || maps.is_empty() || maps.len() > MAX_MAP_PAGES {
        return None;
    }
    Some(Root::new(Format::Two, u64::from(number), pages, maps))
}

/// Tells the bytes of a map page with the entries that words name.
pub fn tell_map(words: &str, out: &mut Transcript) {
    tell_bytes(out, &write_map_page(&entries_of(words)))
}

/// The entries that words name, after their places.
fn entries_of(words: &str) -> [u32; ENTRIES_PER_MAP_PAGE] {
    let mut entries = [0; ENTRIES_PER_MAP_PAGE];
    for text in words.split(' ') {
        let (at, rest) = number_in(text);
        let (entry, _) = number_in(rest);
        if let Some(place) = entries.get_mut(at as usize) {
            *place = entry;
        }
    }
    entries
}
