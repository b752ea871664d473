//! What words do to an array of pages.

use crate::arrays::bytes::{filled, tag_of};
use crate::arrays::devices::count_or_fail;
use crate::arrays::page_calls::{commit, commit_anew, free_page, is_used, new_page, read, write};
use crate::arrays::words::{Word, byte_of};
use crate::transcript::Transcript;
use cow_pages::{CommitFault, CowPages, Format};
use pages::{PageFault, Pages};
use sector_device::MemDevice;
use storage_sizes::PAGE_SIZE;

/// How many pages are looked at where all are read.
const LOOKED_AT: u32 = 2_048;

/// Does a word to an array on a device, and tells what came of it.
pub fn do_word(pages: &mut CowPages<MemDevice>, word: Word<'_>, out: &mut Transcript) {
    let format = format_of(pages, word.first);
    match word.name {
        "commit" => tell_commit(out, commit(pages, format)),
        "anew" => tell_commit(out, commit_anew(pages, format)),
        "abandon" => pages.abandon(),
        "number" => out.put_after_blank(pages.number()),
        "version" => out.put_after_blank(u64::from(pages.format().number())),
        "read" | "write" | "new" | "free" | "fill" | "all" => do_page_word(pages, word, out),
        _ => count_or_fail(pages.device(), word, out),
    }
}

/// The format of this number, or that of the array.
fn format_of(pages: &CowPages<MemDevice>, number: u32) -> Format {
    match number {
        1 => Format::One,
        2 => Format::Two,
        _ => pages.format(),
    }
}

/// Does a word to the pages of an array, and tells what came of it.
pub fn do_page_word<P: Pages>(pages: &mut P, word: Word<'_>, out: &mut Transcript) {
    match word.name {
        "read" => tell_tag(out, read_tag(pages, word.first)),
        "write" => tell_done(out, write(pages, word.first, byte_of(word.second))),
        "new" => tell_number(out, new_page(pages, &filled(byte_of(word.first)))),
        "free" => tell_done(out, free_page(pages, word.first)),
        "fill" => tell_number(out, fill(pages, byte_of(word.first))),
        "all" => tell_all(pages, out),
        _ => out.put(" ?"),
    }
}

/// The tag of a page, if it has one.
fn read_tag<P: Pages>(pages: &mut P, page: u32) -> Result<Option<u8>, PageFault> {
    let mut bytes = [0; PAGE_SIZE];
    read(pages, page, &mut bytes)?;
    Ok(tag_of(&bytes))
}

/// Takes new pages of a tag until none is left. How many there were.
fn fill<P: Pages>(pages: &mut P, tag: u8) -> Result<u32, PageFault> {
    let bytes = filled(tag);
    for count in 0..u32::MAX {
        match new_page(pages, &bytes) {
            Ok(_) => {}
            Err(PageFault::Full) => return Ok(count),
            Err(fault) => return Err(fault),
        }
    }
    Ok(u32::MAX)
}

/// Tells the pages that are in use, and the tag of each.
fn tell_all<P: Pages>(pages: &mut P, out: &mut Transcript) {
    for page in 0..LOOKED_AT {
        if is_used(pages, page) {
            out.put_after_blank(u64::from(page));
            out.put("=");
            tell_tag(out, read_tag(pages, page));
        }
    }
}

/// Tells a tag, or why there is none.
fn tell_tag(out: &mut Transcript, answer: Result<Option<u8>, PageFault>) {
    match answer {
        Ok(Some(tag)) => out.put_after_blank(u64::from(tag)),
        Ok(None) => out.put(" other"),
        Err(fault) => out.put(word_of(fault)),
    }
}

/// Tells a number, or why there is none.
fn tell_number(out: &mut Transcript, answer: Result<u32, PageFault>) {
    match answer {
        Ok(number) => out.put_after_blank(u64::from(number)),
        Err(fault) => out.put(word_of(fault)),
    }
}

/// Tells whether a call succeeded, or why not.
fn tell_done(out: &mut Transcript, answer: Result<(), PageFault>) {
    match answer {
        Ok(()) => out.put(" ."),
        Err(fault) => out.put(word_of(fault)),
    }
}

/// The word of a fault.
fn word_of(fault: PageFault) -> &'static str {
    match fault {
        PageFault::Full => " F",
        PageFault::Memory => " memory",
        PageFault::Device => " D",
        PageFault::Malformed => " M",
    }
}

/// Tells whether a commit succeeded, or why not.
fn tell_commit(out: &mut Transcript, answer: Result<(), CommitFault>) {
    out.put(match answer {
        Ok(()) => " .",
        Err(CommitFault::Full) => " F",
        Err(CommitFault::Device) => " D",
        Err(_) => " M",
    })
}
