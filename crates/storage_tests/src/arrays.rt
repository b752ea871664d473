//! Does what lines of words say to arrays of pages on a device that fails, stops and starts again, and tells what came of each word.
//!
//! A line is a case by itself; one that begins with `-- ` is printed as it is. A word may have numbers behind it,
//! each after a colon. The first word of a line tells what stands there:
//!
//! - `device:PAGES`: a new device in memory, of so many pages
//! - `memory`: pages in memory, without a device
//! - `root:NUMBER:PAGES MAP..`, `map AT:ENTRY..`: the bytes of a root with these map pages, and of a map page with these entries
//! - `script`: keeps the words behind it for later lines, where the word `script` stands for them
//!
//! On a device: `format:TAG` makes an array of one page there, in format 2, and `open` opens it. `put:SECTOR:BYTE` fills a sector,
//! `byte:SECTOR:AT:BYTE` changes one byte of it, `root:NUMBER` writes a root to its sector, `sector:SECTOR` reads one, and `sync` syncs.
//! After `stop:WRITES`, `fail:CALLS` and `late:CALLS` the device stops after so many writes, or fails one call after so many, which does
//! nothing, or which is carried out all the same; `failures` tells how many calls have failed, and `reads` how many sectors were
//! read. A stop leaves, of each sector that was written since the last sync, the old or the new content, and the device starts again: `old`, `new`,
//! `even`, `odd`, `only:SECTOR`, `but:SECTOR` and `drawn:SEED` tell which sectors are new.
//!
//! On an array: `read:PAGE`, `write:PAGE:TAG`, `new:TAG`, `free:PAGE`, `abandon`; `commit` keeps the format that is there, `commit:1` and
//! `commit:2` commit in that format, and `anew`, `anew:1` and `anew:2` do so also where nothing has changed; `fill:TAG` takes new pages
//! until none is left, `all` reads all pages that are in use, `number` is that of the last commit, `version` that of the format, and
//! `close` leaves the device. A page is full of its tag, but for the first byte of each sector, which has its index.
//!
//! What is printed: `.` where a call succeeds, and `D` where the device fails, `F` where no page is left, `M` where a page is not in
//! use or was written as something else; numbers; of bytes each four that are not all zero, after their place. What the calls
//! answer, and what a stop leaves of an array, is proved; here both stand beside `arrays.py`, another program, which makes the lines and
//! writes the same answers from what the documents say of commits (docs/map.md), of the bytes (docs/formats.md) and of such a device.

mod bytes;
mod calls;
mod devices;
pub mod page_calls;
mod restarts;
mod roots;
mod words;

use crate::arrays::words::{Word, word_of};
use crate::transcript::Transcript;
use cow_pages::{CowPages, OpenFault};
use pages::MemPages;
use sector_device::{MAX_MEMORY_PAGES, MemDevice};
use std::alloc::{AllocError, Global};

/// Does what a line says, and tells what came of it on a line.
pub fn follow(
    alloc: Global,
    script: &mut String,
    line: &str,
    out: &mut Transcript,
) -> Result<(), AllocError> {
    let (first, rest) = line.split_once(' ').unwrap_or((line, ""));
    let word = word_of(first);
    match word.name {
        "--" => out.put(line),
        "root" => roots::tell_root(alloc, word, rest, out)?,
        "map" => roots::tell_map(rest, out),
        "script" => {
            script.clear();
            script.push_str(rest)?;
        }
        _ => follow_case(alloc, word, script.as_str(), rest, out)?,
    }
    out.put("\n");
    Ok(())
}

/// Does what words say to what the first word of a line begins.
fn follow_case(
    alloc: Global,
    first: Word<'_>,
    script: &str,
    rest: &str,
    out: &mut Transcript,
) -> Result<(), AllocError> {
    let words = words_of(alloc, script, rest)?;
    if first.name == "device" && first.first <= MAX_MEMORY_PAGES {
        let device = MemDevice::new(alloc, first.first)?;
        run_on_device(alloc, device, words.as_slice(), out);
    } else {
        run_in_memory(alloc, words.as_slice(), out);
    }
    Ok(())
}

/// The words of a line, of which the word `script` stands for those that were kept.
fn words_of<'a>(
    alloc: Global,
    script: &'a str,
    rest: &'a str,
) -> Result<Vec<Word<'a>>, AllocError> {
    let mut words = Vec::new(alloc);
    for text in rest.split(' ') {
        let meant = if text == "script" { script } else { text };
        push_words(meant, &mut words)?;
    }
    Ok(words)
}

/// Adds the words of a text.
fn push_words<'a>(text: &'a str, words: &mut Vec<Word<'a>>) -> Result<(), AllocError> {
    for word in text.split(' ') {
        words.push(word_of(word))?;
    }
    Ok(())
}

/// Does what words say to pages in memory.
fn run_in_memory(alloc: Global, words: &[Word<'_>], out: &mut Transcript) {
    let mut memory = MemPages::new(alloc);
    for word in words {
        match word.name {
            "close" => {}
            _ => calls::do_page_word(&mut memory, *word, out),
        }
    }
}

/// Does what words say to a device, and to the arrays that they open on it.
fn run_on_device(alloc: Global, device: MemDevice, words: &[Word<'_>], out: &mut Transcript) {
    let mut device = device;
    let mut next = 0;
    for at in 0..words.len() {
        if at == next {
            let (left, behind) = run_word(alloc, device, words, at, out);
            device = left;
            next = behind;
        }
    }
}

/// Does the word at an index to a device, or opens the array there and does the words up to its end. Hands the device back, and
/// tells at which index the words go on.
fn run_word(
    alloc: Global,
    device: MemDevice,
    words: &[Word<'_>],
    at: usize,
    out: &mut Transcript,
) -> (MemDevice, usize) {
    let next = at.saturating_add(1);
    let mut device = device;
    match words.get(at) {
        Some(word) if word.name == "open" => return open(alloc, device, words, next, out),
        Some(word) if word.name != "close" => devices::do_word(alloc, &mut device, *word, out),
        _ => {}
    }
    (device, next)
}

/// Opens the array of a device and tells its number, and does the words from an index on up to its end; or tells why there is
/// none. Hands the device back, and tells at which index the words go on.
fn open(
    alloc: Global,
    device: MemDevice,
    words: &[Word<'_>],
    start: usize,
    out: &mut Transcript,
) -> (MemDevice, usize) {
    match page_calls::open(alloc, device) {
        Ok(array) => run_on_array(array, words, start, out),
        Err((device, fault)) => {
            out.put(word_of_fault(fault));
            (device, start)
        }
    }
}

/// Tells the number of an array, and does the words from an index on up to its end. Hands the device back, and tells at which
/// index the words go on.
fn run_on_array(
    array: CowPages<MemDevice>,
    words: &[Word<'_>],
    start: usize,
    out: &mut Transcript,
) -> (MemDevice, usize) {
    let mut array = array;
    out.put_after_blank(array.number());
    let end = run_to_close(&mut array, words, start, out);
    (array.into_device(), end)
}

/// Does the words from an index on to an array, up to one that closes it. Tells the index behind them.
fn run_to_close(
    array: &mut CowPages<MemDevice>,
    words: &[Word<'_>],
    start: usize,
    out: &mut Transcript,
) -> usize {
    for at in start..words.len() {
        match words[at].name {
            "close" => return at.saturating_add(1),
            "open" => out.put(" ?"),
            _ => calls::do_word(array, words[at], out),
        }
    }
    words.len()
}

/// The word of why a device is not opened.
fn word_of_fault(fault: OpenFault) -> &'static str {
    match fault {
        OpenFault::WrongSize => " WrongSize",
        OpenFault::NotADatabase => " NotADatabase",
        OpenFault::NewerFormat(_) => " NewerFormat",
        OpenFault::Damaged => " Damaged",
        OpenFault::Device => " D",
        OpenFault::Memory => " memory",
    }
}
