//! Tests of the storage: real files and journals (`checks`), altered images of devices (`images`), arrays of pages on devices that
//! fail and stop (`arrays`), trees, stores and caches (`stores`), and stores with a journal that stop and fail (`journals`).
//!
//! A line `part NAME` of standard input begins one of these parts, whose lines follow; what each of them means is said at the head
//! of the part. The word `all` on the command line concerns the images and the journals. `second_program.py` reads the same lines and writes the
//! same answers.
#![tactic(auto)]

mod arrays;
mod checks;
mod images;
mod journals;
mod sectors;
mod stores;
mod transcript;

use crate::images::AlteredImages;
use crate::stores::Stores;
use crate::transcript::Transcript;
use anyhow::{Result, bail};
use std::alloc::Global;
use std::env;
use std::io::{BufWriter, Write};

/// What the lines are about.
#[derive(Clone, Copy)]
enum StoragePart {
    Checks,
    Images,
    Arrays,
    Journals,
    Stores,
}

/// The parts, each with what its lines left there.
#[derive(Drop)]
struct StorageTests {
    part: StoragePart,
    tries_all: bool,
    images: AlteredImages,
    script: String,
    stores: Stores,
}

fn main(rt: HostRuntime) -> Result<()> {
    let tries_all = tries_all(&rt)?;
    let mut tests = StorageTests::new(rt.alloc(), tries_all)?;
    follow(&rt, &mut tests)
}

/// Whether the first word on the command line is `all`.
fn tries_all(rt: &HostRuntime) -> Result<bool> {
    match env::args(rt)?.nth(1) {
        Some(word) => Ok(word.as_str() == "all"),
        None => Ok(false),
    }
}

/// Does what the lines of standard input say, and writes what came of them to standard output.
fn follow(rt: &HostRuntime, tests: &mut StorageTests) -> Result<()> {
    let mut out = BufWriter::new(rt.alloc(), rt.stdout())?;
    follow_lines(rt, tests, &mut out)
}

/// Does what the lines of standard input say, and writes what came of them. At their end the part that is there ends.
fn follow_lines<W: Write>(rt: &HostRuntime, tests: &mut StorageTests, out: &mut W) -> Result<()> {
    for line in rt.lines(rt.alloc()) {
        follow_line(rt, tests, line?.as_str(), out)?;
    }
    follow_line(rt, tests, "part checks", out)?;
    Ok(out.flush()?)
}

/// Does what a line says, and writes what came of it.
fn follow_line<W: Write>(
    rt: &HostRuntime,
    tests: &mut StorageTests,
    line: &str,
    out: &mut W,
) -> Result<()> {
    let mut told = Transcript::new(rt.alloc());
    tests.follow(rt, line, &mut told)?;
    out.write_all(told.finish()?.as_bytes())?;
    Ok(())
}

impl StorageTests {
    /// The part of checks, and nothing that lines left.
    fn new(alloc: Global, tries_all: bool) -> Result<StorageTests> {
        let stores = Stores::new(alloc)?;
        Ok(StorageTests {
            part: StoragePart::Checks,
            tries_all,
            images: AlteredImages::new(alloc, tries_all),
            script: String::new(alloc),
            stores,
        })
    }

    /// Begins a part, or does what a line of the one that is there says. Tells what came of it.
    fn follow(&mut self, rt: &HostRuntime, line: &str, out: &mut Transcript) -> Result<()> {
        let alloc = rt.alloc();
        match (line.strip_prefix("part "), self.part) {
            (Some(name), _) => self.begin(name, out),
            (None, StoragePart::Checks) => Ok(checks::check(rt, line, out)),
            (None, StoragePart::Images) => self.images.follow(line, out),
            (None, StoragePart::Arrays) => Ok(arrays::follow(alloc, &mut self.script, line, out)?),
            (None, StoragePart::Journals) => journals::follow(alloc, self.tries_all, line, out),
            (None, StoragePart::Stores) => self.stores.follow(line, out),
        }
    }

    /// Ends the part that is there, and begins the one of this name.
    fn begin(&mut self, name: &str, out: &mut Transcript) -> Result<()> {
        self.stores.end(out)?;
        match part_of(name) {
            Some(part) => self.part = part,
            None => bail!("there is no such part"),
        }
        Ok(())
    }
}

/// The part of this name.
fn part_of(name: &str) -> Option<StoragePart> {
    match name {
        "checks" => Some(StoragePart::Checks),
        "images" => Some(StoragePart::Images),
        "arrays" => Some(StoragePart::Arrays),
        "journals" => Some(StoragePart::Journals),
        "stores" => Some(StoragePart::Stores),
        _ => None,
    }
}
