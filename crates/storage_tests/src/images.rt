//! Opens images of three databases with one change each, and tells what the store says of each image.
//!
//! A line has an image, or a part of one, or a change; a line that begins with another word is passed over.
//! `database EVERY NAME` begins an empty image. `put TIMES DIGITS` appends the bytes of hexadecimal digits to it, so many times.
//! `byte AT VALUE NAME` tries the image with another byte, and `length LENGTH NAME` tries it cut, or grown by zeros; a line of
//! each tells what came of it. `bytes START COUNT` tries three other values of each of so many bytes, of which one in EVERY is
//! taken, the same ones in each run, or all of them with the word `all` on the command line. `sectors` tries zeros in the place
//! of each sector that has another byte. Of both kinds of changes a line has the outcomes one after the other: `.` for Damaged,
//! `S` for WrongSize, `N` for NotADatabase, `L` for NewerFormat, `F` where the device failed or memory was refused, and a digest of all records where
//! the image opened. `sum NAME` tells how many images of the database came to which outcome.
//!
//! What opening refuses is proved of each device, and so is that the cursor meets the records of the tree; here both stand
//! beside `images.py`, a slow second reader, which follows the description of the device (docs/formats.md), shares nothing with
//! the code and prints the same lines. What a record says of roles and tables is not read here.

mod answer;
mod change;
mod outcomes;

use crate::images::answer::{ImageAnswer, answer_to, tell_line, tell_short};
use crate::images::change::ImageChange;
use crate::images::outcomes::OutcomeCounts;
use crate::transcript::Transcript;
use anyhow::Result;
use sector_device::SECTOR_SIZE;
use std::alloc::{AllocError, Global};

/// Moves which of the changes of bytes are tried where not all of them are.
const SEED: usize = 20_160_601;

/// The images of one database that are tried.
#[derive(Drop)]
pub struct AlteredImages {
    alloc: Global,
    tries_all: bool,
    image: Vec<u8>,
    /// Of the changes of bytes one in so many is tried.
    every: usize,
    tally: OutcomeCounts,
}

impl AlteredImages {
    /// An empty image, of which none was tried.
    pub fn new(alloc: Global, tries_all: bool) -> AlteredImages {
        AlteredImages {
            alloc,
            tries_all,
            image: Vec::new(alloc),
            every: 1,
            tally: OutcomeCounts::new(),
        }
    }

    /// Does what a line says, and tells what came of it.
    pub fn follow(&mut self, line: &str, out: &mut Transcript) -> Result<()> {
        let (word, rest) = line.split_once(' ').unwrap_or((line, ""));
        match word {
            "database" => self.begin(rest, out),
            "put" => self.put(rest)?,
            "byte" => self.try_byte(rest, out),
            "length" => self.try_length(rest, out),
            "bytes" => self.try_bytes(rest, out),
            "sectors" => self.try_sectors(out),
            "sum" => self.tally.tell(rest, out),
            _ => {}
        }
        Ok(())
    }

    /// Begins an empty image.
    fn begin(&mut self, rest: &str, out: &mut Transcript) {
        let (every, name) = number_in(rest);
        self.every = if self.tries_all { 1 } else { every };
        self.image.clear();
        self.tally = OutcomeCounts::new();
        out.put_all(&[name, "\n"]);
    }

    /// Appends bytes to the image.
    fn put(&mut self, rest: &str) -> Result<()> {
        let (times, digits) = number_in(rest);
        let bytes = hex::decode(self.alloc, digits)?;
        self.put_times(times, bytes.as_slice())?;
        Ok(())
    }

    /// Appends bytes to the image so many times.
    fn put_times(&mut self, times: usize, bytes: &[u8]) -> Result<(), AllocError> {
        for _ in 0..times {
            self.image.extend_from_slice(bytes)?;
        }
        Ok(())
    }

    /// Tries the image with another byte.
    fn try_byte(&mut self, rest: &str, out: &mut Transcript) {
        let (at, rest) = number_in(rest);
        let (value, name) = number_in(rest);
        let value = u8::try_from(value).unwrap_or(0);
        tell_line(out, name, &self.answer_to(ImageChange::Byte(at, value)));
    }

    /// Tries the image of another length.
    fn try_length(&mut self, rest: &str, out: &mut Transcript) {
        let (length, name) = number_in(rest);
        tell_line(out, name, &self.answer_to(ImageChange::Length(length)));
    }

    /// What the store says of the image with a change.
    fn answer_to(&mut self, change: ImageChange) -> ImageAnswer {
        let answer = answer_to(self.alloc, self.image.as_slice(), change);
        self.tally.count(&answer);
        answer
    }

    /// Tries other values of each byte of a span.
    fn try_bytes(&mut self, rest: &str, out: &mut Transcript) {
        let (start, rest) = number_in(rest);
        let (count, _) = number_in(rest);
        out.put("bytes from ");
        out.put_number(start as u64);
        out.put(": ");
        for at in start..start.saturating_add(count) {
            self.try_values(at, out);
        }
        out.put("\n");
    }

    /// Tries those other values of a byte that are to be tried.
    fn try_values(&mut self, at: usize, out: &mut Transcript) {
        let byte = self.image.get(at).copied().unwrap_or(0);
        for (turn, value) in other_values(byte).iter().enumerate() {
            if self.is_tried(at, turn) {
                tell_short(out, &self.answer_to(ImageChange::Byte(at, *value)));
            }
        }
    }

    /// Whether a change of a byte is to be tried.
    fn is_tried(&self, at: usize, turn: usize) -> bool {
        let number = at.wrapping_mul(3).wrapping_add(turn).wrapping_add(SEED);
        self.every == 0 || number % self.every == 0
    }

    /// Tries zeros in the place of each sector that has another byte.
    fn try_sectors(&mut self, out: &mut Transcript) {
        out.put("sectors, in turn: ");
        for sector in 0..self.image.len() / SECTOR_SIZE {
            if !self.is_zero(sector) {
                tell_short(out, &self.answer_to(ImageChange::Sector(sector)));
            }
        }
        out.put("\n");
    }

    /// Whether all bytes of a sector are zero.
    fn is_zero(&self, sector: usize) -> bool {
        match self.image.chunks(SECTOR_SIZE).nth(sector) {
            Some(bytes) => bytes == [0; SECTOR_SIZE].as_slice(),
            None => true,
        }
    }
}

/// Three values other than a byte: the next, the one with another first bit, and zero, or the one before where zero is
/// among these.
fn other_values(byte: u8) -> [u8; 3] {
    let third = match byte {
        0 | 128 | 255 => byte.wrapping_sub(1),
        _ => 0,
    };
    [byte.wrapping_add(1), byte ^ 128, third]
}

/// The number that a text begins with, and what stands behind it.
fn number_in(text: &str) -> (usize, &str) {
    let (number, rest) = text.split_once(' ').unwrap_or((text, ""));
    (number.parse().unwrap_or(0), rest)
}
