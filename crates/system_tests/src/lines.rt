//! Lines that are put together and then printed.

use std::alloc::Global;
use std::fmt::Debug;
use std::io;

/// Lines that are to be printed. Where memory is refused to one, that is told when they are printed.
#[derive(Drop)]
pub struct Lines {
    text: String,
    is_refused: bool,
}

impl Lines {
    /// No lines.
    pub fn new(alloc: Global) -> Lines {
        Lines {
            text: String::new(alloc),
            is_refused: false,
        }
    }

    /// Takes it that memory was refused.
    pub fn refuse(&mut self) {
        self.is_refused = true;
    }

    /// Adds a text.
    pub fn put(&mut self, text: &str) {
        if self.text.push_str(text).is_err() {
            self.is_refused = true;
        }
    }

    /// Adds a number, and a text behind it.
    pub fn put_number(&mut self, number: u64, text: &str) {
        if write!(self.text, "{number}{text}").is_err() {
            self.is_refused = true;
        }
    }

    /// Adds a value as `Debug` has it, and a text behind it.
    pub fn put_debug<T: Debug>(&mut self, value: &T, text: &str) {
        if write!(self.text, "{value:?}{text}").is_err() {
            self.is_refused = true;
        }
    }

    /// Adds numbers, each with the words behind it.
    pub fn put_numbers(&mut self, numbers: &[u64], words: &[&str]) {
        for (number, word) in numbers.iter().zip(words) {
            self.put_number(*number, word);
        }
    }

    /// Prints the lines, and begins anew.
    pub fn print(&mut self, rt: &HostRuntime) -> io::Result<()> {
        if self.is_refused {
            return Err(io::Error::from(io::ErrorKind::OutOfMemory));
        }
        print!(rt; "{}", self.text)?;
        self.text.clear();
        Ok(())
    }
}
