//! What the program tells.

use std::alloc::{AllocError, Global};
use std::fmt::{Debug, Display};

/// Text that is told bit by bit. What memory is refused for is left out, and `finish` answers that it was refused.
pub struct Transcript {
    text: String,
    is_refused: bool,
}

// Written and not derived: where a value is dropped this is one call, and not its parts one by one.
impl Drop for Transcript {
    fn drop(self) {
        let Transcript {
            text: _,
            is_refused: _,
        } = self;
    }
}

impl Transcript {
    /// Nothing was told.
    pub fn new(alloc: Global) -> Transcript {
        Transcript {
            text: String::new(alloc),
            is_refused: false,
        }
    }

    /// Tells a text.
    pub fn put(&mut self, text: &str) {
        let answer = self.text.push_str(text);
        self.note(answer);
    }

    /// Tells texts, one behind the other.
    pub fn put_all(&mut self, texts: &[&str]) {
        for text in texts {
            self.put(text);
        }
    }

    /// Tells a number.
    pub fn put_number(&mut self, number: u64) {
        let answer = write!(self.text, "{number}");
        self.note(answer);
    }

    /// Tells a number behind a blank.
    pub fn put_after_blank(&mut self, number: u64) {
        self.put(" ");
        self.put_number(number);
    }

    /// Tells a number in eight hexadecimal digits or more.
    pub fn put_hex(&mut self, number: u64) {
        let answer = write!(self.text, "{number:08x}");
        self.note(answer);
    }

    /// Tells bytes in two hexadecimal digits each.
    pub fn put_bytes(&mut self, bytes: &[u8]) {
        for byte in bytes {
            let answer = write!(self.text, "{byte:02x}");
            self.note(answer);
        }
    }

    /// Tells a value as it is written in code.
    pub fn put_debug<T: Debug + Drop>(&mut self, value: T) {
        let answer = write!(self.text, "{value:?}");
        self.note(answer);
    }

    /// Tells a value as it is shown.
    pub fn put_display<T: Display + Drop>(&mut self, value: T) {
        let answer = write!(self.text, "{value}");
        self.note(answer);
    }

    /// Tells what another one tells.
    pub fn put_transcript(&mut self, other: &Transcript) {
        self.put(other.text.as_str());
        self.is_refused = self.is_refused || other.is_refused;
    }

    /// Takes in what was answered: that memory was refused, where it was.
    pub fn note(&mut self, answer: Result<(), AllocError>) {
        self.is_refused = self.is_refused || answer.is_err();
    }

    /// All that was told.
    pub fn finish(&self) -> Result<&str, AllocError> {
        if self.is_refused {
            return Err(AllocError);
        }
        Ok(self.text.as_str())
    }
}
