//! Text that is told piece by piece.

use sql_types::name::Name;
use std::alloc::{AllocError, Global};

/// A text that grows. What adds to it cannot fail: it keeps whether memory was refused, which `text` answers.
pub struct Told {
    text: String,
    was_refused: bool,
}

// Written and not derived: where a value is dropped this is one call, and not its parts one by one.
impl Drop for Told {
    fn drop(self) {
        let Told {
            text: _,
            was_refused: _,
        } = self;
    }
}

impl Told {
    /// No text.
    pub fn new(alloc: Global) -> Told {
        Told {
            text: String::new(alloc),
            was_refused: false,
        }
    }

    /// Adds a text.
    pub fn put(&mut self, text: &str) {
        if self.text.push_str(text).is_err() {
            self.was_refused = true;
        }
    }

    /// Adds texts, one after another.
    pub fn put_all(&mut self, texts: &[&str]) {
        for text in texts {
            self.put(text);
        }
    }

    /// Adds a line of these texts.
    pub fn put_line(&mut self, texts: &[&str]) {
        self.put_all(texts);
        self.put("\n");
    }

    /// Adds a name after what stands before it.
    pub fn put_name(&mut self, before: &str, name: &Name) {
        self.put(before);
        self.put(name.as_str());
    }

    /// Adds a character.
    pub fn put_char(&mut self, letter: char) {
        if self.text.push(letter).is_err() {
            self.was_refused = true;
        }
    }

    /// Adds a number after what stands before it.
    pub fn put_number(&mut self, before: &str, number: i128) {
        if write!(self.text, "{before}{number}").is_err() {
            self.was_refused = true;
        }
    }

    /// Adds bytes, each by two hexadecimal digits.
    pub fn put_bytes(&mut self, bytes: &[u8]) {
        for byte in bytes {
            if write!(self.text, "{byte:02x}").is_err() {
                self.was_refused = true;
            }
        }
    }

    /// Keeps that memory was refused for something that should be here.
    pub fn refuse(&mut self) {
        self.was_refused = true;
    }

    /// Whether nothing was told.
    pub fn is_empty(&self) -> bool {
        self.text.is_empty()
    }

    /// The text, or that memory for some of it was refused.
    pub fn text(&self) -> Result<&str, AllocError> {
        if self.was_refused {
            return Err(AllocError);
        }
        Ok(self.text.as_str())
    }
}
