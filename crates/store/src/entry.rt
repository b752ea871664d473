//! Entries of a map: copied, or lent by the map.
ghost use Rattle.std.specs.Prelude.{◌≡◌, [], OnOk};

use std::alloc::{AllocError, Global};
use std::marker::Model;

/// A key and its value, which contracts see as the pair of their bytes. A read fills one, which
/// keeps its memory for the next read.
#[derive(Drop)]
pub struct Entry {
    key: Vec<u8>,
    value: Vec<u8>,
}

impl Model for Entry {
    ghost use Rattle.std.specs.Prelude.{List, ℕ};

    ghost Value = { List ℕ × List ℕ };

    ghost view = { λ e. (e.key.items, e.value.items) };
}

impl Entry {
    /// An empty key and an empty value, which have allocated nothing yet.
    pub fn new(alloc: Global) -> Entry
        ensures { result ≡ ([], []) }
    {
        Entry {
            key: Vec::new(alloc),
            value: Vec::new(alloc),
        }
    }

    /// The entry of this key and this value, in their memory.
    pub fn from_parts(key: Vec<u8>, value: Vec<u8>) -> Entry
        ensures { result ≡ (key.items, value.items) }
    {
        Entry { key, value }
    }

    /// The key, lent.
    pub fn key(&self) -> &[u8]
        ensures { result.now ≡ self.now.0 }
    {
        self.key.as_slice()
    }

    /// The value, lent.
    pub fn value(&self) -> &[u8]
        ensures { result.now ≡ self.now.1 }
    {
        self.value.as_slice()
    }

    /// Copies this key and this value. The only error is that an allocation failed, and then
    /// nothing is said of the entry.
    pub fn set(&mut self, key: &[u8], value: &[u8]) -> Result<(), AllocError>
        ensures { OnOk result (self.new ≡ (key.now, value.now)) }
    {
        self.key.clear();
        self.value.clear();
        self.key.extend_from_slice(key)?;
        self.value.extend_from_slice(value)
    }
}

/// A key and its value, where a map has them. Contracts see the pair of their bytes.
#[derive(Drop)]
pub struct EntryRef<'a> {
    pub key: &'a [u8],
    pub value: &'a [u8],
}

impl<'a> Model for EntryRef<'a> {
    ghost use Rattle.std.specs.Prelude.{List, ℕ};

    ghost Value = { List ℕ × List ℕ };

    ghost view = { λ e. (e.key.now, e.value.now) };
}
