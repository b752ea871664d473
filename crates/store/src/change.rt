//! A change of a map at one key.
ghost use Rattle.std.specs.Prelude.{◌≡◌, ◌≤◌, ◌+◌, None, Some, IfOk, MatchOption, is_some, length, take, drop, vec_len};
ghost use Rattle.store.specs.Records.{IsKeySize};

use crate::MAX_KEY_LENGTH;
use sql_types::try_copy::TryCopy;
use std::alloc::{AllocError, Global};
use std::marker::Model;

/// A key and its value afterwards, or none where the key is removed, in one allocation. Contracts
/// see it as the pair of the two.
#[derive(Drop)]
pub struct Change {
    // The key, and behind it the value, where one is put.
    bytes: Vec<u8>,
    key_length: u16,
    is_put: bool,
}

impl Model for Change {
    ghost use Rattle.std.specs.Prelude.{◌≤◌, List, ℕ, Option, take, vec_len};
    ghost use Rattle.store.specs.Batch.{value_behind};

    ghost Value = { List ℕ × Option (List ℕ) };

    ghost view = { λ c. (take c.key_length c.bytes.items, value_behind c.is_put c.key_length c.bytes.items) };

    ghost invariant = { λ c. c.key_length ≤ vec_len c.bytes };
}

impl Change {
    /// The put of a value at a key.
    pub(crate) fn put(alloc: Global, key: &[u8], value: &[u8]) -> Result<Change, AllocError>
        requires { length key.now ≤ MAX_KEY_LENGTH }
        ensures { IfOk result (λ change. change ≡ (key.now, Some value.now)) }
    {
        let size = key.len().saturating_add(value.len());
        let mut bytes = Vec::with_capacity(alloc, size)?;
        bytes.extend_from_slice(key)?;
        bytes.extend_from_slice(value)?;
        Ok(Change::put_of(bytes, key.len()))
    }

    /// The put of a record: a key of this length, and behind it the value, in their memory.
    pub(crate) fn put_of(bytes: Vec<u8>, key_length: usize) -> Change
        requires short { key_length ≤ MAX_KEY_LENGTH }
        requires inside { key_length ≤ vec_len bytes }
        ensures { result ≡ (take key_length bytes.items, Some (drop key_length bytes.items)) }
    {
        Change {
            bytes,
            key_length: key_length as u16,
            is_put: true,
        }
    }

    /// The removal of a key.
    pub(crate) fn removal(alloc: Global, key: &[u8]) -> Result<Change, AllocError>
        requires { length key.now ≤ MAX_KEY_LENGTH }
        ensures { IfOk result (λ change. change ≡ (key.now, None)) }
    {
        let key_length = key.len() as u16;
        let bytes = Vec::from_slice(alloc, key)?;
        Ok(Change {
            bytes,
            key_length,
            is_put: false,
        })
    }

    /// The removal of the key of this change.
    pub(crate) fn to_removal(&self, alloc: Global) -> Result<Change, AllocError>
        ensures { IfOk result (λ change. change ≡ (self.now.0, None)) }
    {
        let bytes = Vec::from_slice(alloc, self.key())?;
        Ok(Change {
            bytes,
            key_length: self.key_length,
            is_put: false,
        })
    }

    /// The key, lent.
    pub fn key(&self) -> &[u8]
        ensures { result.now ≡ self.now.0 }
    {
        &self.bytes[..self.key_length as usize]
    }

    /// The value that is put, lent, or `None` where the key is removed.
    pub fn value(&self) -> Option<&[u8]>
        ensures { MatchOption result (self.now.1 ≡ None) (λ value. self.now.1 ≡ Some value.now) }
    {
        if self.is_put {
            Some(&self.bytes[self.key_length as usize..])
        } else {
            None
        }
    }

    /// Whether a value is put.
    pub fn is_put(&self) -> bool
        ensures { result ≡ is_some self.now.1 }
    {
        self.is_put
    }
}

impl TryCopy for Change {
    fn try_copy(&self, alloc: Global) -> Result<Change, AllocError> {
        let bytes = Vec::from_slice(alloc, &self.bytes)?;
        Ok(Change {
            bytes,
            key_length: self.key_length,
            is_put: self.is_put,
        })
    }
}
