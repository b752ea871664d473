//! The mark of a copy that is not whole.
ghost use Rattle.std.specs.Prelude.{◌≡◌, IfOk};
ghost use Rattle.copies.specs.RecordCopies.{mark};

use std::alloc::{AllocError, Global};
use store::Entry;

/// The key of the mark.
pub(crate) const MARK: [u8; 1] = [0];

/// Where the records begin: behind the mark.
pub(crate) const FIRST: [u8; 2] = [0, 0];

/// The record that a copy has until it is whole, with which its store is made.
pub fn mark_of_a_copy(alloc: Global) -> Result<Entry, AllocError>
    ensures { IfOk result (λ entry. entry ≡ mark) }
{
    let key = Vec::from_slice(alloc, &MARK)?;
    Ok(Entry::from_parts(key, Vec::new(alloc)))
}
