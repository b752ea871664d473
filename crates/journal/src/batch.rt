//! The bytes of a batch, written and read.
ghost use Rattle.std.specs.Prelude.{◌≡◌, ◌<◌, ◌≤◌, ◌+◌, ◌%◌, ◌++◌, ℕ, List, Some, IsTrue, ◌↔◌, length, get_or, replicate, IfOk, OnOk, IfSome};
ghost use Rattle.std.specs.List.{AllByRecursion};
ghost use Rattle.store.specs.Records.{Changes, IsChangeSize, changed};
ghost use Rattle.store.specs.Batch.{all_changes};
ghost use Rattle.journal.specs.Changes.{changes_then, lent, EndsBatch, Spells};

use crate::change::{change_at, push_change};
use crate::sector::PART_SIZE;
use std::alloc::{AllocError, Global};
use store::{Batch, Change, Piece, comes_before};

// ---- writing

fn push_changes(changes: &[Change], out: &mut Vec<u8>) -> Result<(), AllocError>
    requires { AllByRecursion IsChangeSize changes.now }
    ensures { OnOk result ((rest : List ℕ) → out.new.items ++ rest
        ≡ out.old.items ++ changes_then changes.now rest) }
{
    for change in changes {
        push_change(change, out)?;
    }
    Ok(())
}

fn push_pieces(pieces: &[Piece], out: &mut Vec<u8>) -> Result<(), AllocError>
    requires { AllByRecursion IsChangeSize (all_changes pieces.now) }
    ensures { OnOk result ((rest : List ℕ) → out.new.items ++ rest
        ≡ out.old.items ++ changes_then (all_changes pieces.now) rest) }
{
    for piece in pieces {
        push_changes(piece.as_slice(), out)?;
    }
    Ok(())
}

// How many zeros fill so many bytes up to whole parts.
fn zeros_after(count: usize) -> usize
    ensures few { result < 488 }
    ensures whole { (count + result) % 488 ≡ 0 }
{
    let over = count % PART_SIZE;
    if over == 0 {
        return 0;
    }
    PART_SIZE - over
}

fn push_zeros(count: usize, out: &mut Vec<u8>) -> Result<(), AllocError>
    requires { count ≤ 488 }
    ensures { OnOk result (out.new.items ≡ out.old.items ++ replicate count 0) }
{
    out.extend_from_slice(&[0; PART_SIZE][..count])
}

/// The bytes of a batch, in whole parts: its changes, and zeros to the end of the last part.
pub fn batch_bytes(alloc: Global, batch: &Batch) -> Result<Vec<u8>, AllocError>
    ensures { IfOk result (λ bytes. Spells bytes.items batch.now) }
{
    let mut bytes = Vec::new(alloc);
    push_pieces(batch.pieces(), &mut bytes)?;
    let zeros = zeros_after(bytes.len());
    push_zeros(zeros, &mut bytes)?;
    Ok(bytes)
}

// ---- reading

// Whether all bytes are zeros.
fn are_zeros(bytes: &[u8]) -> bool
    ensures { IsTrue result ↔ ((k : ℕ) → k < length bytes.now → get_or bytes.now k 0 ≡ 0) }
{
    for byte in bytes {
        if *byte != 0 {
            return false;
        }
    }
    true
}

// Whether what follows the changes of a batch fills their last part, and no more.
fn ends_batch(bytes: &[u8], rest: &[u8]) -> bool
    ensures { IsTrue result ↔ EndsBatch bytes.now rest.now }
{
    bytes.len() % PART_SIZE == 0 && rest.len() < PART_SIZE && are_zeros(rest)
}

// Puts a value at a key, or removes the key where there is none.
fn change(batch: &mut Batch, key: &[u8], value: Option<&[u8]>) -> Result<(), AllocError>
    requires { IsChangeSize (key.now, lent value) }
    ensures { OnOk result (batch.new ≡ changed key.now (Some (lent value.entry)) batch.old) }
{
    match value {
        Some(value) => batch.put(key, value),
        None => batch.remove(key),
    }
}

/// The batch that these bytes spell, or `None` where they spell none: one that a store takes, whose keys
/// rise, and then zeros to the end of the last part.
pub fn read_batch(alloc: Global, bytes: &[u8]) -> Result<Option<Batch>, AllocError>
    ensures found { IfOk result (λ found. IfSome found (λ batch. Spells bytes.now batch)) }
    ensures only { (changes : Changes) → Spells bytes.now changes
        → IfOk result (λ found. found ≡ Some changes) }
{
    let mut batch = Batch::new(alloc);
    let mut last: &[u8] = &[];
    let mut rest = bytes;
    while let Some((key, value, after)) = change_at(rest) {
        if !comes_before(last, key) {
            return Ok(None);
        }
        change(&mut batch, key, value)?;
        last = key;
        rest = after;
    }
    // For the proof: the changes are a batch.
    let _is_batch = batch.pieces();
    if !ends_batch(bytes, rest) {
        return Ok(None);
    }
    Ok(Some(batch))
}
