//! The list that a block spells.
ghost use Rattle.std.specs.Prelude.{◌≡◌, ◌≤◌, ◌<◌, ◌+◌, ◌%◌, ◌↔◌, ℕ, IsTrue, None, Some, length, drop, take, IfOk, IfSome};
ghost use Rattle.byteorder.specs.Endian.{big_number};
ghost use Rattle.store.specs.Records.{Changes, entry_at};
ghost use Rattle.dumps.specs.Form.{IsBlock};

use crate::bytes::block_bytes;
use byteorder::{BigEndian, ByteOrder};
use journal::read_batch;
use std::alloc::{AllocError, Global};
use store::Batch;

/// Where the bytes begin that spell the changes of a list, in its block.
pub(crate) const SPELLED: usize = 5;

/// Whether two runs of bytes are the same.
pub(crate) fn are_equal(bytes: &[u8], others: &[u8]) -> bool
    ensures { IsTrue result ↔ (bytes.now ≡ others.now) }
{
    bytes == others
}

/// How many bytes spell the changes of a list, by its block.
pub(crate) fn spelled_length(block: &[u8]) -> u32
    requires { 5 ≤ length block.now }
    ensures { result ≡ big_number 4 (drop 1 block.now) }
{
    BigEndian::read_u32(&block[1..])
}

/// The list whose block these bytes are, or `None` where they are that of none.
pub(crate) fn list_in(alloc: Global, bytes: &[u8]) -> Result<Option<Batch>, AllocError>
    ensures found { IfOk result (λ found. IfSome found (λ batch. IsBlock bytes.now batch)) }
    ensures only { (changes : Changes) → IsBlock bytes.now changes
        → IfOk result (λ found. found ≡ Some changes) }
{
    if bytes.len() < SPELLED {
        return Ok(None);
    }
    let count = spelled_length(bytes) as usize;
    if bytes.len() < SPELLED + count {
        return Ok(None);
    }
    match read_batch(alloc, spelled_in(bytes, count))? {
        Some(batch) => same_block(alloc, batch, bytes),
        None => Ok(None),
    }
}

// The bytes that spell the changes of a list, so many, in its block.
fn spelled_in(block: &[u8], count: usize) -> &[u8]
    requires { 5 + count ≤ length block.now }
    ensures { result.now ≡ take count (drop 5 block.now) }
{
    &block[SPELLED..SPELLED + count]
}

// A list, where these bytes are its block.
fn same_block(alloc: Global, batch: Batch, bytes: &[u8]) -> Result<Option<Batch>, AllocError>
    ensures found { IfOk result (λ found. IfSome found (λ it. (it ≡ batch) × IsBlock bytes.now it)) }
    ensures only { IsBlock bytes.now batch → IfOk result (λ found. found ≡ Some batch) }
{
    let Some(block) = block_bytes(alloc, &batch)? else {
        return Ok(None);
    };
    if !are_equal(block.as_slice(), bytes) {
        return Ok(None);
    }
    Ok(Some(batch))
}
