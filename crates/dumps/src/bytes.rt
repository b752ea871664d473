//! The parts of a dump by their bytes, written.
ghost use Rattle.std.specs.Prelude.{◌≡◌, ◌≤◌, ◌+◌, ◌*◌, ◌/◌, ◌++◌, ◌∷◌, [], List, ℕ, ◌<◌, ◌^◌, ◌%◌, MatchOption, IfSome, length, replicate, IfOk, OnOk};
ghost use Rattle.byteorder.specs.Endian.{big_bytes};
ghost use Rattle.sha2.specs.Sha256.{sha256};
ghost use Rattle.store.specs.Records.{Changes};
ghost use Rattle.dumps.specs.Form.{IsBlock, block_of, ending, fields, fill, head, in_pages};

use byteorder::{BigEndian, ByteOrder};
use journal::{batch_bytes, one_batch};
use std::alloc::{AllocError, Global};
use storage_sizes::PAGE_SIZE;
use store::Batch;

/// What a dump begins with.
pub(crate) const MAGIC: &[u8; 12] = b"GUARDDB-DUMP";

/// The version of the form of dumps.
pub(crate) const VERSION: u32 = 1;

/// The record format of the records in a dump.
pub(crate) const RECORD_FORMAT: u32 = 2;

/// What the block of a list begins with.
pub(crate) const BLOCK: u8 = 1;

/// What the end begins with.
pub(crate) const END: u8 = 0;

/// The key of the mark that a copy has until it is whole.
pub(crate) const MARK: [u8; 1] = [0];

/// The bytes that spell the changes of one list are fewer than these.
pub(crate) const LIST_BYTES: u32 = 1 << 26;

fn push_u32(out: &mut Vec<u8>, number: u32) -> Result<(), AllocError>
    ensures { OnOk result (out.new.items ≡ out.old.items ++ big_bytes 4 number) }
{
    let mut bytes = [0; 4];
    BigEndian::write_u32(&mut bytes, number);
    out.extend_from_slice(&bytes)
}

fn push_u64(out: &mut Vec<u8>, number: u64) -> Result<(), AllocError>
    ensures { OnOk result (out.new.items ≡ out.old.items ++ big_bytes 8 number) }
{
    let mut bytes = [0; 8];
    BigEndian::write_u64(&mut bytes, number);
    out.extend_from_slice(&bytes)
}

// How many zeros fill so many bytes up to whole pages.
pub(crate) fn zeros_after(count: usize) -> usize
    ensures zeros { result ≡ fill count }
    ensures few { result ≤ 4096 }
{
    (PAGE_SIZE - count % PAGE_SIZE) % PAGE_SIZE
}

fn push_zeros(count: usize, out: &mut Vec<u8>) -> Result<(), AllocError>
    requires { count ≤ 4096 }
    ensures { OnOk result (out.new.items ≡ out.old.items ++ replicate count 0) }
{
    out.extend_from_slice(&[0; PAGE_SIZE][..count])
}

// Fills bytes up to whole pages.
fn fill_pages(out: &mut Vec<u8>) -> Result<(), AllocError>
    ensures filled { OnOk result (out.new.items ≡ in_pages out.old.items) }
    ensures long { OnOk result (length out.new.items ≡ 4096 * ((length out.old.items + 4095) / 4096)) }
{
    let zeros = zeros_after(out.len());
    push_zeros(zeros, out)
}

// The fields of the head.
fn head_fields(alloc: Global, number: u64) -> Result<Vec<u8>, AllocError>
    ensures { IfOk result (λ bytes. bytes.items ≡ fields number) }
{
    let mut bytes = Vec::from_slice(alloc, MAGIC)?;
    push_u32(&mut bytes, VERSION)?;
    push_u32(&mut bytes, RECORD_FORMAT)?;
    push_u64(&mut bytes, number)?;
    Ok(bytes)
}

/// The head of a dump, with the number of the last commit.
pub(crate) fn head_bytes(alloc: Global, number: u64) -> Result<Vec<u8>, AllocError>
    ensures spelled { IfOk result (λ bytes. bytes.items ≡ head number) }
    ensures long { IfOk result (λ bytes. length bytes.items ≡ 4096) }
{
    let mut bytes = head_fields(alloc, number)?;
    fill_pages(&mut bytes)?;
    Ok(bytes)
}

// The block of bytes that spell changes.
fn block_around(alloc: Global, spelled: &[u8]) -> Result<Vec<u8>, AllocError>
    requires { length spelled.now < 2 ^ 26 }
    ensures { IfOk result (λ bytes. bytes.items ≡ block_of spelled.now) }
{
    let mut bytes = Vec::with_capacity(alloc, spelled.len() + 2 * PAGE_SIZE)?;
    bytes.push(BLOCK)?;
    push_u32(&mut bytes, spelled.len() as u32)?;
    bytes.extend_from_slice(spelled)?;
    fill_pages(&mut bytes)?;
    Ok(bytes)
}

/// The block of a list of changes, or `None` where a dump has none of it: it is too long, or says something of the key that marks
/// a copy that is not whole.
pub(crate) fn block_bytes(alloc: Global, batch: &Batch) -> Result<Option<Vec<u8>>, AllocError>
    ensures found { IfOk result (λ found. IfSome found (λ block. IsBlock block.items batch.now)) }
    ensures whole { IfOk result (λ found. IfSome found (λ block. length block.items % 4096 ≡ 0)) }
    ensures only { (bytes : List ℕ) → IsBlock bytes batch.now
        → IfOk result (λ found. MatchOption found ⊥ (λ block. block.items ≡ bytes)) }
{
    // For the proof: no other bytes spell the changes.
    one_batch();
    if batch.find(&MARK).is_some() {
        return Ok(None);
    }
    let spelled = batch_bytes(alloc, batch)?;
    if spelled.len() >= LIST_BYTES as usize {
        return Ok(None);
    }
    Ok(Some(block_around(alloc, spelled.as_slice())?))
}

/// The end of a dump of so many lists, with the digest of all bytes before it.
pub(crate) fn end_bytes(alloc: Global, count: u64, digest: &[u8; 32]) -> Result<Vec<u8>, AllocError>
    ensures spelled { (before : List ℕ) → digest.now ≡ sha256 before
        → IfOk result (λ bytes. bytes.items ≡ ending count before) }
    ensures long { IfOk result (λ bytes. length bytes.items ≡ 4096) }
{
    let mut bytes = Vec::new(alloc);
    bytes.push(END)?;
    push_u64(&mut bytes, count)?;
    bytes.extend_from_slice(digest)?;
    fill_pages(&mut bytes)?;
    Ok(bytes)
}
