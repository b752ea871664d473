//! One change by its bytes.
ghost use Rattle.std.specs.Prelude.{◌≡◌, ◌<◌, ◌≤◌, ◌^◌, ◌++◌, ◌∷◌, ℕ, List, Option, None, Some, length, MatchOption, IfSome, OnOk};
ghost use Rattle.byteorder.specs.Endian.{big_bytes};
ghost use Rattle.store.specs.Records.{IsKeySize, IsChangeSize};
ghost use Rattle.journal.specs.Changes.{change_then, lent, IsFront};

use byteorder::{BigEndian, ByteOrder};
use std::alloc::AllocError;
use store::{Change, MAX_KEY_LENGTH, MAX_VALUE_LENGTH};

// A put begins with this byte.
const PUT: u8 = 1;

// A removal begins with this byte.
const REMOVE: u8 = 2;

// ---- writing

fn push_length(out: &mut Vec<u8>, count: u16) -> Result<(), AllocError>
    ensures { OnOk result (out.new.items ≡ out.old.items ++ big_bytes 2 count) }
{
    let mut bytes = [0; 2];
    BigEndian::write_u16(&mut bytes, count);
    out.extend_from_slice(&bytes)
}

fn push_put(key: &[u8], value: &[u8], out: &mut Vec<u8>) -> Result<(), AllocError>
    requires key { length key.now ≤ MAX_KEY_LENGTH }
    requires value { length value.now ≤ MAX_VALUE_LENGTH }
    ensures { OnOk result ((rest : List ℕ) → out.new.items ++ rest
        ≡ out.old.items ++ change_then key.now (Some value.now) rest) }
{
    out.push(PUT)?;
    push_length(out, key.len() as u16)?;
    push_length(out, value.len() as u16)?;
    out.extend_from_slice(key)?;
    out.extend_from_slice(value)
}

fn push_removal(key: &[u8], out: &mut Vec<u8>) -> Result<(), AllocError>
    requires { length key.now ≤ MAX_KEY_LENGTH }
    ensures { OnOk result ((rest : List ℕ) → out.new.items ++ rest
        ≡ out.old.items ++ change_then key.now None rest) }
{
    out.push(REMOVE)?;
    push_length(out, key.len() as u16)?;
    out.extend_from_slice(key)
}

// Appends the bytes of a change.
pub(crate) fn push_change(change: &Change, out: &mut Vec<u8>) -> Result<(), AllocError>
    requires { IsChangeSize change.now }
    ensures { OnOk result ((rest : List ℕ) → out.new.items ++ rest
        ≡ out.old.items ++ change_then change.now.0 change.now.1 rest) }
{
    match change.value() {
        Some(value) => push_put(change.key(), value, out),
        None => push_removal(change.key(), out),
    }
}

// ---- reading

// The length that the first two bytes spell, and the bytes after them.
fn length_at(bytes: &[u8]) -> Option<(usize, &[u8])>
    ensures found { IfSome result (λ r. bytes.now ≡ big_bytes 2 r.0 ++ r.1.now) }
    ensures only { (n : ℕ) (rest : List ℕ) → n < 2 ^ 16 → bytes.now ≡ big_bytes 2 n ++ rest
        → MatchOption result ⊥ (λ r. (r.0 ≡ n) × (r.1.now ≡ rest)) }
{
    if bytes.len() < 2 {
        return None;
    }
    Some((BigEndian::read_u16(bytes) as usize, &bytes[2..]))
}

// The first so many bytes, and the bytes after them.
fn bytes_at(bytes: &[u8], count: usize) -> Option<(&[u8], &[u8])>
    ensures found { IfSome result (λ r. (length r.0.now ≡ count) × (bytes.now ≡ r.0.now ++ r.1.now)) }
    ensures only { (front rest : List ℕ) → length front ≡ count → bytes.now ≡ front ++ rest
        → MatchOption result ⊥ (λ r. (r.0.now ≡ front) × (r.1.now ≡ rest)) }
{
    if bytes.len() < count {
        return None;
    }
    Some(bytes.split_at(count))
}

// The length of a key that the first two bytes spell, and the bytes after them.
fn key_length_at(bytes: &[u8]) -> Option<(usize, &[u8])>
    ensures found { IfSome result (λ r. (1 ≤ r.0) × (r.0 ≤ 205) × (bytes.now ≡ big_bytes 2 r.0 ++ r.1.now)) }
    ensures only { (n : ℕ) (rest : List ℕ) → 1 ≤ n → n ≤ 205 → bytes.now ≡ big_bytes 2 n ++ rest
        → MatchOption result ⊥ (λ r. (r.0 ≡ n) × (r.1.now ≡ rest)) }
{
    let (count, rest) = length_at(bytes)?;
    if count == 0 || count > MAX_KEY_LENGTH {
        return None;
    }
    Some((count, rest))
}

// The length of a value that the first two bytes spell, and the bytes after them.
fn value_length_at(bytes: &[u8]) -> Option<(usize, &[u8])>
    ensures found { IfSome result (λ r. (r.0 ≤ 1200) × (bytes.now ≡ big_bytes 2 r.0 ++ r.1.now)) }
    ensures only { (n : ℕ) (rest : List ℕ) → n ≤ 1200 → bytes.now ≡ big_bytes 2 n ++ rest
        → MatchOption result ⊥ (λ r. (r.0 ≡ n) × (r.1.now ≡ rest)) }
{
    let (count, rest) = length_at(bytes)?;
    if count > MAX_VALUE_LENGTH {
        return None;
    }
    Some((count, rest))
}

// The key and the value of a put, behind its first byte, and the bytes after them.
fn put_at(bytes: &[u8]) -> Option<(&[u8], &[u8], &[u8])>
    ensures found { IfSome result (λ r. IsKeySize r.0.now × (length r.1.now ≤ 1200)
        × (1 ∷ bytes.now ≡ change_then r.0.now (Some r.1.now) r.2.now)) }
    ensures only { (key value rest : List ℕ) → IsKeySize key → length value ≤ 1200
        → 1 ∷ bytes.now ≡ change_then key (Some value) rest
        → MatchOption result ⊥ (λ r. (r.0.now ≡ key) × (r.1.now ≡ value) × (r.2.now ≡ rest)) }
{
    let (key_length, rest) = key_length_at(bytes)?;
    let (value_length, rest) = value_length_at(rest)?;
    let (key, rest) = bytes_at(rest, key_length)?;
    let (value, rest) = bytes_at(rest, value_length)?;
    Some((key, value, rest))
}

// The key of a removal, behind its first byte, and the bytes after it.
fn removal_at(bytes: &[u8]) -> Option<(&[u8], &[u8])>
    ensures found { IfSome result (λ r. IsKeySize r.0.now
        × (2 ∷ bytes.now ≡ change_then r.0.now None r.1.now)) }
    ensures only { (key rest : List ℕ) → IsKeySize key → 2 ∷ bytes.now ≡ change_then key None rest
        → MatchOption result ⊥ (λ r. (r.0.now ≡ key) × (r.1.now ≡ rest)) }
{
    let (key_length, rest) = key_length_at(bytes)?;
    bytes_at(rest, key_length)
}

// The key of a change and its value afterwards, or none where it is removed, from the bytes at the
// front; and the bytes after it. None where they begin with no change that a store takes.
pub(crate) fn change_at(bytes: &[u8]) -> Option<(&[u8], Option<&[u8]>, &[u8])>
    ensures found { IfSome result (λ r. IsFront bytes.now r.0.now (lent r.1) r.2.now) }
    ensures only { (key : List ℕ) (value : Option (List ℕ)) (rest : List ℕ) → IsFront bytes.now key value rest
        → MatchOption result ⊥ (λ r. (r.0.now ≡ key) × (lent r.1 ≡ value) × (r.2.now ≡ rest)) }
{
    let (kind, rest) = bytes.split_first()?;
    if *kind == PUT {
        let (key, value, rest) = put_at(rest)?;
        return Some((key, Some(value), rest));
    }
    if *kind == REMOVE {
        let (key, rest) = removal_at(rest)?;
        return Some((key, None, rest));
    }
    None
}
