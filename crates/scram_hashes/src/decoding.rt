//! Bytes read from base64, where only the one text of the bytes is taken.

ghost use Rattle.std.specs.Prelude.{◌≡◌, ◌≢◌, List, ℕ, IfOk, MatchOption, length};
ghost use Rattle.scram_hashes.specs.Base64.{Encodes, EncodesKey};

use base64::DecodeAllocError;
use base64::engine::general_purpose::STANDARD;
use std::alloc::{AllocError, Global};

/// The bytes whose base64 the text is, or `None` where it is that of none: without its padding, with other bits in the last
/// symbol, or with a byte that is no symbol.
pub fn decode(alloc: Global, text: &[u8]) -> Result<Option<Vec<u8>>, AllocError>
    ensures { IfOk result (λ it. MatchOption it
        ((bytes : List ℕ) → Encodes text.now bytes → ⊥)
        (λ bytes. Encodes text.now bytes.items)) }
{
    match STANDARD.decode(alloc, text) {
        Ok(bytes) => Ok(Some(bytes)),
        Err(DecodeAllocError::OutOfMemory) => Err(AllocError),
        Err(DecodeAllocError::DecodeError(_)) => Ok(None),
    }
}

/// The 32 bytes whose base64 the text is, or `None` where it is that of no 32 bytes.
pub fn decode_key(alloc: Global, text: &[u8]) -> Result<Option<[u8; 32]>, AllocError>
    ensures { IfOk result (λ it. MatchOption it
        ((key : List ℕ) → EncodesKey text.now key → ⊥)
        (λ key. EncodesKey text.now key)) }
{
    let Some(bytes) = decode(alloc, text)? else {
        return Ok(None);
    };
    Ok(array_of(bytes.as_slice()))
}

// The bytes as an array, where they are 32.
fn array_of(bytes: &[u8]) -> Option<[u8; 32]>
    ensures { MatchOption result (length bytes.now ≢ 32)
        (λ array. (length bytes.now ≡ 32) × (array ≡ bytes.now)) }
{
    match <[u8; 32]>::try_from(bytes) {
        Ok(array) => Some(array),
        Err(_) => None,
    }
}
