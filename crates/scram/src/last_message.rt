//! The last message of a client.

ghost use Rattle.std.specs.Prelude.{◌≡◌, ◌++◌, ℕ, List, IfOk, MatchOption, codes};
ghost use Rattle.scram_hashes.specs.Base64.{EncodesKey};

use crate::first_message::behind;
use scram_hashes::decoding::decode_key;
use std::alloc::{AllocError, Global};

/// The proof in a last message that begins as expected, or `None` where it begins otherwise, or where what stands behind that is
/// not a proof of 32 bytes.
pub fn proof_in(alloc: Global, expected: &[u8], last: &[u8]) -> Result<Option<[u8; 32]>, AllocError>
    ensures { IfOk result (λ it. MatchOption it
        ((text proof : List ℕ) → EncodesKey text proof
        → last.now ≡ expected.now ++ (codes ",p=" ++ text) → ⊥)
        (λ proof. (text : List ℕ) × EncodesKey text proof
        × (last.now ≡ expected.now ++ (codes ",p=" ++ text)))) }
{
    let Some(rest) = behind(expected, last) else {
        return Ok(None);
    };
    let Some(text) = behind(b",p=", rest) else {
        return Ok(None);
    };
    decode_key(alloc, text)
}
