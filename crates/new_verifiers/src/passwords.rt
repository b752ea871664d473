//! Passwords that mean the same to every client, and verifiers with what was drawn for them.

ghost use Rattle.std.specs.Prelude.{◌≡◌, ◌↔◌, IfOk, IsTrue, length, string_bytes, take};
ghost use Rattle.new_verifiers.specs.Passwords.{IsPassword, IsPasswordByte, drawn_password, new_verifier, nobodys_verifier};

use base64::engine::general_purpose::URL_SAFE_NO_PAD;
use scram_hashes::verifier::Verifier;
use std::alloc::{AllocError, Global};

/// The most bytes of a password.
const MOST_PASSWORD: usize = 1024;

/// The bytes of the salt of a new verifier: as many as PostgreSQL draws.
const SALT_LENGTH: usize = 16;

/// The iterations of a new verifier (RFC 7677, 4): as many as PostgreSQL takes.
const ITERATIONS: u32 = 4096;

/// Whether a password may have these bytes: 1 to 1,024 of ASCII, from the space to the tilde. Of these each client makes the
/// same bytes, since SASLprep (RFC 4013) leaves them as they are.
pub fn is_password(bytes: &[u8]) -> bool
    ensures { IsTrue result ↔ IsPassword bytes.now }
{
    !bytes.is_empty()
        && bytes.len() <= MOST_PASSWORD
        && bytes.iter().all(|byte| is_password_byte(*byte))
}

// Whether a password may have this byte.
fn is_password_byte(byte: u8) -> bool
    ensures { IsTrue result ↔ IsPasswordByte byte }
{
    byte >= b' ' && byte <= b'~'
}

/// The password of bytes that were drawn: they, in base64url without padding. The only error is that memory was refused.
pub fn drawn_password(alloc: Global, drawn: &[u8]) -> Result<String, AllocError>
    ensures { IfOk result (λ text. string_bytes text ≡ drawn_password drawn.now) }
{
    URL_SAFE_NO_PAD.encode(alloc, drawn)
}

/// The verifier of a password, with 4,096 iterations and a salt of the first 16 of the bytes that were drawn for it. The only
/// error is that memory was refused.
pub fn new_verifier(
    alloc: Global,
    password: &[u8],
    drawn: &[u8; 32],
) -> Result<Verifier, AllocError>
    ensures { IfOk result (λ verifier. verifier ≡ new_verifier password.now drawn.now) }
{
    let salt = salt_of(alloc, drawn)?;
    Ok(Verifier::of_password(password, salt, ITERATIONS))
}

/// A verifier whose keys were drawn, and are those of no password that anybody has. The only error is that memory was refused.
pub fn nobodys_verifier(
    alloc: Global,
    drawn: &[u8; 32],
    stored_key: [u8; 32],
    server_key: [u8; 32],
) -> Result<Verifier, AllocError>
    ensures { IfOk result (λ verifier. verifier
        ≡ nobodys_verifier drawn.now stored_key server_key) }
{
    let salt = salt_of(alloc, drawn)?;
    Ok(Verifier::from_keys(salt, ITERATIONS, stored_key, server_key))
}

// The salt that the beginning of drawn bytes is.
fn salt_of(alloc: Global, drawn: &[u8; 32]) -> Result<Vec<u8>, AllocError>
    ensures { IfOk result (λ salt. (salt.items ≡ take 16 drawn.now) × (length salt.items ≡ 16)) }
{
    Vec::from_slice(alloc, &drawn[..SALT_LENGTH])
}
