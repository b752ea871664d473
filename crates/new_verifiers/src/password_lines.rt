//! Lines that have a password, or a verifier.

ghost use Rattle.std.specs.Prelude.{◌≡◌, ◌++◌, ◌∷◌, [], ℕ, List, IfOk, MatchOption, string_bytes};
ghost use Rattle.new_verifiers.specs.Passwords.{IsPassword};
ghost use Rattle.new_verifiers.specs.PasswordLines.{HasNoPassword, IsLine, has_more_lines, line, new_lines, nobodys_line, verifier_line};
ghost use Rattle.scram_hashes.specs.VerifierText.{verifier_text};

use crate::passwords::{drawn_password, is_password, new_verifier, nobodys_verifier};
use scram_hashes::verifier::Verifier;
use std::alloc::{AllocError, Global};

/// The bytes of a password that is drawn.
const SECRET_LENGTH: usize = 24;

/// The password that input is, of one line with a newline behind it or without; `None` where it is the line of no password.
pub fn password_in(input: &[u8]) -> Option<&[u8]>
    ensures { MatchOption result (HasNoPassword input.now)
        (λ password. IsPassword password.now × IsLine input.now password.now) }
{
    let line = without_newline(input);
    if is_password(line) { Some(line) } else { None }
}

// Input without the newline at its end.
fn without_newline(input: &[u8]) -> &[u8]
    ensures is { IsLine input.now result.now }
    ensures ends { (front : List ℕ) → input.now ≡ line front → result.now ≡ front }
{
    match input.split_last() {
        Some((last, front)) => { if *last == b'\n' { front } else { input } }
        None => input,
    }
}

/// Whether input has a newline in front of its last byte, and so more than one line.
pub fn has_more_lines(input: &[u8]) -> bool
    ensures { result ≡ has_more_lines input.now }
{
    match input.split_last() {
        Some((_, front)) => front.contains(&b'\n'),
        None => false,
    }
}

/// The line of the verifier of a password, with a salt of the first 16 of the bytes that were drawn for it. The only error is
/// that memory was refused.
pub fn verifier_line(alloc: Global, password: &[u8], salt: &[u8; 32]) -> Result<String, AllocError>
    ensures { IfOk result (λ text. string_bytes text ≡ verifier_line password.now salt.now) }
{
    let verifier = new_verifier(alloc, password, salt)?;
    line_of(alloc, &verifier)
}

/// The line of the password of the first 24 bytes that were drawn, and that of its verifier. The only error is that memory was
/// refused.
pub fn new_lines(alloc: Global, secret: &[u8; 32], salt: &[u8; 32]) -> Result<String, AllocError>
    ensures { IfOk result (λ text. string_bytes text ≡ new_lines secret.now salt.now) }
{
    let mut text = drawn_password(alloc, &secret[..SECRET_LENGTH])?;
    let verifier = verifier_line(alloc, text.as_bytes(), salt)?;
    text.push_str("\n")?;
    text.push_str(verifier.as_str())?;
    Ok(text)
}

/// The line of a verifier whose keys were drawn, and are those of no password that anybody has. The only error is that memory
/// was refused.
pub fn nobodys_line(
    alloc: Global,
    salt: &[u8; 32],
    stored_key: [u8; 32],
    server_key: [u8; 32],
) -> Result<String, AllocError>
    ensures { IfOk result (λ text. string_bytes text
        ≡ nobodys_line salt.now stored_key server_key) }
{
    let verifier = nobodys_verifier(alloc, salt, stored_key, server_key)?;
    line_of(alloc, &verifier)
}

// The line of a verifier.
fn line_of(alloc: Global, verifier: &Verifier) -> Result<String, AllocError>
    ensures { IfOk result (λ text. string_bytes text ≡ line (verifier_text verifier.now)) }
{
    let mut text = verifier.to_text(alloc)?;
    text.push_str("\n")?;
    Ok(text)
}
