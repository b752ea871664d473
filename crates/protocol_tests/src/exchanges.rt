//! Codes, derived keys, verifiers and exchanges of SCRAM-SHA-256.

use crate::printing::{bytes_of, two};
use scram::exchange::{Exchange, Shown};
use scram::mock::Mock;
use scram_hashes::hmac::hmac_sha256;
use scram_hashes::pbkdf2::derive_key;
use scram_hashes::verifier::Verifier;
use sql_types::text::Text;
use std::alloc::Global;
use std::io;

/// The secret of the mock, and what is drawn for each exchange.
const SECRET: [u8; 32] = [7; 32];

const DRAWN: [u8; 32] = [0xA5; 32];

/// Prints bytes.
fn print_digits<R: Print>(rt: &R, alloc: Global, bytes: &[u8]) -> io::Result<()> {
    let digits = hex::encode(alloc, bytes)?;
    println!(rt; "{}", digits.as_str())
}

/// Prints bytes as text.
fn print_text<R: Print>(rt: &R, bytes: &[u8]) -> io::Result<()> {
    match str::from_utf8(bytes) {
        Ok(text) => println!(rt; "{text}"),
        Err(_) => println!(rt; "no text"),
    }
}

/// `code KEY MESSAGE`
pub fn code<R: Print>(rt: &R, alloc: Global, words: &str) -> io::Result<()> {
    let (key, message) = two(words);
    let key = bytes_of(alloc, key);
    let message = bytes_of(alloc, message);
    print_digits(rt, alloc, &hmac_sha256(&key, &message))
}

/// `derive ITERATIONS PASSWORD SALT`
pub fn derive<R: Print>(rt: &R, alloc: Global, words: &str) -> io::Result<()> {
    let (count, words) = two(words);
    let (password, salt) = two(words);
    let password = bytes_of(alloc, password);
    let salt = bytes_of(alloc, salt);
    match count.parse::<u32>() {
        Ok(iterations) if iterations >= 1 => {
            print_digits(rt, alloc, &derive_key(&password, &salt, iterations))
        }
        _ => println!(rt; "none"),
    }
}

/// `verifier ITERATIONS PASSWORD SALT`
pub fn verifier<R: Print>(rt: &R, alloc: Global, words: &str) -> io::Result<()> {
    let (count, words) = two(words);
    let (password, salt) = two(words);
    let password = bytes_of(alloc, password);
    let salt = bytes_of(alloc, salt);
    let Ok(iterations) = count.parse::<u32>() else {
        return println!(rt; "none");
    };
    if iterations < 4096 || iterations > 1_000_000 || salt.is_empty() || salt.len() > 64 {
        return println!(rt; "none");
    }
    let verifier = Verifier::of_password(&password, salt, iterations);
    let text = verifier.to_text(alloc)?;
    println!(rt; "{}", text.as_str())
}

/// `read TEXT`
pub fn read<R: Print>(rt: &R, alloc: Global, words: &str) -> io::Result<()> {
    let Some(verifier) = Verifier::from_text(alloc, words)? else {
        return println!(rt; "none");
    };
    let text = verifier.to_text(alloc)?;
    println!(rt; "{}", text.as_str())
}

/// `show TEXT MESSAGES PROOF`
pub fn show<R: Print>(rt: &R, alloc: Global, words: &str) -> io::Result<()> {
    let (text, words) = two(words);
    let (messages, proof) = two(words);
    let messages = bytes_of(alloc, messages);
    let proof = bytes_of(alloc, proof);
    let Some(verifier) = Verifier::from_text(alloc, text)? else {
        return println!(rt; "none");
    };
    match <[u8; 32]>::try_from(proof.as_slice()) {
        Ok(proof) if verifier.is_shown_by(&messages, &proof) => {
            print_digits(rt, alloc, &verifier.signature(&messages))
        }
        _ => println!(rt; "refused"),
    }
}

/// The text that a word names, or none for `-`.
fn stored_in(alloc: Global, word: &str) -> io::Result<Option<Text>> {
    if word == "-" {
        return Ok(None);
    }
    Ok(Some(Text::from_str(alloc, word)?))
}

/// `begin ROLE STORED FIRST`
pub fn begin<R: Print>(rt: &R, alloc: Global, words: &str) -> io::Result<Option<Exchange>> {
    let (role, words) = two(words);
    let (stored, first) = two(words);
    let stored = stored_in(alloc, stored)?;
    let mock = Mock::new(SECRET, 4096);
    let role = role.as_bytes();
    let begun = Exchange::begin(
        alloc,
        &mock,
        role,
        stored.as_ref(),
        &DRAWN,
        first.as_bytes(),
    )?;
    match &begun {
        Some(exchange) => {
            let challenge = exchange.challenge(alloc)?;
            print_text(rt, &challenge)?;
        }
        None => println!(rt; "none")?,
    }
    Ok(begun)
}

/// `finish STORED LAST`
pub fn finish<R: Print>(
    rt: &R,
    alloc: Global,
    exchange: Option<&Exchange>,
    words: &str,
) -> io::Result<()> {
    let (stored, last) = two(words);
    let stored = stored_in(alloc, stored)?;
    let Some(exchange) = exchange else {
        return println!(rt; "no exchange");
    };
    match exchange.finish(alloc, last.as_bytes(), stored.as_ref())? {
        Some(Shown { text: _, message }) => print_text(rt, &message),
        None => println!(rt; "refused"),
    }
}
