//! Bytes, texts and numbers in the lines of answers.

use postgres_messages::frontend::FieldBytes;
use postgres_messages::read_error::ReadError;
use std::alloc::Global;
use std::io;

/// Two words of a line.
pub fn two(words: &str) -> (&str, &str) {
    match words.split_once(' ') {
        Some(parts) => parts,
        None => (words, ""),
    }
}

/// The bytes that hexadecimal digits write, or no bytes where they write none.
pub fn bytes_of(alloc: Global, digits: &str) -> Vec<u8> {
    match hex::decode(alloc, digits) {
        Ok(bytes) => bytes,
        Err(_) => Vec::new(alloc),
    }
}

/// The number that digits write, or 0 where they write none.
pub fn number_of(digits: &str) -> u32 {
    match digits.parse::<u32>() {
        Ok(number) => number,
        Err(_) => 0,
    }
}

/// Prints a blank and bytes, `-` for none.
pub fn print_bytes<R: Print>(rt: &R, alloc: Global, bytes: &[u8]) -> io::Result<()> {
    if bytes.is_empty() {
        return print!(rt; " -");
    }
    let digits = hex::encode(alloc, bytes)?;
    print!(rt; " {}", digits.as_str())
}

/// Prints a value, `null` or `=` and its bytes.
pub fn print_value<R: Print>(rt: &R, alloc: Global, value: &FieldBytes<'_>) -> io::Result<()> {
    match *value {
        FieldBytes::Null => print!(rt; " null"),
        FieldBytes::Bytes(bytes) => {
            let digits = hex::encode(alloc, bytes)?;
            print!(rt; " ={}", digits.as_str())
        }
    }
}

/// Prints why nothing was read.
pub fn print_error<R: Print>(rt: &R, error: ReadError) -> io::Result<()> {
    match error {
        ReadError::Memory => println!(rt; "memory"),
        ReadError::Malformed => println!(rt; "malformed"),
        ReadError::NotText => println!(rt; "not text"),
    }
}
