//! Parts of messages, at the front of bytes.

ghost use Rattle.std.specs.Prelude.{◌≡◌, Some};
ghost use Rattle.std.specs.Int.{w16, w32};
ghost use Rattle.std.specs.Str.{is_utf8};
ghost use Rattle.postgres_messages.specs.Reading.{number_at, string_at, value_at};
ghost use Rattle.postgres_messages.specs.Views.{GivesPart, GivesText, viewed_value};

use crate::read_error::ReadError;
use std::str::from_utf8;

/// The length of a null.
const NULL_LENGTH: u32 = 0xFFFF_FFFF;

/// A value as it is written, in text or binary.
#[derive(Clone, Copy)]
pub enum FieldBytes<'a> {
    Null,
    Bytes(&'a [u8]),
}

// An Int16, and what follows it.
pub(crate) fn u16_at(bytes: &[u8]) -> Result<(u16, &[u8]), ReadError>
    ensures { GivesPart (λ x. (x.0, x.1.now)) result (number_at w16 bytes.now) }
{
    if bytes.len() < 2 {
        return Err(ReadError::Malformed);
    }
    let (front, rest) = bytes.split_at(2);
    Ok((u16::from_be_bytes([front[0], front[1]]), rest))
}

// An Int32, and what follows it.
pub(crate) fn u32_at(bytes: &[u8]) -> Result<(u32, &[u8]), ReadError>
    ensures { GivesPart (λ x. (x.0, x.1.now)) result (number_at w32 bytes.now) }
{
    if bytes.len() < 4 {
        return Err(ReadError::Malformed);
    }
    let (front, rest) = bytes.split_at(4);
    let number = u32::from_be_bytes([front[0], front[1], front[2], front[3]]);
    Ok((number, rest))
}

// The text up to the first zero, and what follows the zero.
pub(crate) fn string_at(bytes: &[u8]) -> Result<(&[u8], &[u8]), ReadError>
    ensures { GivesPart (λ x. (x.0.now, x.1.now)) result (string_at bytes.now) }
{
    for (i, byte) in bytes.iter().enumerate() {
        if *byte == 0 {
            return Ok((&bytes[..i], &bytes[i + 1..]));
        }
    }
    Err(ReadError::Malformed)
}

// A value behind its length, and what follows it.
#[tactic(auto, unfolding(crate::specs::Reading::value_at, crate::specs::Reading::bytes_at))]
pub(crate) fn value_at(bytes: &[u8]) -> Result<(FieldBytes<'_>, &[u8]), ReadError>
    ensures { GivesPart (λ x. (viewed_value x.0, x.1.now)) result (value_at bytes.now) }
{
    let (length, rest) = u32_at(bytes)?;
    if length == NULL_LENGTH {
        return Ok((FieldBytes::Null, rest));
    }
    let length = length as usize;
    if length < 0x8000_0000 && length <= rest.len() {
        let (value, rest) = rest.split_at(length);
        Ok((FieldBytes::Bytes(value), rest))
    } else {
        Err(ReadError::Malformed)
    }
}

// The text that bytes spell.
pub(crate) fn text_of(bytes: &[u8]) -> Result<&str, ReadError>
    ensures { GivesText is_utf8 (λ text. text.now) result (Some bytes.now) }
{
    match from_utf8(bytes) {
        Ok(text) => Ok(text),
        Err(_) => Err(ReadError::NotText),
    }
}
