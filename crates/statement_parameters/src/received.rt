//! The values of parameters as a client sends them.

ghost use Rattle.std.specs.Prelude.{◌≡◌, ◌<◌, ◌≤◌, ◌+◌, ◌^◌, IfOk, map, drop, neg_ℤ, pos, true};
ghost use Rattle.std.specs.Char.{is_ascii_digit};
ghost use Rattle.std.specs.Option.{option_map};
ghost use Rattle.statement_parameters.specs.Received.{are_spaces, bool_value, boolean_in, boolean_value, decimal_value, digits_from, grown, in_binary, in_text, int2_value, int4_value, int8_value, is_space, number_value, number_within, received_value, signed_in, spells_word, text_value, unsigned_in, with_minus, without_spaces};

use crate::span::slice_of;
use crate::types::ParameterType;
use sql_types::text::Text;
use sql_types::value::Value;
use std::alloc::{AllocError, Global};
use std::str::from_utf8;

/// Why bytes are no value of a type.
#[derive(Clone, Copy, PartialEq, Eq)]
pub enum ValueFault {
    /// `22P02`: they write no number.
    NoNumber,
    /// `22P02`: they write no boolean.
    NoBoolean,
    /// `22003`: a number that the type does not hold, or one with a fraction.
    OutOfRange,
    /// `22P03`: they are not as many as the type has in binary.
    WrongLength,
    /// `22021`: a text that is no UTF-8 or has a zero byte.
    NotText,
    /// `22023`: a format that is neither 0 nor 1.
    UnknownFormat,
}

const BOOLEAN_WORDS: [(&[u8], bool); 19] = [
    (b"t", true),
    (b"tr", true),
    (b"tru", true),
    (b"true", true),
    (b"f", false),
    (b"fa", false),
    (b"fal", false),
    (b"fals", false),
    (b"false", false),
    (b"y", true),
    (b"ye", true),
    (b"yes", true),
    (b"n", false),
    (b"no", false),
    (b"on", true),
    (b"of", false),
    (b"off", false),
    (b"1", true),
    (b"0", false),
];

/// The value of a parameter that a client sends for a type in a format: 0, text, or 1, binary; no bytes are a null. What is declared
/// without a type is read as a text. `AllocError` comes only where memory is refused.
pub fn value_of(
    alloc: Global,
    declared: ParameterType,
    format: u16,
    bytes: Option<&[u8]>,
) -> Result<Result<Value, ValueFault>, AllocError>
    ensures { IfOk result (λ value. value ≡ received_value declared format (option_map (λ b. b.now) bytes.entry)) }
{
    if 1 < format {
        return Ok(Err(ValueFault::UnknownFormat));
    }
    let Some(bytes) = bytes else {
        return Ok(Ok(Value::Null));
    };
    if format == 0 {
        in_text(alloc, declared, bytes)
    } else {
        in_binary(alloc, declared, bytes)
    }
}

fn in_text(
    alloc: Global,
    declared: ParameterType,
    bytes: &[u8],
) -> Result<Result<Value, ValueFault>, AllocError>
    ensures { IfOk result (λ value. value ≡ in_text declared bytes.now) }
{
    match declared {
        ParameterType::Bool => Ok(boolean_value(bytes)),
        ParameterType::Int8 => Ok(number_value(9223372036854775808, bytes)),
        ParameterType::Int4 => Ok(number_value(2147483648, bytes)),
        ParameterType::Int2 => Ok(number_value(32768, bytes)),
        ParameterType::Numeric => Ok(decimal_value(bytes)),
        _ => text_value(alloc, bytes),
    }
}

fn in_binary(
    alloc: Global,
    declared: ParameterType,
    bytes: &[u8],
) -> Result<Result<Value, ValueFault>, AllocError>
    ensures { IfOk result (λ value. value ≡ in_binary declared bytes.now) }
{
    match declared {
        ParameterType::Bool => Ok(bool_value(bytes)),
        ParameterType::Int8 => Ok(int8_value(bytes)),
        ParameterType::Int4 => Ok(int4_value(bytes)),
        ParameterType::Int2 => Ok(int2_value(bytes)),
        ParameterType::Numeric => Ok(Err(ValueFault::WrongLength)),
        _ => text_value(alloc, bytes),
    }
}

fn text_value(alloc: Global, bytes: &[u8]) -> Result<Result<Value, ValueFault>, AllocError>
    ensures { IfOk result (λ value. value ≡ text_value bytes.now) }
{
    if bytes.contains(&0) {
        return Ok(Err(ValueFault::NotText));
    }
    match from_utf8(bytes) {
        Ok(text) => Ok(Ok(Value::Text(Text::from_str(alloc, text)?))),
        Err(_) => Ok(Err(ValueFault::NotText)),
    }
}

fn is_space(byte: u8) -> bool
    ensures { result ≡ is_space byte }
{
    byte == b' ' || (9 <= byte && byte <= 13)
}

fn are_spaces(mut bytes: &[u8]) -> bool
    ensures { result ≡ are_spaces bytes.entry.now }
{
    while let [first, rest @ ..] = bytes {
        if !is_space(*first) {
            return false;
        }
        bytes = rest;
    }
    true
}

fn without_spaces(mut bytes: &[u8]) -> &[u8]
    ensures { result.now ≡ without_spaces bytes.entry.now }
{
    while let [first, rest @ ..] = bytes {
        if !is_space(*first) {
            return bytes;
        }
        bytes = rest;
    }
    bytes
}

// A number with one more digit. All numbers above the greatest are one.
fn grown(number: u64, digit: u8) -> u64
    requires small { number ≤ 2 ^ 63 + 1 }
    requires digit { is_ascii_digit digit ≡ true }
    ensures value { result ≡ grown number digit }
    ensures small { result ≤ 2 ^ 63 + 1 }
{
    let next = number as u128 * 10 + (digit - b'0') as u128;
    if 9223372036854775808 < next {
        9223372036854775809
    } else {
        next as u64
    }
}

fn digits_from(bytes: &[u8]) -> Option<u64>
    ensures { result ≡ digits_from 0 bytes.now }
{
    let mut number = 0;
    let mut rest = bytes;
    while let [first, after @ ..] = rest {
        if !first.is_ascii_digit() {
            return if are_spaces(rest) { Some(number) } else { None };
        }
        number = grown(number, *first);
        rest = after;
    }
    Some(number)
}

fn unsigned_in(bytes: &[u8]) -> Option<u64>
    ensures { result ≡ unsigned_in bytes.now }
{
    match bytes {
        [first, ..] if first.is_ascii_digit() => digits_from(bytes),
        _ => None,
    }
}

fn with_minus(is_negative: bool, number: Option<u64>) -> Option<(bool, u64)>
    ensures { result ≡ with_minus is_negative number }
{
    match number {
        Some(number) => Some((is_negative, number)),
        None => None,
    }
}

fn signed_in(bytes: &[u8]) -> Option<(bool, u64)>
    ensures { result ≡ signed_in bytes.now }
{
    match bytes {
        [b'-', rest @ ..] => with_minus(true, unsigned_in(rest)),
        [b'+', rest @ ..] => with_minus(false, unsigned_in(rest)),
        _ => with_minus(false, unsigned_in(bytes)),
    }
}

fn below_zero(number: u64) -> i64
    requires { number ≤ 2 ^ 63 }
    ensures { result ≡ neg_ℤ (pos number) }
{
    if number == 9223372036854775808 {
        i64::MIN
    } else {
        -(number as i64)
    }
}

// A number of a type, by the magnitude of the least one.
fn number_within(most: u64, number: Option<(bool, u64)>) -> Result<Value, ValueFault>
    requires { most ≤ 2 ^ 63 }
    ensures { result ≡ number_within most number }
{
    match number {
        None => Err(ValueFault::NoNumber),
        Some((true, number)) if number <= most => Ok(Value::Int(below_zero(number))),
        Some((false, number)) if number < most => Ok(Value::Int(number as i64)),
        Some(_) => Err(ValueFault::OutOfRange),
    }
}

fn number_value(most: u64, bytes: &[u8]) -> Result<Value, ValueFault>
    requires { most ≤ 2 ^ 63 }
    ensures { result ≡ number_value most bytes.now }
{
    number_within(most, signed_in(without_spaces(bytes)))
}

fn decimal_value(bytes: &[u8]) -> Result<Value, ValueFault>
    ensures { result ≡ decimal_value bytes.now }
{
    if bytes.contains(&b'.') {
        Err(ValueFault::OutOfRange)
    } else {
        number_value(9223372036854775808, bytes)
    }
}

// Whether bytes are a word in any case, with nothing but spaces behind it.
fn spells_word(word: &[u8], bytes: &[u8]) -> bool
    ensures { result ≡ spells_word word.now bytes.now }
{
    word.eq_ignore_ascii_case(slice_of(bytes, 0, word.len()))
        && are_spaces(behind(bytes, word.len()))
}

// What stands behind so many bytes.
fn behind(bytes: &[u8], length: usize) -> &[u8]
    ensures { result.now ≡ drop length bytes.now }
{
    if length < bytes.len() {
        &bytes[length..]
    } else {
        &[]
    }
}

fn boolean_in(mut words: &[(&[u8], bool)], bytes: &[u8]) -> Option<bool>
    ensures { result ≡ boolean_in (map (λ w. (w.0.now, w.1)) words.entry.now) bytes.now }
{
    while let [first, rest @ ..] = words {
        if spells_word(first.0, bytes) {
            return Some(first.1);
        }
        words = rest;
    }
    None
}

fn boolean_value(bytes: &[u8]) -> Result<Value, ValueFault>
    ensures { result ≡ boolean_value bytes.now }
{
    match boolean_in(&BOOLEAN_WORDS, without_spaces(bytes)) {
        Some(truth) => Ok(Value::Bool(truth)),
        None => Err(ValueFault::NoBoolean),
    }
}

fn bool_value(bytes: &[u8]) -> Result<Value, ValueFault>
    ensures { result ≡ bool_value bytes.now }
{
    match bytes {
        [byte] => Ok(Value::Bool(*byte != 0)),
        _ => Err(ValueFault::WrongLength),
    }
}

fn int2_value(bytes: &[u8]) -> Result<Value, ValueFault>
    ensures { result ≡ int2_value bytes.now }
{
    match bytes {
        [a, b] => Ok(Value::Int(i16::from_be_bytes([*a, *b]) as i64)),
        _ => Err(ValueFault::WrongLength),
    }
}

fn int4_value(bytes: &[u8]) -> Result<Value, ValueFault>
    ensures { result ≡ int4_value bytes.now }
{
    match bytes {
        [a, b, c, d] => Ok(Value::Int(i32::from_be_bytes([*a, *b, *c, *d]) as i64)),
        _ => Err(ValueFault::WrongLength),
    }
}

fn int8_value(bytes: &[u8]) -> Result<Value, ValueFault>
    ensures { result ≡ int8_value bytes.now }
{
    match bytes {
        [a, b, c, d, e, f, g, h] => Ok(Value::Int(i64::from_be_bytes([
            *a, *b, *c, *d, *e, *f, *g, *h,
        ]))),
        _ => Err(ValueFault::WrongLength),
    }
}
