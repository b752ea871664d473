//! One cell: a value in the key of a row, or after it.

ghost use Rattle.std.specs.Prelude.{◌≡◌, ℕ, ◌+◌, ◌<◌, ◌≤◌, ◌^◌, ◌↔◌, List, [], ◌∷◌, ◌++◌, ℤ, FitsSigned, IsTrue, position, nat_eq, length, take, drop, MatchOption, IfSome, OnOk};
ghost use Rattle.std.specs.Int.{w64, cast_unsigned};
ghost use Rattle.byteorder.specs.Endian.{big_bytes};
ghost use Rattle.sql_types.specs.Value.{owned};
ghost use Rattle.sql_types.specs.declared.value.Value.{Value};
ghost use Rattle.sql_ast.specs.Rows.{value_cell_size};
ghost use Rattle.sql_types.specs.Domain.{HasNoZero, IsText};
ghost use Rattle.sql_ast.specs.Fits.{IsOfType, FitsColumn};
ghost use Rattle.row_codec.specs.Cells.{key_cell, value_cell, rank, BeginsWith, IsFront, IsOnlyFront};

use byteorder::{BigEndian, ByteOrder};
use sql_ast::columns::{Column, ColumnType};
use sql_types::value::ValueRef;
use std::alloc::AllocError;

// How many numbers are less than this one.
fn rank_of(number: i64) -> u64
    ensures { result ≡ rank number }
{
    if number < 0 {
        (number - i64::MIN) as u64
    } else {
        number as u64 + (1 << 63)
    }
}

// The number of a rank.
fn ranked(ordinal: u64) -> i64
    ensures rank { rank result ≡ ordinal }
    ensures only { (z : ℤ) → FitsSigned w64 z → rank z ≡ ordinal → result ≡ z }
{
    if ordinal < 1 << 63 {
        ordinal as i64 + i64::MIN
    } else {
        (ordinal - (1 << 63)) as i64
    }
}

// ---- writing

fn push_number(out: &mut Vec<u8>, number: u64) -> Result<(), AllocError>
    ensures ok { OnOk result (out.new.items ≡ out.old.items ++ big_bytes 8 number) }
    ensures begins { BeginsWith out.new.items out.old.items }
{
    let mut bytes = [0; 8];
    BigEndian::write_u64(&mut bytes, number);
    out.extend_from_slice(&bytes)
}

fn push_length(out: &mut Vec<u8>, length: u16) -> Result<(), AllocError>
    ensures ok { OnOk result (out.new.items ≡ out.old.items ++ big_bytes 2 length) }
    ensures begins { BeginsWith out.new.items out.old.items }
{
    let mut bytes = [0; 2];
    BigEndian::write_u16(&mut bytes, length);
    out.extend_from_slice(&bytes)
}

/// Appends the cell of a value in a key. Where memory is refused, `out` still begins with what it
/// held.
pub fn push_key_cell(out: &mut Vec<u8>, value: ValueRef<'_>) -> Result<(), AllocError>
    ensures ok { OnOk result (out.new.items ≡ out.old.items ++ key_cell (owned value.entry)) }
    ensures begins { BeginsWith out.new.items out.old.items }
{
    match value {
        ValueRef::Null => Ok(()),
        ValueRef::Int(number) => push_number(out, rank_of(number)),
        ValueRef::Text(text) => {
            out.extend_from_slice(text.as_bytes())?;
            out.push(0)?;
            Ok(())
        }
        ValueRef::Bool(truth) => {
            out.push(u8::from(truth))?;
            Ok(())
        }
    }
}

/// Appends the cell of a value after a key. A text has less than 65,536 bytes. Where memory is
/// refused, `out` still begins with what it held.
pub fn push_value_cell(out: &mut Vec<u8>, value: ValueRef<'_>) -> Result<(), AllocError>
    requires { value_cell_size (owned value) < 2 ^ 16 }
    ensures ok { OnOk result (out.new.items ≡ out.old.items ++ value_cell (owned value.entry)) }
    ensures begins { BeginsWith out.new.items out.old.items }
{
    match value {
        ValueRef::Null => {
            out.push(0)?;
            Ok(())
        }
        ValueRef::Int(number) => {
            out.push(1)?;
            push_number(out, number.cast_unsigned())
        }
        ValueRef::Text(text) => {
            out.push(2)?;
            push_length(out, text.len() as u16)?;
            out.extend_from_slice(text.as_bytes())
        }
        ValueRef::Bool(truth) => {
            out.push(if truth { 4 } else { 3 })?;
            Ok(())
        }
    }
}

// ---- reading

// The number that the first eight bytes spell, and the bytes after them.
fn number_at(bytes: &[u8]) -> Option<(u64, &[u8])>
    ensures found { IfSome result (λ r. bytes.now ≡ big_bytes 8 r.0 ++ r.1.now) }
    ensures only { (n : ℕ) (rest : List ℕ) → n < 2 ^ 64 → bytes.now ≡ big_bytes 8 n ++ rest
        → MatchOption result ⊥ (λ r. (r.0 ≡ n) × (r.1.now ≡ rest)) }
{
    if bytes.len() < 8 {
        return None;
    }
    Some((BigEndian::read_u64(bytes), &bytes[8..]))
}

// The length that the first two bytes spell, and the bytes after them.
fn length_at(bytes: &[u8]) -> Option<(usize, &[u8])>
    ensures found { IfSome result (λ r. bytes.now ≡ big_bytes 2 r.0 ++ r.1.now) }
    ensures only { (n : ℕ) (rest : List ℕ) → n < 2 ^ 16 → bytes.now ≡ big_bytes 2 n ++ rest
        → MatchOption result ⊥ (λ r. (r.0 ≡ n) × (r.1.now ≡ rest)) }
    ensures short { IfSome result (λ r. r.0 < 2 ^ 16) }
{
    if bytes.len() < 2 {
        return None;
    }
    Some((BigEndian::read_u16(bytes) as usize, &bytes[2..]))
}

/// The bytes that stand behind their length, a number of two bytes, at the front of these bytes, and
/// the bytes after them. `None` where no such bytes stand there.
pub fn counted_bytes_at(bytes: &[u8]) -> Option<(&[u8], &[u8])>
    ensures found { IfSome result (λ r. (length r.0.now < 2 ^ 16)
        × (bytes.now ≡ big_bytes 2 (length r.0.now) ++ r.0.now ++ r.1.now)) }
    ensures only { (counted rest : List ℕ) → length counted < 2 ^ 16
        → bytes.now ≡ big_bytes 2 (length counted) ++ counted ++ rest
        → MatchOption result ⊥ (λ r. (r.0.now ≡ counted) × (r.1.now ≡ rest)) }
{
    let (length, rest) = length_at(bytes)?;
    if rest.len() < length {
        return None;
    }
    Some(rest.split_at(length))
}

fn zero_at(bytes: &[u8]) -> Option<usize>
    ensures { result ≡ position (λ b. nat_eq b 0) bytes.now }
{
    bytes.iter().position(|byte| *byte == 0)
}

// The bytes before the first zero byte, and those after it.
fn split_at_zero(bytes: &[u8]) -> Option<(&[u8], &[u8])>
    ensures found { IfSome result (λ r. HasNoZero r.0.now × (bytes.now ≡ r.0.now ++ 0 ∷ r.1.now)) }
    ensures only { (front rest : List ℕ) → HasNoZero front → bytes.now ≡ front ++ 0 ∷ rest
        → MatchOption result ⊥ (λ r. (r.0.now ≡ front) × (r.1.now ≡ rest)) }
{
    let end = zero_at(bytes)?;
    Some((&bytes[..end], &bytes[end + 1..]))
}

#[tactic(auto, using(crate::proofs::Zero::free_where_none, crate::proofs::Zero::none_where_free))]
fn has_no_zero(bytes: &[u8]) -> bool
    ensures { IsTrue result ↔ HasNoZero bytes.now }
{
    zero_at(bytes).is_none()
}

// Whether each byte is that of an ASCII character, and none is zero.
fn is_plain(bytes: &[u8]) -> bool
    ensures { IsTrue result → IsText bytes.now }
{
    for byte in bytes {
        if *byte == 0 || *byte >= 128 {
            return false;
        }
    }
    true
}

// These bytes as a text that a column may hold. Most texts are ASCII, of which no byte is read twice.
fn text_of(bytes: &[u8]) -> Option<&str>
    ensures { MatchOption result
        (¬ (IsText bytes.now))
        (λ text. IsText bytes.now × (text.now ≡ bytes.now)) }
{
    if is_plain(bytes) {
        // SAFETY: ASCII bytes are UTF-8, and the check proves that these are.
        return Some(unsafe { str::from_utf8_unchecked(bytes) });
    }
    if !has_no_zero(bytes) {
        return None;
    }
    match str::from_utf8(bytes) {
        Ok(text) => Some(text),
        Err(_) => None,
    }
}

// The text that the front spells after its length, and the bytes after it.
fn text_at(bytes: &[u8]) -> Option<(&str, &[u8])>
    ensures found { IfSome result
        (λ r. IsText r.0.now
        × (bytes.now ≡ big_bytes 2 (length r.0.now) ++ r.0.now ++ r.1.now)) }
    ensures only { (text rest : List ℕ) → IsText text → length text < 2 ^ 16
        → bytes.now ≡ big_bytes 2 (length text) ++ text ++ rest
        → MatchOption result ⊥ (λ r. (r.0.now ≡ text) × (r.1.now ≡ rest)) }
{
    let (front, rest) = counted_bytes_at(bytes)?;
    let text = text_of(front)?;
    Some((text, rest))
}

/// The value of a key column of this type at the front of these bytes, and the bytes after its
/// cell. `None` where they begin with no such cell.
pub fn key_cell_at<'a>(kind: ColumnType, bytes: &'a [u8]) -> Option<(ValueRef<'a>, &'a [u8])>
    ensures found { IfSome result (λ r. IsFront (IsOfType kind) key_cell bytes.now r.0 r.1.now) }
    ensures only { IsOnlyFront (IsOfType kind) key_cell bytes.now result }
{
    match kind {
        ColumnType::BigInt => {
            let (ordinal, rest) = number_at(bytes)?;
            let number = ranked(ordinal);
            Some((ValueRef::Int(number), rest))
        }
        ColumnType::Text => {
            let (front, rest) = split_at_zero(bytes)?;
            let text = text_of(front)?;
            Some((ValueRef::Text(text), rest))
        }
        ColumnType::Boolean => match bytes.split_first()? {
            (0, rest) => Some((ValueRef::Bool(false), rest)),
            (1, rest) => Some((ValueRef::Bool(true), rest)),
            _ => None,
        },
    }
}

/// The value of a column that is no key column at the front of these bytes, and the bytes after its
/// cell. `None` where they begin with no cell of a value that the column may hold.
pub fn value_cell_at<'a>(column: &Column, bytes: &'a [u8]) -> Option<(ValueRef<'a>, &'a [u8])>
    requires { length bytes.now < 2 ^ 16 }
    ensures found { IfSome result (λ r. IsFront (FitsColumn column.now) value_cell bytes.now r.0 r.1.now) }
    ensures only { IsOnlyFront (FitsColumn column.now) value_cell bytes.now result }
{
    let (tag, rest) = bytes.split_first()?;
    match (*tag, column.column_type) {
        (0, _) if !column.not_null => Some((ValueRef::Null, rest)),
        (1, ColumnType::BigInt) => {
            let (bits, rest) = number_at(rest)?;
            Some((ValueRef::Int(bits.cast_signed()), rest))
        }
        (2, ColumnType::Text) => {
            let (text, rest) = text_at(rest)?;
            Some((ValueRef::Text(text), rest))
        }
        (3, ColumnType::Boolean) => Some((ValueRef::Bool(false), rest)),
        (4, ColumnType::Boolean) => Some((ValueRef::Bool(true), rest)),
        _ => None,
    }
}
