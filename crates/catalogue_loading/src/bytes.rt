//! The parts of a record: what bytes spell, and the bytes after it.

ghost use Rattle.std.specs.Prelude.{◌≡◌, ◌≢◌, ◌<◌, ◌^◌, ℕ, Bool, List, [], ◌∷◌, ◌++◌, MatchOption, IfSome};
ghost use Rattle.byteorder.specs.Endian.{big_bytes};
ghost use Rattle.storage_sizes.specs.Kinds.{kind_byte};
ghost use Rattle.sql_types.specs.Domain.{IsText};
ghost use Rattle.sql_types.specs.Name.{IsUtf8Name};
ghost use Rattle.stored_database.specs.RecordFormat.{bit, ended};
ghost use Rattle.catalogue_loading.specs.Decoding.{Decodes, DecodesFront};

use row_codec::{key_cell_at, table_prefix};
use sql_ast::columns::ColumnType;
use sql_types::name::Name;
use sql_types::value::ValueRef;
use std::alloc::Global;
use storage_sizes::RecordKind;
use store::Fault;

/// The name that all of these bytes are. Damaged: they are no name.
pub fn decode_name(alloc: Global, bytes: &[u8]) -> Result<Name, Fault>
    ensures { Decodes IsUtf8Name (λ (name : List ℕ). name) bytes.now result }
{
    let Ok(text) = str::from_utf8(bytes) else {
        return Err(Fault::Damaged);
    };
    match Name::from_str(alloc, text)? {
        Some(name) => Ok(name),
        None => Err(Fault::Damaged),
    }
}

// The text before the first zero byte, and the bytes after that byte.
fn text_at(bytes: &[u8]) -> Option<(&str, &[u8])>
    ensures found { IfSome result (λ r. IsText r.0.now × (bytes.now ≡ ended r.0.now ++ r.1.now)) }
    ensures only { (text rest : List ℕ) → IsText text → bytes.now ≡ ended text ++ rest
        → MatchOption result ⊥ (λ r. (r.0.now ≡ text) × (r.1.now ≡ rest)) }
{
    match key_cell_at(ColumnType::Text, bytes)? {
        (ValueRef::Text(text), rest) => Some((text, rest)),
        _ => None,
    }
}

/// The name before the first zero byte, and the bytes after that byte. Damaged: the bytes begin
/// with no such name.
pub fn name_at(alloc: Global, bytes: &[u8]) -> Result<(Name, &[u8]), Fault>
    ensures { DecodesFront IsUtf8Name ended bytes.now result }
{
    let Some((text, rest)) = text_at(bytes) else {
        return Err(Fault::Damaged);
    };
    match decode_name(alloc, text.as_bytes()) {
        Ok(name) => Ok((name, rest)),
        Err(fault) => Err(fault),
    }
}

/// What stands in a byte of its own.
pub trait Coded: Copy {
    /// The byte of a value.
    ghost code: { Self → ℕ };

    /// The value of a byte, or `None` where it is the byte of none.
    fn of_byte(byte: u8) -> Option<Self>
        ensures { MatchOption result
            ((value : Self) → code value ≡ byte → ⊥)
            (λ value. code value ≡ byte) };
}

impl Coded for bool {
    ghost use Rattle.stored_database.specs.RecordFormat.{bit};

    ghost code = { bit };

    fn of_byte(byte: u8) -> Option<bool> {
        match byte {
            0 => Some(false),
            1 => Some(true),
            _ => None,
        }
    }
}

/// The values of the two bytes with which the bytes begin, and the bytes after them.
pub fn two_at<A: Coded, B: Coded>(bytes: &[u8]) -> Option<(A, B, &[u8])>
    ensures { MatchOption result
        ((first : A) (second : B) (rest : List ℕ)
        → bytes.now ≡ A.code first ∷ B.code second ∷ rest → ⊥)
        (λ r. bytes.now ≡ A.code r.0 ∷ B.code r.1 ∷ r.2.now) }
{
    let (first, rest) = bytes.split_first()?;
    let (second, rest) = rest.split_first()?;
    Some((A::of_byte(*first)?, B::of_byte(*second)?, rest))
}

/// The bit that is all there is, or `None` where that is no bit.
pub fn only_bit(bytes: &[u8]) -> Option<bool>
    ensures { MatchOption result
        ((b : Bool) → bit b ∷ [] ≡ bytes.now → ⊥)
        (λ b. bit b ∷ [] ≡ bytes.now) }
{
    match bytes {
        [byte] => bool::of_byte(*byte),
        _ => None,
    }
}

/// The bytes after this prefix, or `None` where they do not begin with it.
pub fn after<'a>(prefix: &[u8], bytes: &'a [u8]) -> Option<&'a [u8]>
    ensures { MatchOption result
        ((rest : List ℕ) → bytes.now ≡ prefix.now ++ rest → ⊥)
        (λ rest. bytes.now ≡ prefix.now ++ rest.now) }
{
    if !bytes.starts_with(prefix) {
        return None;
    }
    let (_, rest) = bytes.split_at(prefix.len());
    Some(rest)
}

/// The bytes after the byte of a kind and the number of a table, or `None` where a key does not begin
/// with them.
pub fn after_table(kind: RecordKind, id: u32, key: &[u8]) -> Option<&[u8]>
    ensures { MatchOption result
        ((rest : List ℕ) → key.now ≡ kind_byte kind ∷ big_bytes 4 id ++ rest → ⊥)
        (λ rest. key.now ≡ kind_byte kind ∷ big_bytes 4 id ++ rest.now) }
{
    after(&table_prefix(kind, id), key)
}
