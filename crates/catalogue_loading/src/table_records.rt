//! Tables from their records: all but their privilege descriptors and policies, which have records
//! of their own.

ghost use Rattle.std.specs.Prelude.{◌≡◌, [], ◌++◌, ◌<◌, ◌^◌, ◌+◌, ℕ, Bool, List, IfSome, MatchOption};
ghost use Rattle.byteorder.specs.Endian.{big_bytes};
ghost use Rattle.sql_ast.specs.declared.columns.ColumnType.{ColumnType};
ghost use Rattle.stored_database.specs.RecordFormat.{column_bytes, flag, layout_bytes, table_record, type_number};
ghost use Rattle.catalogue_loading.specs.Decoding.{Decodes, DecodesFront};
ghost use Rattle.catalogue_loading.specs.RecordParts.{HasName, IsStoredLayout, IsTableAlone, key_bytes};

use crate::bytes::{Coded, decode_name, name_at, two_at};
use crate::record_parts::{RecordPart, parts_at};
use crate::walk::ItemReader;
use byteorder::{BigEndian, ByteOrder};
use sql_ast::columns::{Column, ColumnType, Columns};
use sql_types::items::Items;
use sql_types::name::Name;
use std::alloc::Global;
use std::marker::Model;
use store::{Entry, Fault};

/// The greatest number of a table.
const MAX_TABLE_ID: u32 = 1024;

/// What the record of a table says, which contracts see as a table without privilege descriptors
/// and policies.
#[derive(Drop)]
pub struct TableRecord {
    /// The number that stands for the table in records, from 1 to 1,024.
    pub id: u32,
    pub name: Name,
    pub owner: Name,
    pub columns: Columns,
    /// Whether row security is enabled (PostgreSQL manual, ALTER TABLE).
    pub row_security: bool,
    /// Whether row security concerns the owner too (PostgreSQL manual, ALTER TABLE).
    pub forced: bool,
}

impl Model for TableRecord {
    ghost use Rattle.std.specs.Prelude.{[]};
    ghost use Rattle.std.specs.Coded.{codes};
    ghost use Rattle.sql_ast.specs.contracts.expr.Expr as expr;
    ghost use Rattle.stored_database.specs.Definitions.{TableDefinition};

    ghost Value = { TableDefinition };

    ghost coded = { Prim.hlevel (codes, expr.the_row.coded) };

    ghost view = { λ t. record {
      id = t.id;
      definition = record {
        name = t.name;
        owner = t.owner;
        layout = t.columns;
        row_security = t.row_security;
        forced = t.forced;
      };
      descriptors = [];
      policies = [];
    } };
}

/// The reader of the records of tables.
#[derive(Drop)]
pub struct TableReader;

impl ItemReader for TableReader {
    type Item = TableRecord;

    ghost use Rattle.stored_database.specs.RecordFormat.{table_record};
    ghost use Rattle.catalogue_loading.specs.RecordParts.{IsTableAlone};

    ghost IsValid = { λ reader. IsTableAlone };

    ghost spell = { λ reader. table_record };

    fn read(&self, alloc: Global, entry: &Entry) -> Result<TableRecord, Fault> {
        decode_table(alloc, entry)
    }
}

/// The columns of a table.
#[derive(Drop)]
struct ColumnPart;

impl RecordPart for ColumnPart {
    type Item = Column;

    ghost use Rattle.stored_database.specs.RecordFormat.{column_bytes};
    ghost use Rattle.catalogue_loading.specs.RecordParts.{HasName};

    ghost IsValid = { HasName };

    ghost spell = { column_bytes };

    fn read<'a>(alloc: Global, bytes: &'a [u8]) -> Result<(Column, &'a [u8]), Fault> {
        column_at(alloc, bytes)
    }
}

impl Coded for ColumnType {
    ghost use Rattle.stored_database.specs.RecordFormat.{type_number};

    ghost code = { type_number };

    fn of_byte(byte: u8) -> Option<ColumnType> {
        match byte {
            1 => Some(ColumnType::BigInt),
            2 => Some(ColumnType::Text),
            3 => Some(ColumnType::Boolean),
            _ => None,
        }
    }
}

fn column_at(alloc: Global, bytes: &[u8]) -> Result<(Column, &[u8]), Fault>
    ensures { DecodesFront HasName column_bytes bytes.now result }
{
    let (name, rest) = match name_at(alloc, bytes) {
        Ok(front) => front,
        Err(fault) => return Err(fault),
    };
    let Some((column_type, not_null, rest)) = two_at::<ColumnType, bool>(rest) else {
        return Err(Fault::Damaged);
    };
    let column = Column {
        name,
        column_type,
        not_null,
    };
    Ok((column, rest))
}

// The indices of a key that stand after their number.
fn decode_key(alloc: Global, bytes: &[u8]) -> Result<Items<usize>, Fault>
    ensures { Decodes (λ (key : List ℕ). Unit {0}) key_bytes bytes.now result }
{
    let Some((count, indices)) = bytes.split_first() else {
        return Err(Fault::Damaged);
    };
    if indices.len() != *count as usize {
        return Err(Fault::Damaged);
    }
    let mut key = Items::new(alloc);
    for index in indices {
        key.push(*index as usize)?;
    }
    Ok(key)
}

// The columns and the key that are all there is.
fn decode_layout(alloc: Global, bytes: &[u8]) -> Result<Columns, Fault>
    ensures { Decodes IsStoredLayout layout_bytes bytes.now result }
{
    let Some((count, rest)) = bytes.split_first() else {
        return Err(Fault::Damaged);
    };
    let (columns, rest) = match parts_at::<ColumnPart>(alloc, *count, rest) {
        Ok(front) => front,
        Err(fault) => return Err(fault),
    };
    let key = match decode_key(alloc, rest) {
        Ok(key) => key,
        Err(fault) => return Err(fault),
    };
    match Columns::new(columns, key) {
        Some(columns) => Ok(columns),
        None => Err(Fault::Damaged),
    }
}

// The number of a table that the first four bytes spell, and the bytes after them.
fn id_at(bytes: &[u8]) -> Option<(u32, &[u8])>
    ensures found { IfSome result (λ r. bytes.now ≡ big_bytes 4 r.0 ++ r.1.now) }
    ensures only { (n : ℕ) (rest : List ℕ) → n < 2 ^ 32 → bytes.now ≡ big_bytes 4 n ++ rest
        → MatchOption result ⊥ (λ r. (r.0 ≡ n) × (r.1.now ≡ rest)) }
{
    if bytes.len() < 4 {
        return None;
    }
    Some((BigEndian::read_u32(bytes), &bytes[4..]))
}

// Whether row security is enabled, and whether it is forced, of the sum of both.
fn security_of(flags: u8) -> Option<(bool, bool)>
    ensures { MatchOption result
        ((enabled forced : Bool) → flag enabled 1 + flag forced 2 ≡ flags → ⊥)
        (λ r. flag r.0 1 + flag r.1 2 ≡ flags) }
{
    match flags {
        0 => Some((false, false)),
        1 => Some((true, false)),
        2 => Some((false, true)),
        3 => Some((true, true)),
        _ => None,
    }
}

fn decode_table(alloc: Global, entry: &Entry) -> Result<TableRecord, Fault>
    ensures { Decodes IsTableAlone table_record entry.now result }
{
    let Some((3, name)) = entry.key().split_first() else {
        return Err(Fault::Damaged);
    };
    let Some((id, rest)) = id_at(entry.value()) else {
        return Err(Fault::Damaged);
    };
    if id == 0 || id > MAX_TABLE_ID {
        return Err(Fault::Damaged);
    }
    let (owner, rest) = match name_at(alloc, rest) {
        Ok(front) => front,
        Err(fault) => return Err(fault),
    };
    let Some((flags, layout)) = rest.split_first() else {
        return Err(Fault::Damaged);
    };
    let Some((row_security, forced)) = security_of(*flags) else {
        return Err(Fault::Damaged);
    };
    let columns = match decode_layout(alloc, layout) {
        Ok(columns) => columns,
        Err(fault) => return Err(fault),
    };
    let name = match decode_name(alloc, name) {
        Ok(name) => name,
        Err(fault) => return Err(fault),
    };
    Ok(TableRecord {
        id,
        name,
        owner,
        columns,
        row_security,
        forced,
    })
}
