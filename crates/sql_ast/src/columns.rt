//! The columns of a table and its primary key.

ghost use Rattle.std.specs.Prelude.{◌≡◌, ◌<◌, ◌↔◌, ℕ, IsTrue, length, position, slice_get, nat_eq};
ghost use Rattle.std.specs.Option.{SomeIff, option_copied};
ghost use Rattle.std.specs.List.{list_any, list_all};
ghost use Rattle.std.specs.Str.{bytes_eq};
ghost use Rattle.sql_ast.specs.declared.columns.Column.{Column};
ghost use Rattle.sql_ast.specs.Layout.{Layout, IsLayout, all_differ, same_name, is_not_null_at};

use sql_types::items::Items;
use sql_types::name::Name;
use sql_types::try_copy::TryCopy;
use std::alloc::{AllocError, Global};
use std::marker::Model;

/// The most columns that a table may have.
pub const MAX_COLUMNS: usize = 16;

/// The type of a column's values (SQL:2016 Foundation, 4.2 to 4.5; PostgreSQL manual, "Data Types").
#[derive(Clone, Copy, PartialEq, Eq)]
pub enum ColumnType {
    BigInt,
    Text,
    Boolean,
}

/// A column of a table.
#[derive(Drop)]
pub struct Column {
    pub name: Name,
    pub column_type: ColumnType,
    /// Whether no row may hold a null there.
    pub not_null: bool,
}

impl TryCopy for Column {
    fn try_copy(&self, alloc: Global) -> Result<Column, AllocError> {
        let name = self.name.try_copy(alloc)?;
        Ok(Column {
            name,
            column_type: self.column_type,
            not_null: self.not_null,
        })
    }
}

/// The columns of a table and its primary key, which contracts see as a [`Layout`]: 1 to 16 columns
/// whose names differ, and the indices from 0 of the key's columns in the key's order: one or more,
/// which differ and are NOT NULL.
#[derive(Drop)]
pub struct Columns {
    columns: Items<Column>,
    key: Items<usize>,
}

impl Model for Columns {
    ghost use Rattle.sql_ast.specs.Layout.{Layout, IsLayout};

    ghost Value = { Layout };

    ghost view = { λ c. record { columns = c.columns; key = c.key } };

    ghost invariant = { λ c. IsLayout (record { columns = c.columns; key = c.key }) };
}

impl Columns {
    /// The columns and the key, or `None` where they are not those of a table.
    pub fn new(columns: Items<Column>, key: Items<usize>) -> Option<Columns>
        ensures { SomeIff result
            (IsLayout (record { columns = columns; key = key }))
            (record { columns = columns; key = key }) }
    {
        if columns.is_empty() || columns.len() > MAX_COLUMNS || key.is_empty() {
            return None;
        }
        if !names_differ(columns.as_slice()) || !indices_differ(key.as_slice()) {
            return None;
        }
        if !are_not_null(columns.as_slice(), key.as_slice()) {
            return None;
        }
        Some(Columns { columns, key })
    }

    /// The columns, in their order.
    pub fn as_slice(&self) -> &[Column]
        ensures columns { result.now ≡ self.now.columns }
        ensures layout { IsLayout self.now }
    {
        self.columns.as_slice()
    }

    /// The indices of the key's columns, in the key's order.
    pub fn key(&self) -> &[usize]
        ensures key { result.now ≡ self.now.key }
        ensures layout { IsLayout self.now }
    {
        self.key.as_slice()
    }

    /// How many columns there are.
    pub fn len(&self) -> usize
        ensures { result ≡ length self.now.columns }
    {
        self.columns.len()
    }

    /// The column of an index, or `None` after the last.
    pub fn get(&self, index: usize) -> Option<&Column>
        ensures { option_copied result ≡ slice_get self.now.columns index }
    {
        self.columns.get(index)
    }

    /// The index of the column of a name, or `None` where no column has it.
    pub fn find(&self, name: &Name) -> Option<usize>
        ensures { result ≡ position (λ c. bytes_eq c.name name.now) self.now.columns }
    {
        let columns = self.columns.as_slice();
        columns.iter().position(|column| column.name == *name)
    }
}

impl TryCopy for Columns {
    fn try_copy(&self, alloc: Global) -> Result<Columns, AllocError> {
        let columns = self.columns.try_copy(alloc)?;
        let key = Items::from_vec(Vec::from_slice(alloc, self.key.as_slice())?);
        Ok(Columns { columns, key })
    }
}

fn names_differ(columns: &[Column]) -> bool
    ensures { result ≡ all_differ same_name columns.now }
{
    match columns.split_first() {
        None => true,
        Some((first, rest)) => !has_name(rest, first) && names_differ(rest),
    }
}

fn has_name(columns: &[Column], named: &Column) -> bool
    ensures { result ≡ list_any (same_name named.now) columns.now }
{
    columns.iter().any(|column| named.name == column.name)
}

fn indices_differ(key: &[usize]) -> bool
    ensures { result ≡ all_differ nat_eq key.now }
{
    match key.split_first() {
        None => true,
        Some((first, rest)) => !rest.contains(first) && indices_differ(rest),
    }
}

fn is_not_null_at(columns: &[Column], index: usize) -> bool
    ensures { result ≡ is_not_null_at columns.now index }
{
    match columns.get(index) {
        Some(column) => column.not_null,
        None => false,
    }
}

fn are_not_null(columns: &[Column], key: &[usize]) -> bool
    ensures { result ≡ list_all (is_not_null_at columns.now) key.now }
{
    key.iter().all(|index| is_not_null_at(columns, *index))
}
