//! The columns and the key of a new table (SQL:2016 Foundation, 11.3, 11.4 and 11.7).

ghost use Rattle.std.specs.Prelude.{◌≡◌, ◌<◌, ◌++◌, ◌&&◌, nat_le, nat_lt, not, IfOk, OnOk, length, map, flat_map, bytes_eq, position};
ghost use Rattle.std.specs.List.{list_any, list_all};
ghost use Rattle.sql_types.specs.declared.state.SqlState.TheVariants.{UndefinedColumn};
ghost use Rattle.abstract_database.specs.Lists.{has_double as double_name};
ghost use Rattle.expressions.specs.Stages.{require};
ghost use Rattle.abstract_database.specs.Definitions.{definitions_of as definitions_in, key_names as key_names_in, column_of, index_of as index_in, is_key_mark};
ghost use Rattle.abstract_database.specs.Checks.{checked_layout};
ghost use Rattle.schema_statements.specs.Refusing.{Refines};

use catalogue::names::has_double;
use sql_ast::columns::{Column, Columns, MAX_COLUMNS};
use sql_ast::statement::{ColumnConstraint, ColumnDefinition, TableElement};
use sql_types::items::Items;
use sql_types::name::Name;
use sql_types::state::{Refusal, SqlState};
use sql_types::try_copy::TryCopy;
use std::alloc::{AllocError, Global};

// The most tables.
const MAX_TABLES: usize = 1024;

/// The columns and the key of a new table beside so many others. `DuplicateColumn` comes where a
/// column or a column of the key is named twice; `UndefinedColumn` where the key names no column;
/// `ProgramLimitExceeded` where there are more than 16 columns, or 1,024 tables already; the first
/// of these in this order. `OutOfMemory` may come in place of any answer. The elements are to
/// declare a key, as the form of CREATE TABLE demands.
pub(crate) fn new_columns(
    alloc: Global,
    elements: &[TableElement],
    table_count: usize,
) -> Result<Columns, Refusal>
    ensures { 0 < length (key_names_in elements.now) → Refines (λ layout meant. layout ≡ meant) result (checked_layout elements.now table_count) }
{
    let definitions = definitions_of(alloc, elements)?;
    let key = key_names(alloc, elements)?;
    if has_double_column(alloc, &definitions)? {
        return Err(Refusal(SqlState::DuplicateColumn));
    }
    if has_double(alloc, &key)? {
        return Err(Refusal(SqlState::DuplicateColumn));
    }
    let indexes = key_indexes(alloc, &definitions, &key)?;
    if !has_room(definitions.len(), table_count) {
        return Err(Refusal(SqlState::ProgramLimitExceeded));
    }
    let columns = columns_of(alloc, &definitions, &key)?;
    match Columns::new(columns, Items::from_vec(indexes)) {
        Some(columns) => Ok(columns),
        None => Err(Refusal(SqlState::SyntaxError)),
    }
}

// Whether there is room for so many columns, and for a table beside so many.
fn has_room(column_count: usize, table_count: usize) -> bool
    ensures { result ≡ (nat_le column_count 16 && nat_lt table_count 1024) }
{
    column_count <= MAX_COLUMNS && table_count < MAX_TABLES
}

// The definitions of columns among the elements.
fn definitions_of<'a>(
    alloc: Global,
    elements: &'a [TableElement],
) -> Result<Vec<&'a ColumnDefinition>, AllocError>
    ensures { IfOk result (λ definitions. map (λ d. d.now) definitions.items ≡ definitions_in elements.now) }
{
    let mut definitions = Vec::new(alloc);
    for element in elements {
        if let TableElement::Column(definition) = element {
            definitions.push(definition)?;
        }
    }
    Ok(definitions)
}

// The names of the key's columns: of the column that is marked, or of the list after PRIMARY KEY.
fn key_names<'a>(alloc: Global, elements: &'a [TableElement]) -> Result<Vec<&'a Name>, AllocError>
    ensures { IfOk result (λ names. map (λ n. n.now) names.items ≡ key_names_in elements.now) }
{
    let mut names = Vec::new(alloc);
    for element in elements {
        match element {
            TableElement::Column(definition) => {
                if is_primary_key(definition) {
                    names.push(&definition.column)?;
                }
            }
            TableElement::PrimaryKey(list) => push_names(&mut names, list.as_slice())?,
        }
    }
    Ok(names)
}

// Puts names after the others.
fn push_names<'a>(names: &mut Vec<&'a Name>, list: &'a [Name]) -> Result<(), AllocError>
    ensures { OnOk result (map (λ n. n.now) names.new.items ≡ map (λ n. n.now) names.old.items ++ list.now) }
{
    for name in list {
        names.push(name)?;
    }
    Ok(())
}

// Whether a column is marked as the key.
fn is_primary_key(definition: &ColumnDefinition) -> bool
    ensures { result ≡ list_any is_key_mark definition.now.constraints }
{
    let constraints = definition.constraints.as_slice();
    constraints
        .iter()
        .any(|constraint| *constraint == ColumnConstraint::PrimaryKey)
}

// Whether two columns have one name.
fn has_double_column(alloc: Global, definitions: &[&ColumnDefinition]) -> Result<bool, AllocError>
    ensures { IfOk result (λ double. double ≡ double_name (map (λ d. d.now.column) definitions.now)) }
{
    let mut names = Vec::new(alloc);
    for definition in definitions {
        names.push(&definition.column)?;
    }
    has_double(alloc, &names)
}

// The indexes of the key's columns.
fn key_indexes(
    alloc: Global,
    definitions: &[&ColumnDefinition],
    key: &[&Name],
) -> Result<Vec<usize>, Refusal>
    ensures { Refines (λ indexes found. indexes.items ≡ flat_map (index_in (map (λ d. d.now) definitions.now)) (map (λ n. n.now) key.now)) result (require (list_all (λ name. list_any (λ d. bytes_eq d.column name) (map (λ d. d.now) definitions.now)) (map (λ n. n.now) key.now)) UndefinedColumn) }
{
    let mut indexes = Vec::new(alloc);
    for name in key {
        match index_of(definitions, name) {
            Some(index) => indexes.push(index)?,
            None => return Err(Refusal(SqlState::UndefinedColumn)),
        }
    }
    Ok(indexes)
}

// The index of the column of a name.
fn index_of(definitions: &[&ColumnDefinition], name: &Name) -> Option<usize>
    ensures { result ≡ position (λ d. bytes_eq d.now.column name.now) definitions.now }
{
    definitions
        .iter()
        .position(|definition| definition.column == *name)
}

// The columns of a table with this key.
fn columns_of(
    alloc: Global,
    definitions: &[&ColumnDefinition],
    key: &[&Name],
) -> Result<Items<Column>, AllocError>
    ensures { IfOk result (λ columns. columns ≡ map (column_of (map (λ n. n.now) key.now)) (map (λ d. d.now) definitions.now)) }
{
    let mut columns = Items::new(alloc);
    for definition in definitions {
        columns.push(column(alloc, definition, key)?)?;
    }
    Ok(columns)
}

// A column, which is NOT NULL where it says so and where the key has it.
fn column(alloc: Global, definition: &ColumnDefinition, key: &[&Name]) -> Result<Column, AllocError>
    ensures { IfOk result (λ column. column ≡ column_of (map (λ n. n.now) key.now) definition.now) }
{
    Ok(Column {
        name: definition.column.try_copy(alloc)?,
        column_type: definition.column_type,
        not_null: is_not_null(definition, key),
    })
}

// Whether a column may hold no null.
fn is_not_null(definition: &ColumnDefinition, key: &[&Name]) -> bool
    ensures { result ≡ (column_of (map (λ n. n.now) key.now) definition.now).not_null }
{
    is_named_by(&definition.column, key) || is_marked_not_null(definition)
}

// Whether the key has the column.
fn is_named_by(column: &Name, key: &[&Name]) -> bool
    ensures { result ≡ list_any (λ n. bytes_eq column.now n.now) key.now }
{
    key.iter().any(|name| *column == **name)
}

// Whether a column is marked NOT NULL.
fn is_marked_not_null(definition: &ColumnDefinition) -> bool
    ensures { result ≡ list_any (λ c. not (is_key_mark c)) definition.now.constraints }
{
    let constraints = definition.constraints.as_slice();
    constraints
        .iter()
        .any(|constraint| *constraint == ColumnConstraint::NotNull)
}
