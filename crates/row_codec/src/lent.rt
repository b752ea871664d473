//! Rows whose texts are lent, until they are kept.
ghost use Rattle.std.specs.Prelude.{◌≡◌, ◌++◌, ◌∷◌, [], map, IfOk, OnOk};
ghost use Rattle.sql_types.specs.Value.{owned};

use sql_types::items::Items;
use sql_types::row::RowView;
use sql_types::value::{Value, ValueRef};
use std::alloc::{AllocError, Global};
use std::marker::Model;

/// Values whose texts are lent, as a row. Contracts see it as its values.
#[derive(Drop)]
pub struct LentRow<'a> {
    values: Items<ValueRef<'a>>,
}

impl<'a> Model for LentRow<'a> {
    ghost use Rattle.std.specs.Prelude.{map};
    ghost use Rattle.sql_types.specs.Row.{Row};
    ghost use Rattle.sql_types.specs.Value.{owned};

    ghost Value = { Row };

    ghost view = { λ r. map owned r.values };
}

impl<'a> RowView for LentRow<'a> {
    ghost use Rattle.std.specs.Prelude.{ℕ};
    ghost use Rattle.sql_types.specs.declared.value.Value.{Value};
    ghost use Rattle.row_codec.specs.InPlace.{table_cell};

    ghost cell = { table_cell };

    fn value(&self, table: usize, column: usize) -> ValueRef<'_> {
        if table > 0 {
            return ValueRef::Null;
        }
        match self.values.get(column) {
            Some(value) => *value,
            None => ValueRef::Null,
        }
    }
}

impl<'a> LentRow<'a> {
    /// A row without columns. Nothing is allocated yet.
    pub fn new(alloc: Global) -> LentRow<'a>
        ensures { result ≡ [] }
    {
        LentRow {
            values: Items::new(alloc),
        }
    }

    /// A row, lent.
    pub fn of(alloc: Global, row: &'a [Value]) -> Result<LentRow<'a>, AllocError>
        ensures { IfOk result (λ lent. lent ≡ row.now) }
    {
        let mut lent = LentRow::new(alloc);
        for value in row {
            lent.push(value.as_ref())?;
        }
        Ok(lent)
    }

    /// Appends a value.
    pub fn push(&mut self, value: ValueRef<'a>) -> Result<(), AllocError>
        ensures ok { OnOk result (self.new ≡ self.old ++ owned value.entry ∷ []) }
    {
        self.values.push(value)
    }

    /// The values, lent.
    pub fn as_slice(&self) -> &[ValueRef<'a>]
        ensures { map owned result.now ≡ self.now }
    {
        self.values.as_slice()
    }

    /// The row with texts of its own.
    pub fn to_row(&self, alloc: Global) -> Result<Items<Value>, AllocError>
        ensures { IfOk result (λ row. row ≡ self.now) }
    {
        let mut row = Items::new(alloc);
        for value in self.values.as_slice() {
            row.push(value.to_value(alloc)?)?;
        }
        Ok(row)
    }
}

/// Rows, lent.
pub fn lent_rows<'a>(
    alloc: Global,
    rows: &'a Items<Items<Value>>,
) -> Result<Items<LentRow<'a>>, AllocError>
    ensures { IfOk result (λ lent. lent ≡ rows.now) }
{
    let mut lent = Items::new(alloc);
    for row in rows.as_slice() {
        lent.push(LentRow::of(alloc, row.as_slice())?)?;
    }
    Ok(lent)
}
