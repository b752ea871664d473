//! Rows: whether each of their records is that of a row which its table may hold.

ghost use Rattle.std.specs.Prelude.{◌≡◌, ◌↔◌, ℕ, List, IsTrue};
ghost use Rattle.sql_types.specs.Row.{Row};
ghost use Rattle.sql_ast.specs.Fits.{FitsTable};
ghost use Rattle.sql_ast.specs.Layout.{Layout};
ghost use Rattle.store.specs.Records.{Records};
ghost use Rattle.row_codec.specs.Rows.{row_prefix};
ghost use Rattle.stored_database.specs.RecordFormat.{row_record};
ghost use Rattle.catalogue_loading.specs.RecordChecks.{AllPass, IsRowRecord};
ghost use Rattle.catalogue_loading.specs.Walks.{AreHeld};

use crate::bytes::after_table;
use crate::record_checks::RecordTest;
use row_codec::{table_prefix, view};
use sql_ast::columns::Columns;
use storage_sizes::RecordKind;
use store::EntryRef;

/// The test of the records of the rows of one table.
#[derive(Drop)]
pub struct RowTest<'a> {
    /// The number of the table.
    pub id: u32,
    /// The columns of the table and its key.
    pub columns: &'a Columns,
}

impl<'a> RowTest<'a> {
    /// The test for the table of this number and these columns.
    pub fn new(id: u32, columns: &'a Columns) -> RowTest<'a>
        ensures id { result.id ≡ id }
        ensures columns { result.columns.now ≡ columns.now }
    {
        RowTest { id, columns }
    }

    /// What the keys of these records begin with.
    pub fn prefix(&self) -> [u8; 5]
        ensures { result ≡ row_prefix self.now.id }
    {
        table_prefix(RecordKind::Row, self.id)
    }
}

impl<'a> RecordTest for RowTest<'a> {
    ghost use Rattle.catalogue_loading.specs.RecordChecks.{IsRowRecord};

    ghost Passes = { λ test. IsRowRecord test.id test.columns.now };

    fn passes(&self, entry: &EntryRef<'_>) -> bool {
        is_row(self.id, self.columns, entry.key, entry.value)
    }
}

// Whether the record of this key and value is that of a row which the table of this number and these
// columns may hold.
fn is_row(id: u32, columns: &Columns, key: &[u8], value: &[u8]) -> bool
    ensures { IsTrue result ↔ IsRowRecord id columns.now (key.now, value.now) }
{
    match after_table(RecordKind::Row, id, key) {
        Some(rest) => view(columns, rest, value).is_some(),
        None => false,
    }
}

/// Where each record of a table is that of a row, the records hold rows which the table may hold,
/// and no records hold such rows otherwise.
pub fn rows_of_records()
    ensures found { (id : ℕ) (layout : Layout) (records : Records)
        → AllPass (IsRowRecord id layout) records (row_prefix id)
        → (rows : List Row) × AreHeld (FitsTable layout) (row_record id layout) records
        (row_prefix id) rows }
    ensures only { (id : ℕ) (layout : Layout) (records : Records) (rows : List Row)
        → AreHeld (FitsTable layout) (row_record id layout) records (row_prefix id) rows
        → AllPass (IsRowRecord id layout) records (row_prefix id) }
{}
