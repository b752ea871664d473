//! The checks of the rows of each table, and of the rows of no table.

ghost use Rattle.std.specs.Prelude.{◌≡◌};
ghost use Rattle.store.specs.Readers.{HasRead};
ghost use Rattle.store.specs.Store.{StoreState};
ghost use Rattle.row_codec.specs.Rows.{row_prefix};
ghost use Rattle.stored_database.specs.Definitions.{ids_of};
ghost use Rattle.stored_database.specs.RecordFormat.{rows_prefix};
ghost use Rattle.catalogue_loading.specs.RecordChecks.{ChecksRecords, IsNoOrphanRow, IsRowRecord};
ghost use Rattle.catalogue_loading.specs.RowChecks.{ChecksTables};

use crate::orphan_records::{OrphanTest, Orphans};
use crate::prefix_checks::check_prefixes;
use crate::record_checks::check_records;
use crate::row_records::RowTest;
use catalogue::numbers::table_ids;
use catalogue::table::TableDefinition;
use std::alloc::Global;
use store::{Fault, Map};

/// Whether each record of a row of these tables is that of a row which its table may hold. Device:
/// the map answered it. Damaged: one of the records is not.
pub(crate) fn check_tables<M: Map>(map: &mut M, tables: &[TableDefinition]) -> Result<(), Fault>
    ensures preserved { M.preserved map.old map.new }
    ensures read { HasRead result (M.state map.old) (M.state map.new) }
    ensures checked { (M.state map.old).sound
        → ChecksTables result (M.state map.old).map tables.now }
{
    for table in tables {
        match check_table(map, table) {
            Ok(()) => {}
            Err(fault) => return Err(fault),
        }
    }
    Ok(())
}

// Whether each record of a row of this table is that of a row which the table may hold.
fn check_table<M: Map>(map: &mut M, table: &TableDefinition) -> Result<(), Fault>
    ensures preserved { M.preserved map.old map.new }
    ensures read { HasRead result (M.state map.old) (M.state map.new) }
    ensures checked { (M.state map.old).sound
        → ChecksRecords (IsRowRecord table.now.id table.now.definition.layout)
        (M.state map.old).map (row_prefix table.now.id) result }
{
    let test = RowTest::new(table.id(), table.columns());
    check_records(map, &test.prefix(), &test)
}

/// Whether each record of a row is of one of these tables, by the first record of each table. Device: the map answered it.
/// Damaged: one of the records is of none.
pub(crate) fn check_orphans<M: Map>(
    alloc: Global,
    map: &mut M,
    tables: &[TableDefinition],
) -> Result<(), Fault>
    ensures preserved { M.preserved map.old map.new }
    ensures read { HasRead result (M.state map.old) (M.state map.new) }
    ensures checked { (M.state map.old).sound
        → ChecksRecords (IsNoOrphanRow (ids_of tables.now)) (M.state map.old).map rows_prefix
        result }
{
    let ids = table_ids(alloc, tables)?;
    let test = OrphanTest {
        orphans: Orphans::OfRows,
        ids: ids.as_slice(),
    };
    check_prefixes(map, &test)
}
