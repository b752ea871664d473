//! The check of all rows.

ghost use Rattle.std.specs.Prelude.{◌≡◌};
ghost use Rattle.store.specs.Readers.{HasRead};
ghost use Rattle.store.specs.Store.{StoreState};
ghost use Rattle.stored_database.specs.Records.{Define};
ghost use Rattle.catalogue_loading.specs.RowChecks.{ChecksRows};

use crate::row_tables::{check_orphans, check_tables};
use catalogue::definitions::Catalogue;
use std::alloc::Global;
use store::{Fault, Map};
use stored_database::one_catalogue;

/// Whether the records of rows are those of rows of the tables of this catalogue, which the other
/// records define: so they show a database. Of a table's row each column is there that the table
/// has, with a value of its type that is not null where the column is NOT NULL, within the limits of
/// a row; and no record of a row is of another table.
///
/// Device: the map answered it. Damaged: the record of a row is none of these, so the records stand
/// for no database.
pub fn check_rows<M: Map>(alloc: Global, map: &mut M, catalogue: &Catalogue) -> Result<(), Fault>
    ensures preserved { M.preserved map.old map.new }
    ensures read { HasRead result (M.state map.old) (M.state map.new) }
    ensures checked { (M.state map.old).sound → Define (M.state map.old).map catalogue.now
        → ChecksRows result (M.state map.old).map catalogue.now }
{
    // For the proof: records stand for one catalogue.
    one_catalogue();
    let tables = catalogue.tables();
    match check_tables(map, tables) {
        Ok(()) => check_orphans(alloc, map, tables),
        Err(fault) => Err(fault),
    }
}
