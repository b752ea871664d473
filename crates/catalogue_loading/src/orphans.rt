//! Orphans: records of no kind, and of a table that there is not.

ghost use Rattle.std.specs.Prelude.{◌≡◌};
ghost use Rattle.store.specs.Store.{StoreState};
ghost use Rattle.store.specs.Readers.{HasRead};
ghost use Rattle.stored_database.specs.Definitions.{ids_of};
ghost use Rattle.catalogue_loading.specs.Found.{Finds};
ghost use Rattle.catalogue_loading.specs.Held.{HasNoOrphan};

use crate::orphan_records::{OrphanTest, Orphans, no_orphan_is_left};
use crate::prefix_checks::check_prefixes;
use catalogue::numbers::table_ids;
use catalogue::table::TableDefinition;
use std::alloc::Global;
use store::{Fault, Map};

/// Finds no orphan among all records where these are the tables, by one record for each kind and each table. Device: the map
/// answered it. Damaged: one of the records is an orphan.
pub(crate) fn check_orphans<M: Map>(
    alloc: Global,
    map: &mut M,
    tables: &[TableDefinition],
) -> Result<(), Fault>
    ensures preserved { M.preserved map.old map.new }
    ensures read { HasRead result (M.state map.old) (M.state map.new) }
    ensures found { (M.state map.old).sound
        → Finds (λ _. HasNoOrphan (ids_of tables.now) (M.state map.old).map) result }
{
    // For the proof: where every key passed the test, no record is an orphan.
    no_orphan_is_left();
    let ids = table_ids(alloc, tables)?;
    let test = OrphanTest {
        orphans: Orphans::OfDefinitions,
        ids: &ids,
    };
    check_prefixes(map, &test)
}
