//! The changes of records of statements that define, alter or drop a table.

ghost use Rattle.std.specs.Prelude.{◌≡◌, ◌≢◌, ◌⊎◌, Err, OnOk, IfErr};
ghost use Rattle.sql_types.specs.declared.state.SqlState.TheVariants.{OutOfMemory, IoError};
ghost use Rattle.store.specs.Records.{Records};
ghost use Rattle.store.specs.Readers.{HasRead};
ghost use Rattle.catalogue.specs.declared.change.SchemaChange.TheVariants as change;
ghost use Rattle.catalogue_changes.specs.SchemaChanges.{tables_named, row_entries, record_changes};
ghost use Rattle.catalogue_changes.specs.Entries.{Adds, IsStorableTable, AreStorableTables, IsNotStored};
ghost use Rattle.catalogue_changes.specs.Reads.{HaveKeySizes};

use crate::changes::{push_descriptor_changes, push_policy_changes, push_table_change};
use crate::part_removals::push_part_removals;
use catalogue::definitions::Catalogue;
use catalogue::table::TableDefinition;
use sql_types::name::Name;
use sql_types::state::{Refusal, SqlState};
use std::alloc::Global;
use store::{Batch, Fault, Map};

/// Adds the changes of records of a table that is put in a catalogue, new or in place of the one of
/// its name, whose rows stay: those of its own record, its privilege descriptors and its policies.
/// `OutOfMemory` comes only where memory was refused, `IoError` where a record has no size that a
/// store takes: those of the tables of a whole database have one. After an error the batch may have
/// some of the changes, and the caller drops it.
pub fn push_table_put(
    alloc: Global,
    catalogue: &Catalogue,
    table: &TableDefinition,
    out: &mut Batch,
) -> Result<(), Refusal>
    ensures changes { OnOk result ((records : Records)
        → Adds (record_changes (change.PutTable table.now) catalogue.now records) out.old out.new) }
    ensures refused { IfErr result (IsNotStored catalogue.now table.now) }
    ensures codes { IfErr result (λ e. (e.0 ≡ OutOfMemory) ⊎ (e.0 ≡ IoError)) }
{
    match push_table_records(alloc, catalogue, table, out) {
        Ok(()) => Ok(()),
        Err(Fault::Memory) => Err(Refusal(SqlState::OutOfMemory)),
        Err(_) => Err(Refusal(SqlState::IoError)),
    }
}

// Adds the same. Damaged: a record has no size that a store takes.
fn push_table_records(
    alloc: Global,
    catalogue: &Catalogue,
    table: &TableDefinition,
    out: &mut Batch,
) -> Result<(), Fault>
    ensures changes { OnOk result ((records : Records)
        → Adds (record_changes (change.PutTable table.now) catalogue.now records) out.old out.new) }
    ensures undamaged { AreStorableTables catalogue.now.tables → IsStorableTable table.now
        → result ≢ Err Fault.Damaged }
    ensures no_device { result ≢ Err Fault.Device }
{
    // For the proof: the list is in order.
    let _in_order = catalogue.tables();
    let old = catalogue.table(table.name());
    push_table_change(alloc, old, Some(table), out)?;
    push_descriptor_changes(alloc, old, table, out)?;
    push_policy_changes(alloc, old, table, out)?;
    Ok(())
}

/// Adds the changes of records of a table that is dropped from a catalogue, if it is there, from the
/// records of this map: it goes with its rows, privilege descriptors and policies. Device: the map
/// answered it. Damaged: a record has no size that a store takes. After an error the batch may have
/// some of the changes, and the caller drops it.
pub fn push_table_drop<M: Map>(
    alloc: Global,
    catalogue: &Catalogue,
    name: &Name,
    map: &mut M,
    out: &mut Batch,
) -> Result<(), Fault>
    ensures preserved { M.preserved map.old map.new }
    ensures read { HasRead result (M.state map.old) (M.state map.new) }
    ensures changes { (M.state map.old).sound → OnOk result (Adds
        (record_changes (change.DropTable name.now) catalogue.now (M.state map.old).map)
        out.old out.new) }
    ensures undamaged { (M.state map.old).sound → AreStorableTables catalogue.now.tables
        → HaveKeySizes (row_entries (M.state map.old).map (tables_named name.now catalogue.now))
        → result ≢ Err Fault.Damaged }
{
    // For the proof: the list is in order.
    let _in_order = catalogue.tables();
    let old = catalogue.table(name);
    push_table_change(alloc, old, None, out)?;
    push_part_removals(alloc, old, map, out)?;
    Ok(())
}
