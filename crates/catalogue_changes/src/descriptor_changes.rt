//! The changes of records of a change of the privilege descriptors of a table.

ghost use Rattle.std.specs.Prelude.{◌≡◌, ◌≢◌, ◌⊎◌, Err, OnOk, IfErr};
ghost use Rattle.sql_types.specs.declared.state.SqlState.TheVariants.{OutOfMemory, IoError};
ghost use Rattle.store.specs.Records.{Records};
ghost use Rattle.catalogue.specs.declared.change.SchemaChange.TheVariants.{SetDescriptors};
ghost use Rattle.catalogue.specs.Descriptors.{table_after};
ghost use Rattle.catalogue_changes.specs.DescriptorChanges.{IsChangeOf};
ghost use Rattle.catalogue_changes.specs.SchemaChanges.{record_changes};
ghost use Rattle.catalogue_changes.specs.Entries.{Adds, IsStorableTable, AreStorableTables, IsNotStored};
ghost use Rattle.catalogue_changes.specs.StatementChanges.{IsTableOf};

use crate::entries::descriptor_entries;
use catalogue::definitions::Catalogue;
use catalogue::descriptor_change::DescriptorChange;
use catalogue::table::TableDefinition;
use entry_differences::push_differences;
use sql_types::state::{Refusal, SqlState};
use std::alloc::Global;
use store::{Batch, Fault};

/// Adds the changes of records of a change of the privilege descriptors of a table of a catalogue: a
/// removal for each that goes, and a put for each that comes. `OutOfMemory` comes only where memory was
/// refused, `IoError` where a record has no size that a store takes: those of the tables of a whole
/// database have one. After an error the batch may have some of the changes, and the caller drops it.
pub fn push_descriptors_set(
    alloc: Global,
    catalogue: &Catalogue,
    table: &TableDefinition,
    change: &DescriptorChange,
    out: &mut Batch,
) -> Result<(), Refusal>
    requires table { IsTableOf catalogue.now change.now.table table.now }
    requires change { IsChangeOf table.now change.now }
    ensures changes { OnOk result ((records : Records)
        → Adds (record_changes (SetDescriptors change.now) catalogue.now records)
        out.old out.new) }
    ensures refused { IfErr result
        (IsNotStored catalogue.now (table_after change.now table.now)) }
    ensures codes { IfErr result (λ e. (e.0 ≡ OutOfMemory) ⊎ (e.0 ≡ IoError)) }
{
    match push_descriptor_records(alloc, catalogue, table, change, out) {
        Ok(()) => Ok(()),
        Err(Fault::Memory) => Err(Refusal(SqlState::OutOfMemory)),
        Err(_) => Err(Refusal(SqlState::IoError)),
    }
}

// Adds the same. Damaged: a record has no size that a store takes.
fn push_descriptor_records(
    alloc: Global,
    catalogue: &Catalogue,
    table: &TableDefinition,
    change: &DescriptorChange,
    out: &mut Batch,
) -> Result<(), Fault>
    requires table { IsTableOf catalogue.now change.now.table table.now }
    requires change { IsChangeOf table.now change.now }
    ensures changes { OnOk result ((records : Records)
        → Adds (record_changes (SetDescriptors change.now) catalogue.now records)
        out.old out.new) }
    ensures undamaged { AreStorableTables catalogue.now.tables
        → IsStorableTable (table_after change.now table.now) → result ≢ Err Fault.Damaged }
    ensures no_device { result ≢ Err Fault.Device }
{
    // For the proof: the list is in order.
    let _in_order = catalogue.tables();
    let removed = descriptor_entries(alloc, table.id(), change.removed())?;
    let added = descriptor_entries(alloc, table.id(), change.added())?;
    push_differences(removed.as_slice(), added.as_slice(), out)?;
    Ok(())
}
