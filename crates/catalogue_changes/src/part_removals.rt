//! The removals of the records of what belongs to a table, added to the changes of a batch.

ghost use Rattle.std.specs.Prelude.{◌≡◌, ◌≢◌, [], ◌∷◌, ◌++◌, map, option_to_list, Err, OnOk};
ghost use Rattle.std.specs.List.{AllByRecursion};
ghost use Rattle.std.specs.Option.{option_copied};
ghost use Rattle.store.specs.Readers.{HasRead};
ghost use Rattle.catalogue_changes.specs.Differences.{differences};
ghost use Rattle.catalogue_changes.specs.SchemaChanges.{descriptor_entries as descriptor_entries_of, policy_entries as policy_entries_of, row_entries, part_removals};
ghost use Rattle.catalogue_changes.specs.Entries.{Adds, IsStorableDescriptor, IsStorable, IsStorableTable, AreStorableTables};
ghost use Rattle.catalogue_changes.specs.Reads.{HaveKeySizes};

use crate::entries::{descriptor_entries, policy_entries};
use crate::row_removals::push_row_removals;
use catalogue::table::TableDefinition;
use entry_differences::push_differences;
use std::alloc::Global;
use store::{Batch, Fault, Map};

/// Adds the removals of the records of the privilege descriptors, the policies and the rows of a
/// table, if there is one. Device: the map answered it. Damaged: one of the records has no size
/// that a store takes.
pub(crate) fn push_part_removals<M: Map>(
    alloc: Global,
    table: Option<&TableDefinition>,
    map: &mut M,
    out: &mut Batch,
) -> Result<(), Fault>
    ensures preserved { M.preserved map.old map.new }
    ensures read { HasRead result (M.state map.old) (M.state map.new) }
    ensures ok { (M.state map.old).sound → OnOk result (Adds
        (part_removals (M.state map.old).map (option_to_list (option_copied table.entry)))
        out.old out.new) }
    ensures undamaged { (M.state map.old).sound
        → AreStorableTables (option_to_list (option_copied table.entry))
        → HaveKeySizes
        (row_entries (M.state map.old).map (option_to_list (option_copied table.entry)))
        → result ≢ Err Fault.Damaged }
{
    let Some(table) = table else {
        return Ok(());
    };
    match push_definition_removals(alloc, table, out) {
        Ok(()) => push_row_removals(alloc, table.id(), map, out),
        Err(fault) => Err(fault),
    }
}

// Adds the removals of the records of a table's privilege descriptors and policies.
fn push_definition_removals(
    alloc: Global,
    table: &TableDefinition,
    out: &mut Batch,
) -> Result<(), Fault>
    ensures ok { OnOk result (Adds (differences (descriptor_entries_of (table.now ∷ [])) []
        ++ differences (policy_entries_of (table.now ∷ [])) []) out.old out.new) }
    ensures undamaged { IsStorableTable table.now → result ≢ Err Fault.Damaged }
    ensures no_device { result ≢ Err Fault.Device }
{
    push_descriptor_removals(alloc, table, out)?;
    push_policy_removals(alloc, table, out)?;
    Ok(())
}

// Adds the removals of the records of a table's privilege descriptors.
fn push_descriptor_removals(
    alloc: Global,
    table: &TableDefinition,
    out: &mut Batch,
) -> Result<(), Fault>
    ensures ok { OnOk result
        (Adds (differences (descriptor_entries_of (table.now ∷ [])) []) out.old out.new) }
    ensures undamaged { AllByRecursion (IsStorableDescriptor table.now.id) table.now.descriptors
        → result ≢ Err Fault.Damaged }
    ensures no_device { result ≢ Err Fault.Device }
{
    let removed = descriptor_entries(alloc, table.id(), table.descriptors())?;
    let none = Vec::new(alloc);
    push_differences(removed.as_slice(), none.as_slice(), out)?;
    Ok(())
}

// Adds the removals of the records of a table's policies.
fn push_policy_removals(
    alloc: Global,
    table: &TableDefinition,
    out: &mut Batch,
) -> Result<(), Fault>
    ensures ok { OnOk result
        (Adds (differences (policy_entries_of (table.now ∷ [])) []) out.old out.new) }
    ensures undamaged { AllByRecursion (IsStorable table.now.id) table.now.policies
        → result ≢ Err Fault.Damaged }
    ensures no_device { result ≢ Err Fault.Device }
{
    let removed = policy_entries(alloc, table.id(), table.policies())?;
    let none = Vec::new(alloc);
    push_differences(removed.as_slice(), none.as_slice(), out)?;
    Ok(())
}
