//! The changes that take the records of items to those of others, added to a batch.

ghost use Rattle.std.specs.Prelude.{◌≡◌, ◌≢◌, [], ◌∷◌, map, option_to_list, Err, OnOk};
ghost use Rattle.std.specs.Option.{option_copied};
ghost use Rattle.std.specs.List.{AllByRecursion};
ghost use Rattle.stored_database.specs.RecordFormat.{role_record, membership_record, table_record, descriptor_record, policy_record};
ghost use Rattle.catalogue_changes.specs.Differences.{differences};
ghost use Rattle.catalogue_changes.specs.Entries.{Adds, HaveRecordSizes, IsStorableDescriptor, AreStorableDescriptors, AreStorable};
ghost use Rattle.catalogue_changes.specs.SchemaChanges.{descriptor_entries as descriptor_entries_of, policy_entries as policy_entries_of};

use crate::entries::{
    descriptor_entries, membership_entries, policy_entries, role_entries, table_entries,
};
use catalogue::table::TableDefinition;
use entry_differences::push_differences;
use sql_ast::role::{Membership, Role};
use std::alloc::{AllocError, Global};
use store::{Batch, Fault};

/// Adds the change that takes the record of an old role, if there is one, to that of a new one, if
/// there is one: none where they are the same. After an error the batch may have some of the
/// changes, and the caller drops it.
pub fn push_role_change(
    alloc: Global,
    old: Option<&Role>,
    new: Option<&Role>,
    out: &mut Batch,
) -> Result<(), AllocError>
    ensures { OnOk result (Adds
        (differences (map role_record (option_to_list (option_copied old.entry)))
        (map role_record (option_to_list (option_copied new.entry)))) out.old out.new) }
{
    let removed = role_entries(alloc, old)?;
    let came = role_entries(alloc, new)?;
    push_differences(removed.as_slice(), came.as_slice(), out)
}

/// Adds the changes that take the records of memberships to those of others, both in their order:
/// one for each membership that goes, comes or differs. After an error the batch may have some of
/// the changes, and the caller drops it.
pub fn push_membership_changes(
    alloc: Global,
    old: &[Membership],
    new: &[Membership],
    out: &mut Batch,
) -> Result<(), AllocError>
    ensures { OnOk result (Adds
        (differences (map membership_record old.now) (map membership_record new.now))
        out.old out.new) }
{
    let removed = membership_entries(alloc, old)?;
    let came = membership_entries(alloc, new)?;
    push_differences(removed.as_slice(), came.as_slice(), out)
}

/// Adds the change that takes the record of an old table, if there is one, to that of a new one, if
/// there is one: none where they are the same. Damaged: a record has no size that a store takes.
/// After an error the batch may have some of the changes, and the caller drops it.
pub fn push_table_change(
    alloc: Global,
    old: Option<&TableDefinition>,
    new: Option<&TableDefinition>,
    out: &mut Batch,
) -> Result<(), Fault>
    ensures ok { OnOk result (Adds
        (differences (map table_record (option_to_list (option_copied old.entry)))
        (map table_record (option_to_list (option_copied new.entry)))) out.old out.new) }
    ensures undamaged { HaveRecordSizes
        (map table_record (option_to_list (option_copied old.entry)))
        → HaveRecordSizes (map table_record (option_to_list (option_copied new.entry)))
        → result ≢ Err Fault.Damaged }
    ensures no_device { result ≢ Err Fault.Device }
{
    let removed = table_entries(alloc, old)?;
    let came = table_entries(alloc, new)?;
    push_differences(removed.as_slice(), came.as_slice(), out)?;
    Ok(())
}

/// Adds the changes that take the records of an old table's privilege descriptors, if there is one,
/// to those of a table. Damaged: a descriptor has no record that a store takes. After an error the
/// batch may have some of the changes, and the caller drops it.
pub fn push_descriptor_changes(
    alloc: Global,
    old: Option<&TableDefinition>,
    table: &TableDefinition,
    out: &mut Batch,
) -> Result<(), Fault>
    ensures ok { OnOk result (Adds
        (differences (descriptor_entries_of (option_to_list (option_copied old.entry)))
        (map (descriptor_record table.now.id) table.now.descriptors)) out.old out.new) }
    ensures undamaged { AreStorableDescriptors (option_to_list (option_copied old.entry))
        → AllByRecursion (IsStorableDescriptor table.now.id) table.now.descriptors
        → result ≢ Err Fault.Damaged }
    ensures no_device { result ≢ Err Fault.Device }
{
    let came = descriptor_entries(alloc, table.id(), table.descriptors())?;
    let removed = match old {
        Some(old) => descriptor_entries(alloc, old.id(), old.descriptors())?,
        None => Vec::new(alloc),
    };
    push_differences(removed.as_slice(), came.as_slice(), out)?;
    Ok(())
}

/// Adds the changes that take the records of an old table's policies, if there is one, to those of
/// a table. Damaged: a policy has no record that a store takes. After an error the batch may have
/// some of the changes, and the caller drops it.
pub fn push_policy_changes(
    alloc: Global,
    old: Option<&TableDefinition>,
    table: &TableDefinition,
    out: &mut Batch,
) -> Result<(), Fault>
    ensures ok { OnOk result (Adds
        (differences (policy_entries_of (option_to_list (option_copied old.entry)))
        (map (policy_record table.now.id) table.now.policies)) out.old out.new) }
    ensures undamaged { AreStorable (option_to_list (option_copied old.entry))
        → AreStorable (table.now ∷ []) → result ≢ Err Fault.Damaged }
    ensures no_device { result ≢ Err Fault.Device }
{
    let came = policy_entries(alloc, table.id(), table.policies())?;
    let removed = match old {
        Some(old) => policy_entries(alloc, old.id(), old.policies())?,
        None => Vec::new(alloc),
    };
    push_differences(removed.as_slice(), came.as_slice(), out)?;
    Ok(())
}
