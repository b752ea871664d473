//! The records of roles, memberships, tables, privilege descriptors and policies.

ghost use Rattle.std.specs.Prelude.{◌≡◌, ◌≢◌, map, option_to_list, Err, IfOk};
ghost use Rattle.std.specs.Option.{option_copied};
ghost use Rattle.std.specs.List.{AllByRecursion};
ghost use Rattle.stored_database.specs.RecordFormat.{role_record, membership_record, table_record, descriptor_record, policy_record};
ghost use Rattle.stored_database.specs.Entries.{IsRecordSize};
ghost use Rattle.catalogue.specs.Policies.{policies_in};
ghost use Rattle.catalogue_changes.specs.Entries.{HaveRecordSizes, IsStorable, IsStorableDescriptor};

use crate::encode::{descriptor_entry, membership_entry, policy_entry, role_entry, table_entry};
use catalogue::policy::CataloguePolicy;
use catalogue::table::TableDefinition;
use sql_ast::privilege::Descriptor;
use sql_ast::role::{Membership, Role};
use std::alloc::{AllocError, Global};
use store::{Entry, Fault};

/// The record of a role, where there is one.
pub(crate) fn role_entries(alloc: Global, role: Option<&Role>) -> Result<Vec<Entry>, AllocError>
    ensures records { IfOk result (λ entries. entries.items
        ≡ map role_record (option_to_list (option_copied role.entry))) }
    ensures sizes { IfOk result (λ entries. HaveRecordSizes entries.items) }
{
    let mut entries = Vec::new(alloc);
    let Some(role) = role else {
        return Ok(entries);
    };
    entries.push(role_entry(alloc, role)?)?;
    Ok(entries)
}

/// The records of memberships.
pub(crate) fn membership_entries(
    alloc: Global,
    memberships: &[Membership],
) -> Result<Vec<Entry>, AllocError>
    ensures records { IfOk result
        (λ entries. entries.items ≡ map membership_record memberships.now) }
    ensures sizes { IfOk result (λ entries. HaveRecordSizes entries.items) }
{
    let mut entries = Vec::new(alloc);
    for membership in memberships {
        entries.push(membership_entry(alloc, membership)?)?;
    }
    Ok(entries)
}

/// The record of a table, where there is one. Damaged: it has no size that a store takes.
pub(crate) fn table_entries(
    alloc: Global,
    table: Option<&TableDefinition>,
) -> Result<Vec<Entry>, Fault>
    ensures records { IfOk result (λ entries. entries.items
        ≡ map table_record (option_to_list (option_copied table.entry))) }
    ensures sizes { IfOk result (λ entries. HaveRecordSizes entries.items) }
    ensures undamaged { HaveRecordSizes
        (map table_record (option_to_list (option_copied table.entry)))
        → result ≢ Err Fault.Damaged }
    ensures no_device { result ≢ Err Fault.Device }
{
    let mut entries = Vec::new(alloc);
    let Some(table) = table else {
        return Ok(entries);
    };
    entries.push(table_entry(alloc, table)?)?;
    Ok(entries)
}

/// The records of the privilege descriptors for the table of this number. Damaged: a descriptor has
/// no record that a store takes.
pub(crate) fn descriptor_entries(
    alloc: Global,
    table: u32,
    descriptors: &[Descriptor],
) -> Result<Vec<Entry>, Fault>
    ensures records { IfOk result
        (λ entries. entries.items ≡ map (descriptor_record table) descriptors.now) }
    ensures sizes { IfOk result (λ entries. HaveRecordSizes entries.items) }
    ensures undamaged { AllByRecursion (IsStorableDescriptor table) descriptors.now
        → result ≢ Err Fault.Damaged }
    ensures no_device { result ≢ Err Fault.Device }
{
    let mut entries = Vec::new(alloc);
    for descriptor in descriptors {
        entries.push(descriptor_entry(alloc, table, descriptor)?)?;
    }
    Ok(entries)
}

/// The records of the policies of the table of this number. Damaged: a policy has no record that a
/// store takes.
pub(crate) fn policy_entries(
    alloc: Global,
    table: u32,
    policies: &[CataloguePolicy],
) -> Result<Vec<Entry>, Fault>
    ensures records { IfOk result
        (λ entries. entries.items ≡ map (policy_record table) (policies_in policies.now)) }
    ensures sizes { IfOk result (λ entries. HaveRecordSizes entries.items) }
    ensures undamaged { AllByRecursion (IsStorable table) (policies_in policies.now)
        → result ≢ Err Fault.Damaged }
    ensures no_device { result ≢ Err Fault.Device }
{
    let mut entries = Vec::new(alloc);
    for policy in policies {
        entries.push(policy_entry(alloc, table, &policy.policy)?)?;
    }
    Ok(entries)
}
