//! What a table has beside its own record: its privilege descriptors and its policies.

ghost use Rattle.std.specs.Prelude.{IfOk};
ghost use Rattle.store.specs.Store.{StoreState};
ghost use Rattle.store.specs.Readers.{HasRead};
ghost use Rattle.abstract_database.specs.Whole.{Each};
ghost use Rattle.stored_database.specs.Items.{IsStoredDescriptor};
ghost use Rattle.stored_database.specs.RecordFormat.{descriptor_prefix, descriptor_record};
ghost use Rattle.catalogue.specs.Policies.{scope_of, IsBoundPolicy, policies_in};
ghost use Rattle.catalogue_loading.specs.Walks.{LoadsItems};
ghost use Rattle.catalogue_loading.specs.Found.{FindsAs};
ghost use Rattle.catalogue_loading.specs.Held.{AreHeldPolicies, BindsPolicies};

use crate::descriptor_records::DescriptorReader;
use crate::policy_records::PolicyReader;
use crate::walk::load_items;
use catalogue::policy::{CataloguePolicy, bind_policy};
use sql_ast::columns::Columns;
use sql_ast::policy::Policy;
use sql_ast::privilege::Descriptor;
use sql_types::items::Items;
use sql_types::name::Name;
use std::alloc::{AllocError, Global};
use store::{Fault, Map};
use stored_database::one_list_of_policies;

/// The privilege descriptors for the table of this number and this name. Device: the map answered
/// it. Damaged: one of their records spells none.
pub(crate) fn read_descriptors<M: Map>(
    alloc: Global,
    map: &mut M,
    id: u32,
    table: &Name,
) -> Result<Items<Descriptor>, Fault>
    ensures preserved { M.preserved map.old map.new }
    ensures read { HasRead result (M.state map.old) (M.state map.new) }
    ensures loaded { (M.state map.old).sound
        → LoadsItems (IsStoredDescriptor table.now) (descriptor_record id) (M.state map.old).map
        (descriptor_prefix id) result }
{
    let reader = DescriptorReader::new(id, table);
    load_items(alloc, map, &reader.prefix(), &reader)
}

/// The policies of the table of this number, this name and these columns, bound to the columns.
/// Device: the map answered it. Damaged: one of their records spells none, or one of their
/// conditions is no BOOLEAN expression over the columns.
pub(crate) fn read_policies<M: Map>(
    alloc: Global,
    map: &mut M,
    id: u32,
    table: &Name,
    columns: &Columns,
) -> Result<Items<CataloguePolicy>, Fault>
    ensures preserved { M.preserved map.old map.new }
    ensures read { HasRead result (M.state map.old) (M.state map.new) }
    ensures found { (M.state map.old).sound → FindsAs policies_in
        (AreHeldPolicies (M.state map.old).map id table.now columns.now) result }
    ensures bound { IfOk result (Each (IsBoundPolicy (scope_of table.now columns.now))) }
{
    // For the proof: records stand for one list of policies.
    one_list_of_policies();
    let reader = PolicyReader::new(id, table);
    let policies = match load_items(alloc, map, &reader.prefix(), &reader) {
        Ok(policies) => policies,
        Err(fault) => return Err(fault),
    };
    match bind_policies(alloc, policies, table, columns) {
        Ok(Some(bound)) => Ok(bound),
        Ok(None) => Err(Fault::Damaged),
        Err(AllocError) => Err(Fault::Memory),
    }
}

// Policies with their conditions bound to the columns of a table, or `None` where one of the
// conditions is no BOOLEAN expression over them.
fn bind_policies(
    alloc: Global,
    policies: Items<Policy>,
    table: &Name,
    columns: &Columns,
) -> Result<Option<Items<CataloguePolicy>>, AllocError>
    ensures { IfOk result (BindsPolicies (scope_of table.now columns.now) policies) }
{
    let mut bound = Items::new(alloc);
    for policy in policies.into_vec() {
        match bind_policy(alloc, policy, table, columns)? {
            Some(policy) => bound.push(policy)?,
            None => return Ok(None),
        }
    }
    Ok(Some(bound))
}
