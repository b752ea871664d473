//! The tables, each from its own record, with its privilege descriptors and its policies.

ghost use Rattle.std.specs.Prelude.{◌≡◌};
ghost use Rattle.store.specs.Store.{StoreState};
ghost use Rattle.store.specs.Readers.{HasRead};
ghost use Rattle.catalogue_loading.specs.Found.{Finds};
ghost use Rattle.catalogue_loading.specs.Held.{AreHeldOf, AreHeldTables, IsHeldTable};

use crate::parts::{read_descriptors, read_policies};
use crate::table_records::{TableReader, TableRecord};
use crate::walk::load_items;
use catalogue::table::{TableDefinition, TableParts};
use sql_types::items::Items;
use std::alloc::Global;
use storage_sizes::RecordKind;
use store::{Fault, Map};

/// The tables. Device: the map answered it. Damaged: one of the records spells no table, or one of
/// those of its descriptors and policies none of them.
pub(crate) fn read_tables<M: Map>(
    alloc: Global,
    map: &mut M,
) -> Result<Items<TableDefinition>, Fault>
    ensures preserved { M.preserved map.old map.new }
    ensures read { HasRead result (M.state map.old) (M.state map.new) }
    ensures found { (M.state map.old).sound
        → Finds (AreHeldTables (M.state map.old).map) result }
{
    match load_items(alloc, map, &[RecordKind::Table as u8], &TableReader) {
        Ok(records) => read_each(alloc, map, records),
        Err(fault) => Err(fault),
    }
}

// The tables of which these are the own records.
fn read_each<M: Map>(
    alloc: Global,
    map: &mut M,
    records: Items<TableRecord>,
) -> Result<Items<TableDefinition>, Fault>
    ensures preserved { M.preserved map.old map.new }
    ensures read { HasRead result (M.state map.old) (M.state map.new) }
    ensures found { (M.state map.old).sound
        → Finds (AreHeldOf (M.state map.old).map records) result }
{
    let mut tables = Items::new(alloc);
    for own in records.into_vec() {
        match read_table(alloc, map, own) {
            Ok(table) => tables.push(table)?,
            Err(fault) => return Err(fault),
        }
    }
    Ok(tables)
}

// The table of which this is the own record.
fn read_table<M: Map>(
    alloc: Global,
    map: &mut M,
    own: TableRecord,
) -> Result<TableDefinition, Fault>
    ensures preserved { M.preserved map.old map.new }
    ensures read { HasRead result (M.state map.old) (M.state map.new) }
    ensures found { (M.state map.old).sound
        → Finds (IsHeldTable (M.state map.old).map own) result }
{
    let descriptors = match read_descriptors(alloc, map, own.id, &own.name) {
        Ok(descriptors) => descriptors,
        Err(fault) => return Err(fault),
    };
    let policies = match read_policies(alloc, map, own.id, &own.name, &own.columns) {
        Ok(policies) => policies,
        Err(fault) => return Err(fault),
    };
    let parts = TableParts {
        id: own.id,
        name: own.name,
        owner: own.owner,
        columns: own.columns,
        row_security: own.row_security,
        forced: own.forced,
        descriptors,
        policies,
    };
    if !parts.are_in_order() {
        return Err(Fault::Damaged);
    }
    let table = TableDefinition::new(alloc, parts)?;
    Ok(table)
}
