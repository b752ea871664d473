//! All definitions: roles, memberships and tables.

ghost use Rattle.std.specs.Prelude.{◌≡◌};
ghost use Rattle.store.specs.Store.{StoreState};
ghost use Rattle.store.specs.Readers.{HasRead};
ghost use Rattle.catalogue.specs.Catalogues.{definitions_of};
ghost use Rattle.catalogue_loading.specs.Found.{FindsAs};
ghost use Rattle.catalogue_loading.specs.Held.{AreHeldDefinitions};
ghost use Rattle.catalogue_loading.specs.Recorded.{ReadsDefinitions};

use crate::membership_records::MembershipReader;
use crate::orphans::check_orphans;
use crate::role_records::RoleReader;
use crate::tables::read_tables;
use crate::walk::load_items;
use catalogue::definitions::{Catalogue, CatalogueParts};
use std::alloc::{AllocError, Global};
use storage_sizes::RecordKind;
use store::{Fault, Map};

/// The definitions of a database, read from the records of a map, with the conditions of policies
/// bound to the columns of their tables. Each record is read once and each policy parsed once; then
/// one record for each kind and each table tells whether there are orphans.
///
/// Device: the map answered it. Damaged: one of the records is none that a database writes, so they
/// define nothing. That all records are well formed does not make their definitions valid together.
pub fn read_definitions<M: Map>(alloc: Global, map: &mut M) -> Result<Catalogue, Fault>
    ensures preserved { M.preserved map.old map.new }
    ensures read { HasRead result (M.state map.old) (M.state map.new) }
    ensures defined { (M.state map.old).sound → ReadsDefinitions result (M.state map.old).map }
{
    let parts = match read_parts(alloc, map) {
        Ok(parts) => parts,
        Err(fault) => return Err(fault),
    };
    if !parts.are_in_order() {
        return Err(Fault::Damaged);
    }
    match check_orphans(alloc, map, parts.tables.as_slice()) {
        Ok(()) => {}
        Err(fault) => return Err(fault),
    }
    match Catalogue::new(alloc, parts) {
        Ok(catalogue) => Ok(catalogue),
        Err(AllocError) => Err(Fault::Memory),
    }
}

// The roles, the memberships and the tables.
fn read_parts<M: Map>(alloc: Global, map: &mut M) -> Result<CatalogueParts, Fault>
    ensures preserved { M.preserved map.old map.new }
    ensures read { HasRead result (M.state map.old) (M.state map.new) }
    ensures found { (M.state map.old).sound
        → FindsAs definitions_of (AreHeldDefinitions (M.state map.old).map) result }
{
    let roles = match load_items(alloc, map, &[RecordKind::Role as u8], &RoleReader) {
        Ok(roles) => roles,
        Err(fault) => return Err(fault),
    };
    let memberships = match load_items(
        alloc,
        map,
        &[RecordKind::Membership as u8],
        &MembershipReader,
    ) {
        Ok(memberships) => memberships,
        Err(fault) => return Err(fault),
    };
    match read_tables(alloc, map) {
        Ok(tables) => Ok(CatalogueParts {
            roles,
            memberships,
            tables,
        }),
        Err(fault) => Err(fault),
    }
}
