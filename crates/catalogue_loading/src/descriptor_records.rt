//! Privilege descriptors from their records.

ghost use Rattle.std.specs.Prelude.{◌≡◌, ◌∷◌, [], ◌++◌, MatchOption};
ghost use Rattle.sql_ast.specs.declared.privilege.Action.{Action};
ghost use Rattle.sql_ast.specs.Read.{IsReadGrantee};
ghost use Rattle.abstract_database.specs.Database.{action_number};
ghost use Rattle.stored_database.specs.Items.{IsStoredDescriptor, IsStoredGrantor};
ghost use Rattle.stored_database.specs.RecordFormat.{descriptor_prefix, descriptor_record, place_byte};
ghost use Rattle.catalogue_loading.specs.Decoding.{Decodes, DecodesFront};
ghost use Rattle.catalogue_loading.specs.Parties.{AreParties, IsStoredColumn, grantee_bytes, grantor_bytes, parties_bytes};

use crate::bytes::{after, after_table, name_at, only_bit};
use crate::walk::ItemReader;
use row_codec::table_prefix;
use sql_ast::privilege::{Action, Descriptor, Grantee, Grantor};
use sql_types::name::Name;
use sql_types::try_copy::TryCopy;
use std::alloc::Global;
use storage_sizes::RecordKind;
use store::{Entry, Fault};

/// The place of the last column that a table may have.
const LAST_PLACE: u8 = 16;

/// The reader of the records of the privilege descriptors for one table.
#[derive(Drop)]
pub struct DescriptorReader<'a> {
    /// The number of the table.
    pub id: u32,
    /// The name of the table.
    pub table: &'a Name,
}

impl<'a> DescriptorReader<'a> {
    /// The reader for the table of this number and this name.
    pub fn new(id: u32, table: &'a Name) -> DescriptorReader<'a>
        ensures id { result.id ≡ id }
        ensures table { result.table.now ≡ table.now }
    {
        DescriptorReader { id, table }
    }

    /// What the keys of these records begin with.
    pub fn prefix(&self) -> [u8; 5]
        ensures { result ≡ descriptor_prefix self.now.id }
    {
        table_prefix(RecordKind::Descriptor, self.id)
    }
}

impl<'a> ItemReader for DescriptorReader<'a> {
    type Item = Descriptor;

    ghost use Rattle.stored_database.specs.Items.{IsStoredDescriptor};
    ghost use Rattle.stored_database.specs.RecordFormat.{descriptor_record};

    ghost IsValid = { λ reader. IsStoredDescriptor reader.table.now };

    ghost spell = { λ reader. descriptor_record reader.id };

    fn read(&self, alloc: Global, entry: &Entry) -> Result<Descriptor, Fault> {
        decode_descriptor(alloc, self.id, self.table, entry)
    }
}

/// The action of a number, or `None` where it is the number of none.
pub fn action_of(number: u8) -> Option<Action>
    ensures { MatchOption result
        ((action : Action) → action_number action ≡ number → ⊥)
        (λ action. action_number action ≡ number) }
{
    match number {
        1 => Some(Action::Select),
        2 => Some(Action::Insert),
        3 => Some(Action::Update),
        4 => Some(Action::Delete),
        _ => None,
    }
}

// The column of a place: none where it is 0, that of the whole table. Damaged: no table has so many
// columns.
fn column_at(place: u8) -> Result<Option<usize>, Fault>
    ensures { Decodes IsStoredColumn place_byte place result }
{
    match place {
        0 => Ok(None),
        1..=LAST_PLACE => Ok(Some(place as usize - 1)),
        _ => Err(Fault::Damaged),
    }
}

// Who granted: the system where the bytes begin with a zero byte, or else the role of the name
// before it.
fn grantor_at(alloc: Global, bytes: &[u8]) -> Result<(Grantor, &[u8]), Fault>
    ensures { DecodesFront IsStoredGrantor grantor_bytes bytes.now result }
{
    if let Some(rest) = after(&[0], bytes) {
        return Ok((Grantor::System, rest));
    }
    match name_at(alloc, bytes) {
        Ok((name, rest)) => Ok((Grantor::Role(name), rest)),
        Err(fault) => Err(fault),
    }
}

// To whom: PUBLIC where the bytes begin with a zero byte, or else the role of the name before it.
fn grantee_at(alloc: Global, bytes: &[u8]) -> Result<(Grantee, &[u8]), Fault>
    ensures { DecodesFront IsReadGrantee grantee_bytes bytes.now result }
{
    if let Some(rest) = after(&[0], bytes) {
        return Ok((Grantee::Public, rest));
    }
    match name_at(alloc, bytes) {
        Ok((name, rest)) => Ok((Grantee::Role(name), rest)),
        Err(fault) => Err(fault),
    }
}

// The grantor and the grantee that are all there is.
fn decode_parties(alloc: Global, bytes: &[u8]) -> Result<(Grantor, Grantee), Fault>
    ensures { Decodes AreParties parties_bytes bytes.now result }
{
    let (grantor, rest) = match grantor_at(alloc, bytes) {
        Ok(front) => front,
        Err(fault) => return Err(fault),
    };
    let (grantee, rest) = match grantee_at(alloc, rest) {
        Ok(front) => front,
        Err(fault) => return Err(fault),
    };
    if !rest.is_empty() {
        return Err(Fault::Damaged);
    }
    Ok((grantor, grantee))
}

fn decode_descriptor(
    alloc: Global,
    id: u32,
    table: &Name,
    entry: &Entry,
) -> Result<Descriptor, Fault>
    ensures { Decodes (IsStoredDescriptor table.now) (descriptor_record id) entry.now result }
{
    let Some(rest) = after_table(RecordKind::Descriptor, id, entry.key()) else {
        return Err(Fault::Damaged);
    };
    let Some((number, placed)) = rest.split_first() else {
        return Err(Fault::Damaged);
    };
    let Some((place, parties)) = placed.split_first() else {
        return Err(Fault::Damaged);
    };
    let Some(action) = action_of(*number) else {
        return Err(Fault::Damaged);
    };
    let column = match column_at(*place) {
        Ok(column) => column,
        Err(fault) => return Err(fault),
    };
    let Some(grantable) = only_bit(entry.value()) else {
        return Err(Fault::Damaged);
    };
    let (grantor, grantee) = match decode_parties(alloc, parties) {
        Ok(parties) => parties,
        Err(fault) => return Err(fault),
    };
    let table = table.try_copy(alloc)?;
    Ok(Descriptor {
        grantor,
        grantee,
        table,
        action,
        column,
        grantable,
    })
}
