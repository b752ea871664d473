//! Policies from their records.

ghost use Rattle.std.specs.Prelude.{◌≡◌};
ghost use Rattle.sql_ast.specs.declared.policy.PolicyCommand.{PolicyCommand};
ghost use Rattle.sql_ast.specs.declared.policy.PolicyKind.{PolicyKind};
ghost use Rattle.stored_database.specs.Items.{AreStoredRoles};
ghost use Rattle.stored_database.specs.RecordFormat.{command_number, kind_number, policy_prefix, policy_record, roles_bytes};
ghost use Rattle.catalogue_loading.specs.Clauses.{IsPolicyAlone};
ghost use Rattle.catalogue_loading.specs.Decoding.{Decodes, DecodesFront};

use crate::bytes::{Coded, after_table, decode_name, two_at};
use crate::clauses::decode_clauses;
use crate::descriptor_records::action_of;
use crate::record_parts::{EndedName, parts_at};
use crate::walk::ItemReader;
use row_codec::table_prefix;
use sql_ast::policy::{Policy, PolicyCommand, PolicyKind, PolicyRoles};
use sql_types::name::Name;
use sql_types::try_copy::TryCopy;
use std::alloc::Global;
use storage_sizes::RecordKind;
use store::{Entry, Fault, MAX_VALUE_LENGTH};

/// The reader of the records of the policies of one table.
#[derive(Drop)]
pub struct PolicyReader<'a> {
    /// The number of the table.
    pub id: u32,
    /// The name of the table.
    pub table: &'a Name,
}

impl<'a> PolicyReader<'a> {
    /// The reader for the table of this number and this name.
    pub fn new(id: u32, table: &'a Name) -> PolicyReader<'a>
        ensures id { result.id ≡ id }
        ensures table { result.table.now ≡ table.now }
    {
        PolicyReader { id, table }
    }

    /// What the keys of these records begin with.
    pub fn prefix(&self) -> [u8; 5]
        ensures { result ≡ policy_prefix self.now.id }
    {
        table_prefix(RecordKind::Policy, self.id)
    }
}

impl<'a> ItemReader for PolicyReader<'a> {
    type Item = Policy;

    ghost use Rattle.stored_database.specs.RecordFormat.{policy_record};
    ghost use Rattle.catalogue_loading.specs.Clauses.{IsPolicyAlone};

    ghost IsValid = { λ reader. IsPolicyAlone reader.table.now };

    ghost spell = { λ reader. policy_record reader.id };

    fn read(&self, alloc: Global, entry: &Entry) -> Result<Policy, Fault> {
        decode_policy(alloc, self.id, self.table, entry)
    }
}

impl Coded for PolicyKind {
    ghost use Rattle.stored_database.specs.RecordFormat.{kind_number};

    ghost code = { kind_number };

    fn of_byte(byte: u8) -> Option<PolicyKind> {
        match byte {
            1 => Some(PolicyKind::Permissive),
            2 => Some(PolicyKind::Restrictive),
            _ => None,
        }
    }
}

impl Coded for PolicyCommand {
    ghost use Rattle.stored_database.specs.RecordFormat.{command_number};

    ghost code = { command_number };

    fn of_byte(byte: u8) -> Option<PolicyCommand> {
        if byte == 0 {
            return Some(PolicyCommand::All);
        }
        match action_of(byte) {
            Some(action) => Some(PolicyCommand::Only(action)),
            None => None,
        }
    }
}

// The roles that stand after their number, or PUBLIC where that is 0.
fn roles_at(alloc: Global, bytes: &[u8]) -> Result<(PolicyRoles, &[u8]), Fault>
    ensures { DecodesFront AreStoredRoles roles_bytes bytes.now result }
{
    let Some((count, rest)) = bytes.split_first() else {
        return Err(Fault::Damaged);
    };
    if *count == 0 {
        return Ok((PolicyRoles::Public, rest));
    }
    match parts_at::<EndedName>(alloc, *count, rest) {
        Ok((names, rest)) => Ok((PolicyRoles::Only(names), rest)),
        Err(fault) => Err(fault),
    }
}

fn decode_policy(alloc: Global, id: u32, table: &Name, entry: &Entry) -> Result<Policy, Fault>
    ensures { Decodes (IsPolicyAlone table.now) (policy_record id) entry.now result }
{
    let Some(name) = after_table(RecordKind::Policy, id, entry.key()) else {
        return Err(Fault::Damaged);
    };
    if entry.value().len() > MAX_VALUE_LENGTH {
        return Err(Fault::Damaged);
    }
    let Some((kind, command, rest)) = two_at::<PolicyKind, PolicyCommand>(entry.value()) else {
        return Err(Fault::Damaged);
    };
    let name = match decode_name(alloc, name) {
        Ok(name) => name,
        Err(fault) => return Err(fault),
    };
    let table = table.try_copy(alloc)?;
    let (roles, rest) = match roles_at(alloc, rest) {
        Ok(front) => front,
        Err(fault) => return Err(fault),
    };
    match decode_clauses(alloc, rest) {
        Ok((using, check)) => Ok(Policy {
            table,
            name,
            kind,
            command,
            roles,
            using,
            check,
        }),
        Err(fault) => Err(fault),
    }
}
