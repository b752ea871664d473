//! The records of roles, memberships, tables, privilege descriptors and policies, written as bytes:
//! one record for each, whose key begins with the byte of its kind.

ghost use Rattle.std.specs.Prelude.{◌≡◌, ◌≢◌, ◌≤◌, ◌<◌, ◌^◌, [], ◌∷◌, ◌++◌, flat_map, length, Err, IfOk, IfSome, MatchOption, OnOk};
ghost use Rattle.byteorder.specs.Endian.{big_bytes};
ghost use Rattle.storage_sizes.specs.Kinds.{kind_byte};
ghost use Rattle.stored_database.specs.RecordFormat.{ended, flag, place_byte, type_number, column_bytes, layout_bytes, role_flags, role_record, membership_record, table_record, descriptor_record, policy_record, kind_number, command_number, roles_bytes, clause_bytes};
ghost use Rattle.stored_database.specs.Entries.{IsRecordSize};
ghost use Rattle.catalogue_changes.specs.Sizes.{FitsRecord, HasPlace, HasCountableRoles, HasShortText};

use byteorder::{BigEndian, ByteOrder};
use catalogue::order::{action_number, grantee_name, grantor_name};
use catalogue::table::TableDefinition;
use row_codec::table_prefix;
use sql_ast::columns::{Column, ColumnType, Columns};
use sql_ast::policy::{Policy, PolicyClause, PolicyCommand, PolicyKind, PolicyRoles};
use sql_ast::privilege::Descriptor;
use sql_ast::role::{Membership, Role, RoleAttributes};
use sql_types::name::Name;
use std::alloc::{AllocError, Global};
use storage_sizes::{MAX_KEY_LENGTH, MAX_VALUE_LENGTH, RecordKind};
use store::{Entry, Fault};

/// The most roles of a policy, which a byte counts.
const MAX_POLICY_ROLES: usize = 255;

/// The most bytes of a condition in its record, which two bytes count.
const MAX_STORED_TEXT_LENGTH: usize = 65_535;

/// The record of a role.
pub fn role_entry(alloc: Global, role: &Role) -> Result<Entry, AllocError>
    ensures record { IfOk result (λ entry. entry ≡ role_record role.now) }
    ensures size { IfOk result (λ entry. IsRecordSize entry) }
{
    let name = role.name.as_str();
    let mut key = Vec::from_slice(alloc, &[RecordKind::Role as u8])?;
    key.extend_from_slice(name.as_bytes())?;
    let value = Vec::from_slice(alloc, &[flags_of(&role.attributes)])?;
    Ok(Entry::from_parts(key, value))
}

/// The record of a membership.
pub fn membership_entry(alloc: Global, membership: &Membership) -> Result<Entry, AllocError>
    ensures record { IfOk result (λ entry. entry ≡ membership_record membership.now) }
    ensures size { IfOk result (λ entry. IsRecordSize entry) }
{
    let role = membership.role.as_str();
    let member = membership.member.as_str();
    let mut key = Vec::from_slice(alloc, &[RecordKind::Membership as u8])?;
    push_ended(&mut key, role)?;
    push_ended(&mut key, member)?;
    let value = Vec::from_slice(alloc, &[flag(membership.admin, 1)])?;
    Ok(Entry::from_parts(key, value))
}

/// The record of a table. Damaged: the record has no size that a store takes, as no table of a
/// database has.
pub fn table_entry(alloc: Global, table: &TableDefinition) -> Result<Entry, Fault>
    ensures record { IfOk result (λ entry. entry ≡ table_record table.now) }
    ensures size { IfOk result (λ entry. IsRecordSize entry) }
    ensures undamaged { IsRecordSize (table_record table.now) → result ≢ Err Fault.Damaged }
    ensures no_device { result ≢ Err Fault.Device }
{
    let mut key = Vec::from_slice(alloc, &[RecordKind::Table as u8])?;
    key.extend_from_slice(table.name().as_str().as_bytes())?;
    let flags = flag(table.row_security(), 1) + flag(table.forced(), 2);
    let mut value = number_bytes(alloc, table.id())?;
    push_ended(&mut value, table.owner().as_str())?;
    value.push(flags)?;
    push_layout(&mut value, table.columns())?;
    sized(Entry::from_parts(key, value))
}

/// The record of a privilege descriptor for the table of this number. Damaged: the index of its
/// column is over 254, or the record has no size that a store takes, as no descriptor of a database
/// has.
pub fn descriptor_entry(alloc: Global, table: u32, descriptor: &Descriptor) -> Result<Entry, Fault>
    ensures record { IfOk result (λ entry. entry ≡ descriptor_record table descriptor.now) }
    ensures size { IfOk result (λ entry. IsRecordSize entry) }
    ensures undamaged { HasPlace descriptor.now
        → IsRecordSize (descriptor_record table descriptor.now) → result ≢ Err Fault.Damaged }
    ensures no_device { result ≢ Err Fault.Device }
{
    let Some(place) = place_of(descriptor.column) else {
        return Err(Fault::Damaged);
    };
    let mut key = table_key(alloc, RecordKind::Descriptor, table)?;
    key.push(action_number(descriptor.action))?;
    key.push(place)?;
    push_ended(&mut key, grantor_name(&descriptor.grantor))?;
    push_ended(&mut key, grantee_name(&descriptor.grantee))?;
    let value = Vec::from_slice(alloc, &[flag(descriptor.grantable, 1)])?;
    sized(Entry::from_parts(key, value))
}

/// The record of a policy of the table of this number. Damaged: the policy has over 255 roles, a
/// condition of 65,536 bytes or more, or a record of no size that a store takes, as no policy of a
/// database has.
pub fn policy_entry(alloc: Global, table: u32, policy: &Policy) -> Result<Entry, Fault>
    ensures record { IfOk result (λ entry. entry ≡ policy_record table policy.now) }
    ensures size { IfOk result (λ entry. IsRecordSize entry) }
    ensures undamaged { FitsRecord policy.now → IsRecordSize (policy_record table policy.now)
        → result ≢ Err Fault.Damaged }
    ensures no_device { result ≢ Err Fault.Device }
{
    let mut key = table_key(alloc, RecordKind::Policy, table)?;
    key.extend_from_slice(policy.name.as_str().as_bytes())?;
    let mut value = Vec::from_slice(
        alloc,
        &[kind_byte(policy.kind), command_byte(policy.command)],
    )?;
    push_roles(&mut value, &policy.roles)?;
    push_clause(&mut value, &policy.using)?;
    push_clause(&mut value, &policy.check)?;
    sized(Entry::from_parts(key, value))
}

// A record that a store takes, or Damaged.
fn sized(entry: Entry) -> Result<Entry, Fault>
    ensures same { IfOk result (λ given. given ≡ entry) }
    ensures size { IfOk result (λ given. IsRecordSize given) }
    ensures undamaged { IsRecordSize entry → result ≢ Err Fault.Damaged }
    ensures no_device { result ≢ Err Fault.Device }
{
    let key = entry.key();
    if key.is_empty() || key.len() > MAX_KEY_LENGTH || entry.value().len() > MAX_VALUE_LENGTH {
        return Err(Fault::Damaged);
    }
    Ok(entry)
}

// ---- parts

// The place of a column, 0 for the whole table, or `None` where a byte has no room for it.
fn place_of(column: Option<usize>) -> Option<u8>
    ensures { MatchOption result (place_byte column < 2 ^ 8 → ⊥)
        (λ place. place ≡ place_byte column) }
{
    match column {
        None => Some(0),
        Some(column) if column < 255 => Some(column as u8 + 1),
        Some(_) => None,
    }
}

// The front of the keys of a kind that belong to one table: the byte of the kind and the number.
fn table_key(alloc: Global, kind: RecordKind, table: u32) -> Result<Vec<u8>, AllocError>
    ensures { IfOk result (λ key. key.items ≡ kind_byte kind ∷ big_bytes 4 table) }
{
    Vec::from_slice(alloc, &table_prefix(kind, table))
}

// Appends a name and the zero byte that ends it.
fn push_ended(out: &mut Vec<u8>, name: &str) -> Result<(), AllocError>
    ensures { OnOk result (out.new.items ≡ out.old.items ++ ended name.now) }
{
    out.extend_from_slice(name.as_bytes())?;
    out.push(0)?;
    Ok(())
}

// A bit of a sum: the amount where it is set.
fn flag(set: bool, amount: u8) -> u8
    ensures flag { result ≡ flag set amount }
    ensures most { result ≤ amount }
{
    if set { amount } else { 0 }
}

fn flags_of(attributes: &RoleAttributes) -> u8
    ensures { result ≡ role_flags attributes.now }
{
    flag(attributes.superuser, 1) + flag(attributes.login, 2) + flag(attributes.bypass_rls, 4)
}

fn kind_byte(kind: PolicyKind) -> u8
    ensures { result ≡ kind_number kind }
{
    match kind {
        PolicyKind::Permissive => 1,
        PolicyKind::Restrictive => 2,
    }
}

fn command_byte(command: PolicyCommand) -> u8
    ensures { result ≡ command_number command }
{
    match command {
        PolicyCommand::All => 0,
        PolicyCommand::Only(action) => action_number(action),
    }
}

// Appends how many roles a policy concerns, and each; none for PUBLIC. Damaged: a byte does not
// count them.
fn push_roles(out: &mut Vec<u8>, roles: &PolicyRoles) -> Result<(), Fault>
    ensures ok { OnOk result (out.new.items ≡ out.old.items ++ roles_bytes roles.now) }
    ensures undamaged { HasCountableRoles roles.now → result ≢ Err Fault.Damaged }
    ensures no_device { result ≢ Err Fault.Device }
{
    match roles {
        PolicyRoles::Public => {
            out.push(0)?;
            Ok(())
        }
        PolicyRoles::Only(names) => {
            if names.len() > MAX_POLICY_ROLES {
                return Err(Fault::Damaged);
            }
            out.push(names.len() as u8)?;
            push_names(out, names.as_slice())?;
            Ok(())
        }
    }
}

fn push_names(out: &mut Vec<u8>, names: &[Name]) -> Result<(), AllocError>
    ensures { OnOk result (out.new.items ≡ out.old.items ++ flat_map ended names.now) }
{
    for name in names {
        push_ended(out, name.as_str())?;
    }
    Ok(())
}

// Appends a condition as it is written, after its length; a zero byte where there is none. Damaged:
// two bytes do not count it.
fn push_clause(out: &mut Vec<u8>, clause: &Option<PolicyClause>) -> Result<(), Fault>
    ensures ok { OnOk result (out.new.items ≡ out.old.items ++ clause_bytes clause.now) }
    ensures undamaged { IfSome clause.now HasShortText → result ≢ Err Fault.Damaged }
    ensures no_device { result ≢ Err Fault.Device }
{
    match clause {
        None => {
            out.push(0)?;
            Ok(())
        }
        Some(clause) => {
            let text = clause.text.as_str();
            if text.len() > MAX_STORED_TEXT_LENGTH {
                return Err(Fault::Damaged);
            }
            out.push(1)?;
            push_text(out, text)?;
            Ok(())
        }
    }
}

// Appends a text after its length in two bytes.
fn push_text(out: &mut Vec<u8>, text: &str) -> Result<(), AllocError>
    requires { length text.now < 2 ^ 16 }
    ensures { OnOk result
        (out.new.items ≡ out.old.items ++ (big_bytes 2 (length text.now) ++ text.now)) }
{
    let mut bytes = [0; 2];
    BigEndian::write_u16(&mut bytes, text.len() as u16);
    out.extend_from_slice(&bytes)?;
    out.extend_from_slice(text.as_bytes())
}

// The four bytes of a number.
fn number_bytes(alloc: Global, number: u32) -> Result<Vec<u8>, AllocError>
    ensures { IfOk result (λ bytes. bytes.items ≡ big_bytes 4 number) }
{
    let mut bytes = [0; 4];
    BigEndian::write_u32(&mut bytes, number);
    Vec::from_slice(alloc, &bytes)
}

// Appends the columns of a table and the indices of its key, each after their number.
fn push_layout(out: &mut Vec<u8>, columns: &Columns) -> Result<(), AllocError>
    ensures { OnOk result (out.new.items ≡ out.old.items ++ layout_bytes columns.now) }
{
    let all = columns.as_slice();
    out.push(all.len() as u8)?;
    for column in all {
        push_column(out, column)?;
    }
    push_key(out, columns)
}

// Appends a column: its name, its type, and whether it is NOT NULL.
fn push_column(out: &mut Vec<u8>, column: &Column) -> Result<(), AllocError>
    ensures { OnOk result (out.new.items ≡ out.old.items ++ column_bytes column.now) }
{
    push_ended(out, column.name.as_str())?;
    out.push(type_byte(column.column_type))?;
    out.push(flag(column.not_null, 1))?;
    Ok(())
}

fn type_byte(column_type: ColumnType) -> u8
    ensures { result ≡ type_number column_type }
{
    match column_type {
        ColumnType::BigInt => 1,
        ColumnType::Text => 2,
        ColumnType::Boolean => 3,
    }
}

// Appends the indices of the key's columns after their number.
fn push_key(out: &mut Vec<u8>, columns: &Columns) -> Result<(), AllocError>
    ensures { OnOk result
        (out.new.items ≡ out.old.items ++ length columns.now.key ∷ columns.now.key) }
{
    let key = columns.key();
    out.push(key.len() as u8)?;
    for index in key {
        out.push(*index as u8)?;
    }
    Ok(())
}
