//! The descriptors that a statement names.
ghost use Rattle.std.specs.Prelude.{◌≡◌, ◌++◌, map, flat_map, IfOk, OnOk};
ghost use Rattle.std.specs.Option.{option_map};
ghost use Rattle.abstract_database.specs.Privileges.{descriptors_by};
ghost use Rattle.grant_graph.specs.Keys.{now_of};
ghost use Rattle.schema_statements.specs.Asking.{asked_by, IsRequester};
ghost use Rattle.schema_statements.specs.PrivilegeUnits.{descriptors_for};
ghost use Rattle.schema_statements.specs.NamedDescriptors.{descriptor_of, IsNamed};

use crate::grantors::{NamedPrivilege, acting_grantors, leaves_out};
use crate::ordered_descriptors::ordered;
use crate::privilege_units::units;
use crate::requester::Requester;
use sql_ast::privilege::{Descriptor, Grantee, Grantor, Privilege};
use sql_ast::statement::Privileges;
use sql_types::name::Name;
use sql_types::try_copy::TryCopy;
use std::alloc::{AllocError, Global};

/// The table, the grantees and the grant option of a statement.
#[derive(Clone, Copy)]
struct GrantTarget<'a> {
    table: &'a Name,
    grantees: &'a [Grantee],
    grantable: bool,
}

/// What a statement names: the descriptors in order, each once, and whether it leaves something out.
#[derive(Drop)]
pub(crate) struct Named {
    pub(crate) descriptors: Vec<Descriptor>,
    pub(crate) leaves_out: bool,
}

/// A privilege on the table for one grantee by this grantor.
fn descriptor(
    alloc: Global,
    target: GrantTarget<'_>,
    privilege: Privilege,
    by: &Name,
    grantee: &Grantee,
) -> Result<Descriptor, AllocError>
    ensures { IfOk result (λ d.
        d ≡ descriptor_of target.entry.table.now target.entry.grantable privilege by.now grantee.now) }
{
    let grantor = Grantor::Role(by.try_copy(alloc)?);
    let grantee = grantee.try_copy(alloc)?;
    let table = target.table.try_copy(alloc)?;
    Ok(Descriptor {
        grantor,
        grantee,
        table,
        action: privilege.action,
        column: privilege.column,
        grantable: target.grantable,
    })
}

/// Adds a privilege on the table for each grantee by this grantor.
fn push_each(
    alloc: Global,
    list: &mut Vec<Descriptor>,
    target: GrantTarget<'_>,
    privilege: Privilege,
    by: &Name,
) -> Result<(), AllocError>
    ensures { OnOk result (list.new.items ≡ list.old.items
        ++ map (descriptor_of target.entry.table.now target.entry.grantable privilege by.now)
        target.entry.grantees.now) }
{
    for grantee in target.grantees {
        list.push(descriptor(alloc, target, privilege, by, grantee)?)?;
    }
    Ok(())
}

/// Adds a privilege on the table for each grantee, if it has an acting grantor.
fn push_by(
    alloc: Global,
    list: &mut Vec<Descriptor>,
    target: GrantTarget<'_>,
    privilege: Privilege,
    by: Option<&Name>,
) -> Result<(), AllocError>
    ensures { OnOk result (list.new.items ≡ list.old.items
        ++ descriptors_by target.entry.table.now target.entry.grantees.now
        target.entry.grantable privilege (option_map now_of by.entry)) }
{
    match by {
        None => Ok(()),
        Some(by) => push_each(alloc, list, target, privilege, by),
    }
}

/// The descriptors of these privileges that have an acting grantor, for each grantee.
fn by_grantors(
    alloc: Global,
    target: GrantTarget<'_>,
    all: &[NamedPrivilege<'_>],
) -> Result<Vec<Descriptor>, AllocError>
    ensures { IfOk result (λ list. list.items ≡ flat_map
        (descriptors_for target.entry.table.now target.entry.grantees.now target.entry.grantable) all.now) }
{
    let mut list = Vec::new(alloc);
    for named in all {
        push_by(alloc, &mut list, target, named.privilege, named.by)?;
    }
    Ok(list)
}

/// What a statement of the role that asks names on the table: for each privilege that has an acting grantor a
/// descriptor for each grantee. The privileges are those of the actions that it names, on the whole table or on the
/// columns that it names.
pub(crate) fn what_is_named(
    alloc: Global,
    requester: Requester<'_, '_>,
    grantees: &[Grantee],
    grantable: bool,
    privileges: &Privileges,
) -> Result<Named, AllocError>
    requires { IsRequester requester }
    ensures { IfOk result (IsNamed (asked_by requester.entry) requester.entry.role.now
        requester.entry.table.now.definition privileges.now grantees.now grantable) }
{
    let units = units(alloc, requester.table.columns(), privileges)?;
    let all = acting_grantors(alloc, requester, units.as_slice())?;
    let target = GrantTarget {
        table: requester.table.name(),
        grantees,
        grantable,
    };
    let list = by_grantors(alloc, target, all.as_slice())?;
    let descriptors = ordered(alloc, list)?;
    Ok(Named {
        descriptors,
        leaves_out: leaves_out(all.as_slice(), privileges),
    })
}
