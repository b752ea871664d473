//! GRANT and REVOKE of privileges.
ghost use Rattle.std.specs.Prelude.{◌≡◌, ◌⊎◌, false, [], Ok, Err, OnOk, IfOk, IfErr};
ghost use Rattle.sql_types.specs.declared.state.SqlState.TheVariants.{OutOfMemory};
ghost use Rattle.sql_types.specs.declared.tag.Tag.TheVariants as tag;
ghost use Rattle.abstract_database.specs.Statements.{grant as grant_of, revoke as revoke_of};
ghost use Rattle.schema_statements.specs.Asking.{asked_by, IsRequester};
ghost use Rattle.schema_statements.specs.DescriptorChanges.{with_those, without_those, Fits};
ghost use Rattle.schema_statements.specs.NamedDescriptors.{IsNamed};
ghost use Rattle.schema_statements.specs.PrivilegeDescriptors.{Around, database_in, carried_out, checked, grant_checked, warning_where};

use crate::descriptor_changes::{RevokedDescriptors, coming, what_is_taken};
use crate::named_descriptors::{Named, what_is_named};
use crate::privilege_checks::{check, has_public};
use crate::requester::Requester;
use grant_graph::revocation;
use sql_ast::privilege::Descriptor;
use sql_ast::statement::{Grant, Revoke};
use sql_types::state::{Refusal, SqlState};
use sql_types::warning::Warning;
use std::alloc::Global;

/// The warning, if something is left out.
fn warning_if(leaves_out: bool, warning: Warning) -> Option<Warning>
    ensures { result ≡ warning_where leaves_out warning }
{
    if leaves_out { Some(warning) } else { None }
}

/// Checks a GRANT, and answers what it names.
fn named_by_grant(
    alloc: Global,
    requester: Requester<'_, '_>,
    statement: &Grant,
) -> Result<Named, Refusal>
    requires requester { IsRequester requester }
    requires table { statement.now.table ≡ requester.table.now.definition.name }
    ensures named { IfOk result (IsNamed (asked_by requester.entry)
        requester.entry.role.now requester.entry.table.now.definition
        statement.now.privileges statement.now.grantees statement.now.with_grant_option) }
    ensures allowed { OnOk result
        (grant_checked (asked_by requester.entry) requester.entry.role.now requester.entry.table.now.definition.layout
        statement.now ≡ Ok tt) }
    ensures refused { IfErr result (λ e. (e.0 ≡ OutOfMemory)
        ⊎ (grant_checked (asked_by requester.entry) requester.entry.role.now requester.entry.table.now.definition.layout
        statement.now ≡ Err e.0)) }
{
    let grantees = statement.grantees.as_slice();
    check(requester, &statement.table, &statement.privileges, grantees)?;
    if statement.with_grant_option && has_public(grantees) {
        return Err(Refusal(SqlState::InvalidGrantOperation));
    }
    Ok(what_is_named(
        alloc,
        requester,
        grantees,
        statement.with_grant_option,
        &statement.privileges,
    )?)
}

/// Checks a REVOKE, and answers what it names.
fn named_by_revoke(
    alloc: Global,
    requester: Requester<'_, '_>,
    statement: &Revoke,
) -> Result<Named, Refusal>
    requires requester { IsRequester requester }
    requires table { statement.now.table ≡ requester.table.now.definition.name }
    ensures named { IfOk result (IsNamed (asked_by requester.entry)
        requester.entry.role.now requester.entry.table.now.definition
        statement.now.privileges statement.now.grantees false) }
    ensures allowed { OnOk result
        (checked (asked_by requester.entry) requester.entry.role.now statement.now.table
        requester.entry.table.now.definition.layout statement.now.privileges statement.now.grantees ≡ Ok tt) }
    ensures refused { IfErr result (λ e. (e.0 ≡ OutOfMemory)
        ⊎ (checked (asked_by requester.entry) requester.entry.role.now statement.now.table
        requester.entry.table.now.definition.layout statement.now.privileges statement.now.grantees ≡ Err e.0)) }
{
    let grantees = statement.grantees.as_slice();
    check(requester, &statement.table, &statement.privileges, grantees)?;
    Ok(what_is_named(alloc, requester, grantees, false, &statement.privileges)?)
}

/// Grants the statement's privileges on the table to its grantees, each by the current role's acting grantor: the
/// descriptors that come, in rising order. It warns with 01007 where a privilege that it names has no acting grantor,
/// and with ALL only where none of them has one. It is refused with 42704 where a grantee is no role, else with 42703
/// where the table has not a column that it names, else with 42501 where the current role has no privilege on the
/// table, else with 0LP01 where PUBLIC would have the grant option, and with 53200 where memory was refused.
pub(crate) fn grant_privileges(
    alloc: Global,
    requester: Requester<'_, '_>,
    statement: &Grant,
) -> Result<(Vec<Descriptor>, Option<Warning>), Refusal>
    requires requester { IsRequester requester }
    requires table { statement.now.table ≡ requester.table.now.definition.name }
    ensures granted { IfOk result (λ r.
        (around : Around statement.now.table requester.entry.table.now.definition requester.entry.role.now)
        → grant_of (database_in around requester.entry.catalogue.now.roles requester.entry.catalogue.now.memberships
        requester.entry.table.now.descriptors) around.users statement.now
        ≡ Ok (carried_out tag.Grant r.1 (database_in around requester.entry.catalogue.now.roles
        requester.entry.catalogue.now.memberships
        (with_those r.0.items requester.entry.table.now.descriptors)))) }
    ensures fits { IfOk result (λ r. Fits statement.now.table [] r.0.items requester.entry.table.now.descriptors) }
    ensures refused { IfErr result (λ e. (e.0 ≡ OutOfMemory)
        ⊎ ((around : Around statement.now.table requester.entry.table.now.definition requester.entry.role.now)
        → grant_of (database_in around requester.entry.catalogue.now.roles requester.entry.catalogue.now.memberships
        requester.entry.table.now.descriptors) around.users statement.now ≡ Err e.0)) }
{
    // For the proof: the list has descriptors of this table alone.
    let _own = requester.table.descriptors();
    let named = named_by_grant(alloc, requester, statement)?;
    let added = coming(alloc, requester.table, named.descriptors)?;
    Ok((
        added,
        warning_if(named.leaves_out, Warning::PrivilegeNotGranted),
    ))
}

/// Takes the statement's privileges on the table from its grantees, or with GRANT OPTION FOR the grant options alone:
/// those that the current role's acting grantors granted. With CASCADE it takes also each descriptor that no chain of
/// supports leads to any more. It warns with 01006 where a privilege that it names has no acting grantor, and with
/// ALL only where none of them has one. It is refused with 42704 where a grantee is no role, else with 42703 where
/// the table has not a column that it names, else with 42501 where the current role has no privilege on the table or
/// on a column of it, else with 2B000 where others depend on what it takes and it does not say CASCADE, and with
/// 53200 where memory was refused.
pub(crate) fn revoke_privileges(
    alloc: Global,
    requester: Requester<'_, '_>,
    statement: &Revoke,
) -> Result<(RevokedDescriptors, Option<Warning>), Refusal>
    requires requester { IsRequester requester }
    requires table { statement.now.table ≡ requester.table.now.definition.name }
    ensures revoked { IfOk result (λ r.
        (around : Around statement.now.table requester.entry.table.now.definition requester.entry.role.now)
        → revoke_of (database_in around requester.entry.catalogue.now.roles requester.entry.catalogue.now.memberships
        requester.entry.table.now.descriptors) around.users statement.now
        ≡ Ok (carried_out tag.Revoke r.1 (database_in around requester.entry.catalogue.now.roles
        requester.entry.catalogue.now.memberships
        (with_those r.0.added.items (without_those r.0.removed.items requester.entry.table.now.descriptors))))) }
    ensures fits { IfOk result (λ r.
        Fits statement.now.table r.0.removed.items r.0.added.items requester.entry.table.now.descriptors) }
    ensures refused { IfErr result (λ e. (e.0 ≡ OutOfMemory)
        ⊎ ((around : Around statement.now.table requester.entry.table.now.definition requester.entry.role.now)
        → revoke_of (database_in around requester.entry.catalogue.now.roles requester.entry.catalogue.now.memberships
        requester.entry.table.now.descriptors) around.users statement.now ≡ Err e.0)) }
{
    let named = named_by_revoke(alloc, requester, statement)?;
    let descriptors = requester.table.descriptors();
    let taking = revocation(
        alloc,
        descriptors,
        named.descriptors.as_slice(),
        statement.grant_option_for,
        statement.behavior,
    )?;
    let taken = what_is_taken(alloc, descriptors, &taking, statement.grant_option_for)?;
    Ok((
        taken,
        warning_if(named.leaves_out, Warning::PrivilegeNotRevoked),
    ))
}
