//! By whom a role grants and revokes each privilege on a table.
ghost use Rattle.std.specs.Prelude.{◌≡◌, map, IfOk};
ghost use Rattle.std.specs.List.{list_any, list_all};
ghost use Rattle.schema_statements.specs.Asking.{asked_by, IsRequester};
ghost use Rattle.schema_statements.specs.PrivilegeUnits.{by_role, with_grantor, has_grantor as has_grantor_of, leaves_out_by};

use crate::requester::{Requester, grants};
use grant_graph::acting_grantor_among;
use sql_ast::privilege::Privilege;
use sql_ast::statement::Privileges;
use sql_types::name::Name;
use std::alloc::{AllocError, Global};

/// A privilege that a statement names on a table, and its acting grantor, or `None` where it has none.
#[derive(Clone, Copy)]
pub(crate) struct NamedPrivilege<'a> {
    pub(crate) privilege: Privilege,
    pub(crate) by: Option<&'a Name>,
}

/// The privilege with its acting grantor, where this role asks.
fn with_grantor<'a>(requester: Requester<'a, '_>, privilege: Privilege) -> NamedPrivilege<'a>
    requires { IsRequester requester }
    ensures { by_role result
        ≡ with_grantor (asked_by requester.entry) requester.entry.role.now requester.entry.table.now.definition privilege }
{
    let by = acting_grantor_among(
        grants(requester),
        requester.roles,
        requester.role,
        requester.table.name(),
        requester.table.owner(),
        privilege,
    );
    NamedPrivilege { privilege, by }
}

/// Each of these privileges with its acting grantor, where this role asks. Time grows in proportion to the privileges
/// and to the descriptors of the table for each.
pub(crate) fn acting_grantors<'a>(
    alloc: Global,
    requester: Requester<'a, '_>,
    privileges: &[Privilege],
) -> Result<Vec<NamedPrivilege<'a>>, AllocError>
    requires { IsRequester requester }
    ensures { IfOk result (λ all. map by_role all.items
        ≡ map (with_grantor (asked_by requester.entry) requester.entry.role.now requester.entry.table.now.definition)
        privileges.now) }
{
    let mut all = Vec::with_capacity(alloc, privileges.len())?;
    for privilege in privileges {
        all.push(with_grantor(requester, *privilege))?;
    }
    Ok(all)
}

/// Whether a privilege has an acting grantor.
fn has_grantor(named: NamedPrivilege<'_>) -> bool
    ensures { result ≡ has_grantor_of named.entry }
{
    named.by.is_some()
}

/// Whether one of these privileges has an acting grantor.
fn has_one(all: &[NamedPrivilege<'_>]) -> bool
    ensures { result ≡ list_any has_grantor_of all.now }
{
    all.iter().any(|named| has_grantor(*named))
}

/// Whether each of these privileges has an acting grantor.
fn has_each(all: &[NamedPrivilege<'_>]) -> bool
    ensures { result ≡ list_all has_grantor_of all.now }
{
    all.iter().all(|named| has_grantor(*named))
}

/// Whether a statement leaves something out: one of the privileges that it names has no acting grantor, or with ALL
/// none of them has one.
pub(crate) fn leaves_out(all: &[NamedPrivilege<'_>], privileges: &Privileges) -> bool
    ensures { result ≡ leaves_out_by all.now privileges.now }
{
    match privileges {
        Privileges::All(_) => !has_one(all),
        Privileges::Actions(_) => !has_each(all),
    }
}
