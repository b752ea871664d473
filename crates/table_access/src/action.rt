//! What a role has of a table for an action.

ghost use Rattle.std.specs.Prelude.{◌≡◌, ◌||◌, true, map, IfOk};
ghost use Rattle.std.specs.List.{list_any};
ghost use Rattle.abstract_database.specs.Roles.{is_superuser};
ghost use Rattle.abstract_database.specs.Guards.{is_guarded as guards};
ghost use Rattle.stored_database.specs.Definitions.{database_of};
ghost use Rattle.descriptions.specs.Descriptions.{AreItsRoles, InEach, given_to};
ghost use Rattle.table_access.specs.Accesses.{AreAllOf, HasOfAction};
ghost use Rattle.table_access.specs.Having.{policies_over};

use crate::asking::any_names_user;
use crate::columns::columns_with;
use crate::grants::grants_for;
use catalogue::definitions::Catalogue;
use catalogue::table::TableDefinition;
use descriptions::memberships::MembershipDescription;
use descriptions::policies::applicable_policies;
use descriptions::privileges::has_privilege;
use role_membership::RoleSet;
use sql_ast::policy::Policy;
use sql_ast::privilege::{Action, Descriptor, Privilege};
use sql_ast::role::Membership;
use sql_types::name::Name;
use std::alloc::{AllocError, Global};

/// A privilege descriptor that gives a role something, and by which memberships.
#[derive(Drop)]
pub struct HeldGrant<'a> {
    pub descriptor: &'a Descriptor,
    /// The memberships by which the role is in the grantee, in the order of role and member: none for PUBLIC, and none where the
    /// grantee is the role itself.
    pub memberships: Vec<&'a Membership>,
}

/// What a role has of a table for an action.
pub struct ActionAccess<'a> {
    /// Whether it has the action on the table or on a column.
    pub is_allowed: bool,
    /// Whether it has the action on the whole table.
    pub on_table: bool,
    /// The indices from 0 of the columns on which it has the action: each where it has it on the whole table.
    pub columns: Vec<usize>,
    /// The privilege descriptors that give it the action, in their order. A superuser has it without one.
    pub grants: Vec<HeldGrant<'a>>,
    /// The policies under which it has the action, by name: none where row security does not concern the role. Where it does,
    /// rows have to pass a permissive one and each restrictive one (PostgreSQL manual, "Row Security Policies").
    pub policies: Vec<&'a Policy>,
    /// Whether a condition of these policies has CURRENT_USER or MEMBER OF in it, so that each role meets rows of its own.
    pub names_user: bool,
}

// Written and not derived: where a value is dropped this is one call, and not its parts one by one.
impl Drop for ActionAccess<'_> {
    fn drop(self) {
        let ActionAccess {
            is_allowed: _,
            on_table: _,
            columns: _,
            grants: _,
            policies: _,
            names_user: _,
        } = self;
    }
}

/// What a role has of a table for an action. `roles` are those that it is in, `given` the descriptors that give it something,
/// and `is_guarded` is whether row security concerns it.
pub(crate) fn action_access<'a>(
    alloc: Global,
    catalogue: &Catalogue,
    all: &[MembershipDescription<'a>],
    roles: &RoleSet<'_>,
    role: &Name,
    table: &'a TableDefinition,
    given: &[&'a Descriptor],
    is_guarded: bool,
    action: Action,
) -> Result<ActionAccess<'a>, AllocError>
    requires all { AreAllOf catalogue.now.memberships all.now }
    requires roles { AreItsRoles catalogue.now.memberships role.now roles.now }
    requires given { InEach catalogue.now table.now (λ db.
        map (λ d. d.now) given.now ≡ given_to db role.now table.now.definition.name) }
    requires is_guarded { InEach catalogue.now table.now (λ db.
        is_guarded ≡ guards db role.now table.now.definition) }
    ensures { IfOk result (λ access. InEach catalogue.now table.now (λ db.
        HasOfAction db role.now table.now.definition action access)) }
{
    let memberships = catalogue.memberships();
    let columns = columns_with(alloc, catalogue, roles, role, table, action)?;
    let grants = grants_for(alloc, all, memberships, role, roles, given, action)?;
    let policies = policies_over(alloc, catalogue, roles, role, table, is_guarded, action)?;
    let whole = Privilege {
        action,
        column: None,
    };
    let names_user = any_names_user(policies.as_slice());
    Ok(ActionAccess {
        is_allowed: is_allowed(catalogue, role, grants.as_slice()),
        on_table: has_privilege(catalogue, roles, role, table, whole),
        columns,
        grants,
        policies,
        names_user,
    })
}

/// Whether a role has an action at all, by these grants or as a superuser.
fn is_allowed(catalogue: &Catalogue, role: &Name, grants: &[HeldGrant<'_>]) -> bool
    ensures { result ≡ (is_superuser (database_of catalogue.now) role.now || list_any (λ g. true) grants.now) }
{
    catalogue.is_superuser(role) || has_any(grants)
}

/// Whether there is a grant.
fn has_any(grants: &[HeldGrant<'_>]) -> bool
    ensures { result ≡ list_any (λ g. true) grants.now }
{
    match grants.split_first() {
        None => false,
        Some(_) => true,
    }
}

/// The policies under which a role has an action: none where row security does not concern it.
fn policies_over<'a>(
    alloc: Global,
    catalogue: &Catalogue,
    roles: &RoleSet<'_>,
    role: &Name,
    table: &'a TableDefinition,
    is_guarded: bool,
    action: Action,
) -> Result<Vec<&'a Policy>, AllocError>
    requires roles { AreItsRoles catalogue.now.memberships role.now roles.now }
    requires is_guarded { InEach catalogue.now table.now (λ db.
        is_guarded ≡ guards db role.now table.now.definition) }
    ensures { IfOk result (λ found. InEach catalogue.now table.now (λ db.
        map (λ p. p.now) found.items ≡ policies_over db role.now table.now.definition action)) }
{
    if is_guarded {
        applicable_policies(alloc, catalogue, roles, role, table, action)
    } else {
        Ok(Vec::new(alloc))
    }
}
