//! Privilege descriptors of a table that are those of a whole database (SQL:2016 Foundation, 12.2
//! and 12.7).

ghost use Rattle.std.specs.Prelude.{◌≡◌, ◌↔◌, ◌&&◌, IsTrue, IfOk};
ghost use Rattle.std.specs.List.{list_any, list_all};
ghost use Rattle.abstract_database.specs.Privileges.{is_of_system};
ghost use Rattle.catalogue_loading.specs.ValidityChecks.{is_grantor_of, is_grantee_of, is_to, is_owners_own, is_on_column_of, is_given, is_granted, is_owners_for};
ghost use Rattle.catalogue_loading.specs.ValidityParts.{HasGranted, HasWholePrivileges};
ghost use Rattle.abstract_database.specs.Database.{same_action};
ghost use Rattle.sql_ast.specs.declared.privilege.Action.TheVariants as action;

use catalogue::definitions::Catalogue;
use catalogue::table::TableDefinition;
use grant_graph::all_supported;
use sql_ast::privilege::{Action, Descriptor, Grantee, Grantor};
use sql_types::name::Name;
use std::alloc::{AllocError, Global};

/// Whether a grantor is the system or a role.
fn is_grantor(catalogue: &Catalogue, grantor: &Grantor) -> bool
    ensures { result ≡ is_grantor_of catalogue.now.roles grantor.now }
{
    match grantor {
        Grantor::System => true,
        Grantor::Role(name) => catalogue.has_role(name),
    }
}

/// Whether a grantee is a role, or PUBLIC without a grant option.
fn is_grantee(catalogue: &Catalogue, grantable: bool, grantee: &Grantee) -> bool
    ensures { result ≡ is_grantee_of catalogue.now.roles grantable grantee.now }
{
    match grantee {
        Grantee::Public => !grantable,
        Grantee::Role(name) => catalogue.has_role(name),
    }
}

/// Whether the system granted the descriptor.
fn is_of_system(descriptor: &Descriptor) -> bool
    ensures { result ≡ is_of_system descriptor.now }
{
    matches!(descriptor.grantor, Grantor::System)
}

/// Whether a grantee is the role of this name.
fn is_to(role: &Name, grantee: &Grantee) -> bool
    ensures { result ≡ is_to role.now grantee.now }
{
    match grantee {
        Grantee::Public => false,
        Grantee::Role(name) => *name == *role,
    }
}

/// Whether a descriptor is grantable, to the owner, and on the whole table.
fn is_owners_own(owner: &Name, descriptor: &Descriptor) -> bool
    ensures { result ≡ is_owners_own owner.now descriptor.now }
{
    descriptor.grantable && descriptor.column.is_none() && is_to(owner, &descriptor.grantee)
}

/// Whether an action is on the whole table, or on one of its so many columns, on which there is no
/// DELETE.
fn is_on_column_of(count: usize, action: Action, column: Option<usize>) -> bool
    ensures { result ≡ is_on_column_of count action column }
{
    match column {
        None => true,
        Some(index) => index < count && !is_same_action(action, Action::Delete),
    }
}

/// Whether a descriptor is granted by and to roles, and by the system only what it grants the owner.
fn is_given(catalogue: &Catalogue, owner: &Name, descriptor: &Descriptor) -> bool
    ensures { result ≡ is_given catalogue.now.roles owner.now descriptor.now }
{
    is_grantor(catalogue, &descriptor.grantor)
        && is_grantee(catalogue, descriptor.grantable, &descriptor.grantee)
        && (!is_of_system(descriptor) || is_owners_own(owner, descriptor))
}

/// Whether a descriptor is one that is given, for the table or for one of its so many columns.
fn is_granted(catalogue: &Catalogue, owner: &Name, count: usize, descriptor: &Descriptor) -> bool
    ensures { result ≡ is_granted catalogue.now.roles owner.now count descriptor.now }
{
    is_on_column_of(count, descriptor.action, descriptor.column)
        && is_given(catalogue, owner, descriptor)
}

fn are_granted(
    catalogue: &Catalogue,
    owner: &Name,
    count: usize,
    descriptors: &[Descriptor],
) -> bool
    ensures { result ≡ list_all (is_granted catalogue.now.roles owner.now count) descriptors.now }
{
    descriptors.iter().all(|descriptor| is_granted(catalogue, owner, count, descriptor))
}

fn is_same_action(one: Action, other: Action) -> bool
    ensures { result ≡ same_action one other }
{
    matches!(
        (one, other),
        (Action::Select, Action::Select)
            | (Action::Insert, Action::Insert)
            | (Action::Update, Action::Update)
            | (Action::Delete, Action::Delete)
    )
}

/// Whether the owner has the descriptor of the system for this action.
fn has_owners(owner: &Name, action: Action, descriptors: &[Descriptor]) -> bool
    ensures { result ≡ list_any (is_owners_for owner.now action) descriptors.now }
{
    descriptors.iter().any(|descriptor| {
        is_same_action(descriptor.action, action)
            && is_of_system(descriptor)
            && is_owners_own(owner, descriptor)
    })
}

/// Whether the owner has the four descriptors of the system.
fn has_all_owners(owner: &Name, descriptors: &[Descriptor]) -> bool
    ensures { result ≡ (list_any (is_owners_for owner.now action.Select) descriptors.now
        && (list_any (is_owners_for owner.now action.Insert) descriptors.now
        && (list_any (is_owners_for owner.now action.Update) descriptors.now
        && list_any (is_owners_for owner.now action.Delete) descriptors.now))) }
{
    has_owners(owner, Action::Select, descriptors)
        && has_owners(owner, Action::Insert, descriptors)
        && has_owners(owner, Action::Update, descriptors)
        && has_owners(owner, Action::Delete, descriptors)
}

/// Whether the descriptors of a table are on it or on its columns, granted by and to roles, and by
/// the system the owner's four and no others.
fn has_granted(catalogue: &Catalogue, table: &TableDefinition) -> bool
    ensures { IsTrue result ↔ HasGranted catalogue.now.roles table.now }
{
    let owner = table.owner();
    let descriptors = table.descriptors();
    let count = table.columns().len();
    if !are_granted(catalogue, owner, count, descriptors) {
        return false;
    }
    has_all_owners(owner, descriptors)
}

/// Whether the descriptors of a table are on it or on its columns, granted by and to roles, by the system the
/// owner's four and no others, and each is supported.
pub(crate) fn has_whole_privileges(
    alloc: Global,
    catalogue: &Catalogue,
    table: &TableDefinition,
) -> Result<bool, AllocError>
    ensures { IfOk result (λ whole. IsTrue whole
        ↔ HasWholePrivileges catalogue.now.roles table.now) }
{
    if !has_granted(catalogue, table) {
        return Ok(false);
    }
    all_supported(alloc, table.descriptors())
}
