//! The orders of the lists of a catalogue, and whether a list is in its order.

ghost use Rattle.std.specs.Prelude.{◌≡◌, ◌↔◌, IsTrue};
ghost use Rattle.std.specs.Ordering.{ordering_then};
ghost use Rattle.abstract_database.specs.Lists.{Rising, name_cmp};
ghost use Rattle.abstract_database.specs.Database.{role_cmp, descriptor_cmp, policy_cmp, action_number as number_of, grantor_name as name_of_grantor, grantee_name as name_of_grantee};
ghost use Rattle.stored_database.specs.Definitions.{definition_cmp};
ghost use Rattle.catalogue.specs.Grants.{IsNamed};
ghost use Rattle.catalogue.specs.Policies.{policies_in};

use crate::policy::CataloguePolicy;
use crate::table::TableDefinition;
use sql_ast::policy::Policy;
use sql_ast::privilege::{Action, Descriptor, Grantee, Grantor};
use sql_ast::role::{Membership, Role};
use sql_types::name::Name;
use std::cmp::Ordering;

/// Whether roles stand in the order of their names, none of them twice.
pub fn roles_rise(roles: &[Role]) -> bool
    ensures { IsTrue result ↔ Rising role_cmp roles.now }
{
    roles.is_sorted_by(|left, right| compare_names(&left.name, &right.name).is_lt())
}

/// Whether tables stand in the order of their names, none of them twice.
pub fn tables_rise(tables: &[TableDefinition]) -> bool
    ensures { IsTrue result ↔ Rising definition_cmp tables.now }
{
    tables.is_sorted_by(|left, right| compare_names(left.name(), right.name()).is_lt())
}

/// Whether privilege descriptors stand in the order of table, action, column, grantor and grantee,
/// none of them twice.
pub fn descriptors_rise(descriptors: &[Descriptor]) -> bool
    ensures { IsTrue result ↔ Rising descriptor_cmp descriptors.now }
{
    descriptors.is_sorted_by(|left, right| compare_descriptors(left, right).is_lt())
}

/// Whether policies stand in the order of table and name, none of them twice.
pub fn policies_rise(policies: &[CataloguePolicy]) -> bool
    ensures { IsTrue result ↔ Rising policy_cmp (policies_in policies.now) }
{
    policies.is_sorted_by(|left, right| compare_policies(&left.policy, &right.policy).is_lt())
}

/// The order of two names, by their bytes.
pub fn compare_names(left: &Name, right: &Name) -> Ordering
    ensures { result ≡ name_cmp left.now right.now }
{
    left.as_str().cmp(right.as_str())
}

/// The order of a membership beside that of this member in this role.
pub(crate) fn compare_with(membership: &Membership, role: &Name, member: &Name) -> Ordering
    ensures { result ≡ ordering_then
        (name_cmp membership.now.role role.now)
        (name_cmp membership.now.member member.now) }
{
    let members = compare_names(&membership.member, member);
    compare_names(&membership.role, role).then(members)
}

fn compare_policies(left: &Policy, right: &Policy) -> Ordering
    ensures { result ≡ policy_cmp left.now right.now }
{
    let names = compare_names(&left.name, &right.name);
    compare_names(&left.table, &right.table).then(names)
}

/// The order of two descriptors, by table, action, column, grantor and grantee.
pub(crate) fn compare_descriptors(left: &Descriptor, right: &Descriptor) -> Ordering
    ensures { result ≡ descriptor_cmp left.now right.now }
{
    let grantees = grantee_name(&left.grantee).cmp(grantee_name(&right.grantee));
    let grantors = grantor_name(&left.grantor).cmp(grantor_name(&right.grantor));
    let columns = left.column.cmp(&right.column);
    let actions = action_number(left.action).cmp(&action_number(right.action));
    let tables = compare_names(&left.table, &right.table);
    tables.then(actions.then(columns.then(grantors.then(grantees))))
}

/// The number of an action.
pub fn action_number(action: Action) -> u8
    ensures { result ≡ number_of action }
{
    match action {
        Action::Select => 1,
        Action::Insert => 2,
        Action::Update => 3,
        Action::Delete => 4,
    }
}

/// The name of a role that granted: the system has the empty one.
pub fn grantor_name(grantor: &Grantor) -> &str
    ensures { result.now ≡ name_of_grantor grantor.now }
{
    match grantor {
        Grantor::System => "",
        Grantor::Role(name) => name.as_str(),
    }
}

/// The name of a role that is granted to: PUBLIC has the empty one, and no role has it.
pub fn grantee_name(grantee: &Grantee) -> &str
    ensures name { result.now ≡ name_of_grantee grantee.now }
    ensures named { IsNamed grantee.now }
{
    match grantee {
        Grantee::Public => "",
        Grantee::Role(name) => name.as_str(),
    }
}
