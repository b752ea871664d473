//! Whether a role is in use (PostgreSQL manual, DROP ROLE).

ghost use Rattle.std.specs.Prelude.{◌≡◌, bytes_eq};
ghost use Rattle.std.specs.List.{list_any};
ghost use Rattle.abstract_database.specs.Database.{grantor_name, grantee_name};
ghost use Rattle.abstract_database.specs.Definitions.{names_role};
ghost use Rattle.abstract_database.specs.Lists.{has_name};
ghost use Rattle.schema_statements.specs.RoleUsage.{is_of_role as is_of, is_for_role, uses_role, stays};

use catalogue::definitions::Catalogue;
use catalogue::policy::CataloguePolicy;
use catalogue::table::TableDefinition;
use sql_ast::policy::PolicyRoles;
use sql_ast::privilege::{Descriptor, Grantee, Grantor};
use sql_types::name::Name;

/// Whether a role has to stay: it is in use, or the current role or the login role.
pub(crate) fn must_stay(catalogue: &Catalogue, current: &Name, session: &Name, role: &Name) -> bool
    ensures { result ≡ stays role.now current.now session.now catalogue.now.tables }
{
    is_in_use(catalogue, role) || *current == *role || *session == *role
}

// Whether a role owns a table, stands in a privilege descriptor or is named by a policy. Its
// memberships are no use: they go with it.
fn is_in_use(catalogue: &Catalogue, role: &Name) -> bool
    ensures { result ≡ list_any (uses_role role.now) catalogue.now.tables }
{
    catalogue.tables().iter().any(|table| uses(table, role))
}

// Whether a role owns a table, stands in a privilege descriptor for it or is named by its policies.
fn uses(table: &TableDefinition, role: &Name) -> bool
    ensures { result ≡ uses_role role.now table.now }
{
    *table.owner() == *role
        || stands_in_one(role, table.descriptors())
        || has_policy_for(role, table)
}

// Whether one of the privileges was granted by the role or to it.
fn stands_in_one(role: &Name, descriptors: &[Descriptor]) -> bool
    ensures { result ≡ list_any (is_of role.now) descriptors.now }
{
    descriptors.iter().any(|descriptor| is_grantor(role, &descriptor.grantor)
        || is_grantee(role, &descriptor.grantee))
}

// Whether the role granted it.
fn is_grantor(role: &Name, grantor: &Grantor) -> bool
    ensures { result ≡ bytes_eq (grantor_name grantor.now) role.now }
{
    // For the proof: a name is text, and has no zero byte.
    let _name = role.as_str();
    match grantor {
        Grantor::System => false,
        Grantor::Role(name) => *name == *role,
    }
}

// Whether it was granted to the role.
fn is_grantee(role: &Name, grantee: &Grantee) -> bool
    ensures { result ≡ bytes_eq (grantee_name grantee.now) role.now }
{
    // For the proof: a name is text, and has no zero byte.
    let _name = role.as_str();
    match grantee {
        Grantee::Public => false,
        Grantee::Role(name) => *name == *role,
    }
}

// Whether one of the policies of a table is for the role among others.
fn has_policy_for(role: &Name, table: &TableDefinition) -> bool
    ensures { result ≡ list_any (is_for_role role.now) table.now.policies }
{
    is_named_by_one(role, table.policies())
}

// Whether one of the policies is for the role among others.
fn is_named_by_one(role: &Name, policies: &[CataloguePolicy]) -> bool
    ensures { result ≡ list_any (λ p. is_for_role role.now p.policy) policies.now }
{
    policies
        .iter()
        .any(|policy| is_named(role, &policy.policy.roles))
}

// Whether a policy for these roles names the role.
fn is_named(role: &Name, roles: &PolicyRoles) -> bool
    ensures { result ≡ names_role roles.now role.now }
{
    match roles {
        PolicyRoles::Public => false,
        PolicyRoles::Only(names) => is_one(role, names.as_slice()),
    }
}

// Whether the name of a role is one of these.
fn is_one(role: &Name, names: &[Name]) -> bool
    ensures { result ≡ has_name role.now names.now }
{
    names.iter().any(|name| *role == *name)
}
