//! The limits of a policy: its roles are counted in a byte, and its record has a size that a store
//! takes.

ghost use Rattle.std.specs.Prelude.{◌≡◌, ◌*◌, ◌≤◌, length, is_some, IfSome};
ghost use Rattle.sql_ast.specs.declared.policy.PolicyRoles.TheVariants.{Only as only};
ghost use Rattle.abstract_database.specs.Checks.{has_few_roles};
ghost use Rattle.abstract_database.specs.Sizes.{names_size as size_of_names, roles_size as size_of_roles, clause_size as size_of_clause};
ghost use Rattle.schema_statements.specs.PolicyChecks.{keeps_limits as within_limits};

use sql_ast::policy::{Policy, PolicyClause, PolicyRoles};
use sql_types::name::Name;
use storage_sizes::MAX_VALUE_LENGTH;

// The most roles of a policy.
const MAX_ROLES: usize = 255;

/// Whether a policy is for 255 roles at most, and its record takes 1,200 bytes at most: a byte each
/// for kind, command and number of roles, each role's name and a byte, and each condition's text and
/// 3 bytes, or 1 byte where there is none.
pub(crate) fn keeps_limits(policy: &Policy) -> bool
    ensures { result ≡ within_limits policy.now }
{
    let Some(roles) = roles_size(&policy.roles) else {
        return false;
    };
    let clauses = clause_size(&policy.using).saturating_add(clause_size(&policy.check));
    clauses.saturating_add(3 + roles) <= MAX_VALUE_LENGTH
}

// The bytes that the roles take in a record, or `None` where there are too many.
fn roles_size(roles: &PolicyRoles) -> Option<usize>
    ensures few { is_some result ≡ has_few_roles roles.now }
    ensures size { IfSome result (λ size. size ≡ size_of_roles roles.now) }
    ensures small { IfSome result (λ size. size ≤ 64 * 255) }
{
    match roles {
        PolicyRoles::Public => Some(0),
        PolicyRoles::Only(names) if names.len() <= MAX_ROLES => Some(names_size(names.as_slice())),
        PolicyRoles::Only(_) => None,
    }
}

// The bytes that names take: each with a byte for its length.
fn names_size(names: &[Name]) -> usize
    requires { length names.now ≤ 255 }
    ensures size { result ≡ size_of_names names.now }
    ensures small { result ≤ 64 * 255 }
{
    let mut size = 0;
    for name in names {
        size += name.as_str().len() + 1;
    }
    size
}

// The bytes that a condition takes.
fn clause_size(clause: &Option<PolicyClause>) -> usize
    ensures { result ≡ size_of_clause clause.now }
{
    match clause {
        None => 1,
        Some(clause) => clause.text.as_str().len() + 3,
    }
}
