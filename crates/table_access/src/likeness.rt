//! Whether a role comes to something else by SET ROLE.

ghost use Rattle.std.specs.Prelude.{◌≡◌, map};
ghost use Rattle.std.specs.Cmp.Lexicographic.{pointwise};
ghost use Rattle.table_access.specs.Having.{same_policy};
ghost use Rattle.table_access.specs.Likeness.{differ, comes_to_more, is_shown};

use crate::action::ActionAccess;
use crate::role::RoleAccess;
use sql_ast::policy::Policy;

/// Whether a role, which is a superuser or not, is shown as another one: it may set it, and that differs.
pub(crate) fn is_shown(is_superuser: bool, one: &RoleAccess<'_>, other: &RoleAccess<'_>) -> bool
    ensures { result ≡ is_shown is_superuser one.now other.now }
{
    !is_superuser
        && one.role.name != other.role.name
        && one.roles.contains(&other.role.name)
        && comes_to_more(one, other)
}

/// Whether the other role has something else, or rows of its own.
fn comes_to_more(one: &RoleAccess<'_>, other: &RoleAccess<'_>) -> bool
    ensures { result ≡ comes_to_more one.now other.now }
{
    one.is_guarded != other.is_guarded
        || differ(&one.select, &other.select)
        || differ(&one.insert, &other.insert)
        || differ(&one.update, &other.update)
        || differ(&one.delete, &other.delete)
}

/// Whether the other one is something else for an action, or under policies that tell users apart.
fn differ(one: &ActionAccess<'_>, other: &ActionAccess<'_>) -> bool
    ensures { result ≡ differ one.now other.now }
{
    one.is_allowed != other.is_allowed
        || one.on_table != other.on_table
        || one.columns.as_slice() != other.columns.as_slice()
        || !same_policies(one.policies.as_slice(), other.policies.as_slice())
        || other.names_user
}

/// Whether two lists have the same policies of one table.
fn same_policies(one: &[&Policy], other: &[&Policy]) -> bool
    ensures { result ≡ pointwise same_policy (map (λ p. p.now) one.now) (map (λ p. p.now) other.now) }
{
    if one.len() != other.len() {
        return false;
    }
    for index in 0..one.len() {
        if one[index].name != other[index].name {
            return false;
        }
    }
    true
}
