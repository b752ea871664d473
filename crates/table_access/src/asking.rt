//! Conditions whose value depends on who acts.

ghost use Rattle.std.specs.Prelude.{◌≡◌};
ghost use Rattle.std.specs.List.{list_any};
ghost use Rattle.sql_ast.specs.Term.{term_of};
ghost use Rattle.table_access.specs.Asking.{names_user, clause_names_user, policy_names_user};

use sql_ast::expression::{ColumnName, Expression};
use sql_ast::policy::{Policy, PolicyClause};

/// Whether one of these policies tells users apart.
pub(crate) fn any_names_user(policies: &[&Policy]) -> bool
    ensures { result ≡ list_any (λ p. policy_names_user p.now) policies.now }
{
    policies.iter().any(|policy| policy_names_user(policy))
}

/// Whether a policy tells users apart: one of its conditions has CURRENT_USER or MEMBER OF in it.
fn policy_names_user(policy: &Policy) -> bool
    ensures { result ≡ policy_names_user policy.now }
{
    clause_names_user(&policy.using) || clause_names_user(&policy.check)
}

fn clause_names_user(clause: &Option<PolicyClause>) -> bool
    ensures { result ≡ clause_names_user clause.now }
{
    match clause {
        None => false,
        Some(clause) => names_user(clause.expression.tree()),
    }
}

/// Whether an expression has CURRENT_USER or MEMBER OF in it.
fn names_user(tree: &Expression<ColumnName>) -> bool
    ensures { result ≡ names_user (term_of tree.now) }
{
    match tree {
        Expression::CurrentUser | Expression::MemberOf(_) => true,
        Expression::Literal(_) | Expression::Column(_) | Expression::SessionUser => false,
        Expression::Compare(_, left, right)
        | Expression::Arithmetic(_, left, right)
        | Expression::And(left, right)
        | Expression::Or(left, right) => names_user(left) || names_user(right),
        Expression::Negate(operand)
        | Expression::Not(operand)
        | Expression::IsNull(operand)
        | Expression::IsNotNull(operand) => names_user(operand),
    }
}
