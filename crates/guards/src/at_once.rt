//! Conditions whose truth on a row is found at once: no value of the expression is made.

ghost use Rattle.std.specs.Prelude.{◌≡◌, IfSome, Ok};
ghost use Rattle.sql_types.specs.Value.{owned, truth_of};
ghost use Rattle.sql_ast.specs.Term.{term_of, comparison, conjunction};
ghost use Rattle.expressions.specs.Meaning.{value_of};
ghost use Rattle.expressions.specs.Operators.{compared};
ghost use Rattle.expressions.specs.Rows.{cell_at, names_of};
ghost use Rattle.guards.specs.Truths.{truth_in};

use crate::conditions::and;
use expressions::eval::Users;
use expressions::operators::{compare_by, holds_of_numbers};
use sql_ast::expression::{Comparison, Expression};
use sql_ast::scope::ColumnIndex;
use sql_types::row::RowView;
use sql_types::value::{Truth, Value, ValueRef};

/// The truth on a row of a comparison between columns, literals and names of users, or of AND of
/// such. `None` for any other condition.
pub(crate) fn truth_at_once<R: RowView>(
    tree: &Expression<ColumnIndex>,
    row: &R,
    users: &Users<'_>,
) -> Option<Truth>
    ensures { IfSome result (λ truth. truth_in (value_of (cell_at (R.cell row.now))
        (names_of users.now) (term_of tree.now)) ≡ Ok truth) }
{
    match tree {
        Expression::Compare(operator, left, right) => compare_at_once(
            *operator, left, right, row, users,
        ),
        Expression::And(left, right) => {
            let left = truth_at_once(left, row, users)?;
            if left == Truth::False {
                return Some(Truth::False);
            }
            Some(and(left, truth_at_once(right, row, users)?))
        }
        _ => None,
    }
}

// The truth of a comparison of two operands that are at hand. Most compare a column with a literal.
fn compare_at_once<R: RowView>(
    operator: Comparison,
    left: &Expression<ColumnIndex>,
    right: &Expression<ColumnIndex>,
    row: &R,
    users: &Users<'_>,
) -> Option<Truth>
    ensures { IfSome result (λ truth. truth_in (value_of (cell_at (R.cell row.now))
        (names_of users.now) (comparison operator (term_of left.now) (term_of right.now))) ≡ Ok truth) }
{
    match (left, right) {
        (Expression::Column(index), Expression::Literal(literal)) => {
            let value = row.value(index.table, index.column);
            Some(compare_with(operator, value, literal))
        }
        _ => compare_at_hand(operator, left, right, row, users),
    }
}

// The truth of a comparison of a value with a literal. Two numbers are compared where they are.
#[inline(always)]
fn compare_with(operator: Comparison, value: ValueRef<'_>, literal: &Value) -> Truth
    ensures { result ≡ truth_of (compared operator (owned value.entry) literal.now) }
{
    match (value, literal) {
        (ValueRef::Int(left), Value::Int(right)) => {
            if holds_of_numbers(operator, left, *right) {
                Truth::True
            } else {
                Truth::False
            }
        }
        _ => compare_by(operator, value, literal.as_ref()).truth(),
    }
}

// The truth of a comparison of any two operands that are at hand.
#[inline(never)]
fn compare_at_hand<R: RowView>(
    operator: Comparison,
    left: &Expression<ColumnIndex>,
    right: &Expression<ColumnIndex>,
    row: &R,
    users: &Users<'_>,
) -> Option<Truth>
    ensures { IfSome result (λ truth. truth_in (value_of (cell_at (R.cell row.now))
        (names_of users.now) (comparison operator (term_of left.now) (term_of right.now))) ≡ Ok truth) }
{
    let left = operand_at_hand(left, row, users)?;
    let right = operand_at_hand(right, row, users)?;
    Some(compare_by(operator, left, right).truth())
}

// The value of a column, a literal or the name of a user. `None` for any other expression.
#[inline(always)]
fn operand_at_hand<'a, R: RowView>(
    tree: &'a Expression<ColumnIndex>,
    row: &'a R,
    users: &'a Users<'a>,
) -> Option<ValueRef<'a>>
    ensures { IfSome result (λ value. value_of (cell_at (R.cell row.now)) (names_of users.now)
        (term_of tree.now) ≡ Ok (owned value)) }
{
    match tree {
        Expression::Column(index) => Some(row.value(index.table, index.column)),
        Expression::Literal(value) => Some(value.as_ref()),
        Expression::CurrentUser => Some(ValueRef::Text(users.current_user)),
        Expression::SessionUser => Some(ValueRef::Text(users.session_user)),
        _ => None,
    }
}
