//! What bounds a column: the values that are known before a row of the table is, and the columns that
//! compare to them in each row.
ghost use Rattle.std.specs.Prelude.{◌≡◌, bytes_eq};
ghost use Rattle.std.specs.List.{list_any};
ghost use Rattle.std.specs.Option.{option_map};
ghost use Rattle.sql_ast.specs.Term.{term_of};
ghost use Rattle.sql_types.specs.Value.{owned};
ghost use Rattle.expressions.specs.Rows.{names_of};
ghost use Rattle.key_ranges.specs.Bounds.{constant};
ghost use Rattle.key_ranges.specs.Boxes.{has_type, is_comparable, kind_of};

use crate::bounds::{BoundKind, key_value, known};
use expressions::eval::Users;
use sql_ast::columns::{ColumnType, Columns};
use sql_ast::expression::{Comparison, Expression};
use sql_ast::scope::ColumnIndex;
use sql_types::value::{Value, ValueRef};

/// The value of an expression that is known before the table's row, where a key may hold it.
pub(crate) fn constant<'a>(
    users: &'a Users<'a>,
    front: &'a [&'a [Value]],
    tree: &'a Expression<ColumnIndex>,
) -> Option<ValueRef<'a>>
    ensures { option_map owned result ≡ constant (names_of users.now) front.now (term_of tree.now) }
{
    match tree {
        Expression::Literal(value) => key_value(value.as_ref()),
        Expression::Column(index) => known(front, *index),
        Expression::CurrentUser => key_value(ValueRef::Text(users.current_user)),
        Expression::SessionUser => key_value(ValueRef::Text(users.session_user)),
        _ => None,
    }
}

/// How a column is bounded that compares so to a value.
pub(crate) fn kind_of(operator: Comparison) -> Option<BoundKind>
    ensures { result ≡ kind_of operator }
{
    match operator {
        Comparison::Equal => Some(BoundKind::Equal),
        Comparison::NotEqual => None,
        Comparison::Less | Comparison::LessOrEqual => Some(BoundKind::Upper),
        Comparison::Greater | Comparison::GreaterOrEqual => Some(BoundKind::Lower),
    }
}

/// Whether this is a column of the key, with values of this one's type.
pub(crate) fn is_comparable(columns: &Columns, index: usize, value: ValueRef<'_>) -> bool
    ensures { result ≡ is_comparable columns.now index (owned value.entry) }
{
    if !columns.key().contains(&index) {
        return false;
    }
    match columns.get(index) {
        Some(column) => has_type(column.column_type, value),
        None => false,
    }
}

fn has_type(column_type: ColumnType, value: ValueRef<'_>) -> bool
    ensures { result ≡ has_type column_type (owned value.entry) }
{
    match (column_type, value) {
        (ColumnType::BigInt, ValueRef::Int(_)) => true,
        (ColumnType::Text, ValueRef::Text(_)) => true,
        (ColumnType::Boolean, ValueRef::Bool(_)) => true,
        _ => false,
    }
}

/// Whether a name is one of these roles'.
pub(crate) fn is_in(roles: &[&str], name: &str) -> bool
    ensures { result ≡ list_any (λ role. bytes_eq name.now role.now) roles.now }
{
    roles.iter().any(|role| name == *role)
}
