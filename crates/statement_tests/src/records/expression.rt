//! Expressions in words: each operator before its operands.

use crate::told::Told;
use crate::values::put_value;
use crate::words::{comparison_sign, operation_sign};
use sql_ast::expression::{ColumnName, Expression};

/// Tells an expression.
#[cycle(expression)]
pub fn put_expression(out: &mut Told, expression: &Expression<ColumnName>) {
    match expression {
        Expression::Literal(value) => {
            out.put(" ");
            put_value(out, value.as_ref());
        }
        Expression::Column(column) => put_column(out, column),
        Expression::CurrentUser => out.put(" CURRENT_USER"),
        Expression::SessionUser => out.put(" SESSION_USER"),
        Expression::Compare(operator, left, right) => {
            put_operand(out, comparison_sign(*operator), left);
            put_expression(out, right);
        }
        Expression::Arithmetic(operator, left, right) => {
            put_operand(out, operation_sign(*operator), left);
            put_expression(out, right);
        }
        Expression::And(left, right) => {
            put_operand(out, " AND", left);
            put_expression(out, right);
        }
        Expression::Or(left, right) => {
            put_operand(out, " OR", left);
            put_expression(out, right);
        }
        Expression::Negate(operand) => put_operand(out, " negative", operand),
        Expression::Not(operand) => put_operand(out, " NOT", operand),
        Expression::IsNull(operand) => put_operand(out, " IS NULL", operand),
        Expression::IsNotNull(operand) => put_operand(out, " IS NOT NULL", operand),
        Expression::MemberOf(operand) => put_operand(out, " MEMBER OF", operand),
    }
}

/// Tells an operator and an operand.
#[cycle(expression)]
fn put_operand(out: &mut Told, operator: &str, operand: &Expression<ColumnName>) {
    out.put(operator);
    put_expression(out, operand);
}

/// Tells a column: the table that is written before it, if one is, a point and its name.
fn put_column(out: &mut Told, column: &ColumnName) {
    out.put(" ");
    if let Some(table) = &column.table {
        out.put(table.as_str());
    }
    out.put_name(".", &column.column);
}
