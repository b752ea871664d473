//! Expressions with a parenthesis around each operator and its operands.

use crate::told::Told;
use crate::values::put_value;
use crate::words::{comparison_sign, operation_sign};
use sql_ast::expression::{ColumnName, Expression};

/// Tells an expression, with parentheses around every operator.
#[cycle(expression)]
pub fn put_expression(out: &mut Told, expression: &Expression<ColumnName>) {
    match expression {
        Expression::Literal(value) => put_value(out, value.as_ref()),
        Expression::Column(column) => put_column(out, column),
        Expression::CurrentUser => out.put("CURRENT_USER"),
        Expression::SessionUser => out.put("SESSION_USER"),
        Expression::Compare(operator, left, right) => {
            put_operand(out, "(", left, comparison_sign(*operator));
            put_operand(out, " ", right, ")");
        }
        Expression::Arithmetic(operator, left, right) => {
            put_operand(out, "(", left, operation_sign(*operator));
            put_operand(out, " ", right, ")");
        }
        Expression::And(left, right) => {
            put_operand(out, "(", left, " AND");
            put_operand(out, " ", right, ")");
        }
        Expression::Or(left, right) => {
            put_operand(out, "(", left, " OR");
            put_operand(out, " ", right, ")");
        }
        Expression::Negate(operand) => put_operand(out, "(-", operand, ")"),
        Expression::Not(operand) => put_operand(out, "(NOT ", operand, ")"),
        Expression::IsNull(operand) => put_operand(out, "(", operand, " IS NULL)"),
        Expression::IsNotNull(operand) => put_operand(out, "(", operand, " IS NOT NULL)"),
        Expression::MemberOf(operand) => put_operand(out, "(MEMBER OF ", operand, ")"),
    }
}

/// Tells an operand between what stands before and after it.
#[cycle(expression)]
fn put_operand(out: &mut Told, before: &str, operand: &Expression<ColumnName>, after: &str) {
    out.put(before);
    put_expression(out, operand);
    out.put(after);
}

fn put_column(out: &mut Told, column: &ColumnName) {
    if let Some(table) = &column.table {
        out.put_all(&[table.as_str(), "."]);
    }
    out.put(column.column.as_str());
}
