//! Conditions of a statement as they are written in SQL.

use crate::literal_text::{push_name, push_value};
use sql_ast::expression::{Comparison, Expression, Operation};
use sql_ast::scope::{ColumnIndex, ScopeTable};
use std::alloc::{AllocError, Global};

/// How tightly an operator binds its operands, from loose to tight.
#[derive(Clone, Copy, PartialEq, Eq, PartialOrd, Ord)]
enum Precedence {
    Or,
    And,
    Not,
    Null,
    Comparison,
    Sum,
    Product,
    Sign,
    Operand,
}

/// What the text of an expression is made with: the tables of its statement under their names there.
#[derive(Clone, Copy)]
pub(crate) struct ExpressionWriter<'a> {
    pub(crate) alloc: Global,
    pub(crate) tables: &'a [ScopeTable<'a>],
}

impl<'a> ExpressionWriter<'a> {
    /// Adds an expression, with the parentheses that it needs.
    #[cycle(writing)]
    pub(crate) fn push(
        &self,
        out: &mut String,
        tree: &Expression<ColumnIndex>,
    ) -> Result<(), AllocError> {
        match tree {
            Expression::Literal(value) => push_value(self.alloc, out, value.as_ref()),
            Expression::Column(index) => self.push_column(out, *index),
            Expression::CurrentUser => out.push_str("CURRENT_USER"),
            Expression::SessionUser => out.push_str("SESSION_USER"),
            Expression::Compare(operator, left, right) => {
                self.push_operand(out, left, Precedence::Sum)?;
                out.push_str(comparison_word(*operator))?;
                self.push_operand(out, right, Precedence::Sum)
            }
            Expression::Arithmetic(operator, left, right) => {
                self.push_operand(out, left, arithmetic_precedence(*operator))?;
                out.push_str(operation_word(*operator))?;
                self.push_operand(out, right, right_precedence(*operator))
            }
            Expression::And(left, right) => {
                self.push_operand(out, left, Precedence::And)?;
                out.push_str(" AND ")?;
                self.push_operand(out, right, Precedence::Not)
            }
            Expression::Or(left, right) => {
                self.push_operand(out, left, Precedence::Or)?;
                out.push_str(" OR ")?;
                self.push_operand(out, right, Precedence::And)
            }
            Expression::Negate(operand) => {
                out.push_str("- ")?;
                self.push_operand(out, operand, Precedence::Operand)
            }
            Expression::Not(operand) => {
                out.push_str("NOT ")?;
                self.push_operand(out, operand, Precedence::Not)
            }
            Expression::IsNull(operand) => {
                self.push_operand(out, operand, Precedence::Comparison)?;
                out.push_str(" IS NULL")
            }
            Expression::IsNotNull(operand) => {
                self.push_operand(out, operand, Precedence::Comparison)?;
                out.push_str(" IS NOT NULL")
            }
            Expression::MemberOf(operand) => {
                out.push_str("MEMBER OF ")?;
                self.push_operand(out, operand, Precedence::Operand)
            }
        }
    }

    // Adds an operand, in parentheses where it binds more loosely than this.
    #[cycle(writing)]
    fn push_operand(
        &self,
        out: &mut String,
        tree: &Expression<ColumnIndex>,
        least: Precedence,
    ) -> Result<(), AllocError> {
        if precedence_of(tree) < least {
            out.push('(')?;
            self.push(out, tree)?;
            return out.push(')');
        }
        self.push(out, tree)
    }

    // Adds a column, with the name of its table where there are several.
    fn push_column(&self, out: &mut String, index: ColumnIndex) -> Result<(), AllocError> {
        let Some(table) = self.tables.get(index.table) else {
            return Ok(());
        };
        if self.tables.len() > 1 {
            push_name(self.alloc, out, table.name.as_str())?;
            out.push('.')?;
        }
        match table.columns.get(index.column) {
            Some(column) => push_name(self.alloc, out, column.name.as_str()),
            None => Ok(()),
        }
    }
}

// How tightly the operator of an expression binds.
fn precedence_of(tree: &Expression<ColumnIndex>) -> Precedence {
    match tree {
        Expression::Literal(_)
        | Expression::Column(_)
        | Expression::CurrentUser
        | Expression::SessionUser
        | Expression::MemberOf(_) => Precedence::Operand,
        Expression::Compare(_, _, _) => Precedence::Comparison,
        Expression::Arithmetic(operator, _, _) => arithmetic_precedence(*operator),
        Expression::Negate(_) => Precedence::Sign,
        Expression::And(_, _) => Precedence::And,
        Expression::Or(_, _) => Precedence::Or,
        Expression::Not(_) => Precedence::Not,
        Expression::IsNull(_) | Expression::IsNotNull(_) => Precedence::Null,
    }
}

fn arithmetic_precedence(operator: Operation) -> Precedence {
    match operator {
        Operation::Add | Operation::Subtract => Precedence::Sum,
        Operation::Multiply | Operation::Divide | Operation::Remainder => Precedence::Product,
    }
}

// How tightly the right operand of arithmetic has to bind, which groups to the left.
fn right_precedence(operator: Operation) -> Precedence {
    match operator {
        Operation::Add | Operation::Subtract => Precedence::Product,
        Operation::Multiply | Operation::Divide | Operation::Remainder => Precedence::Sign,
    }
}

fn comparison_word(operator: Comparison) -> &'static str {
    match operator {
        Comparison::Equal => " = ",
        Comparison::NotEqual => " <> ",
        Comparison::Less => " < ",
        Comparison::LessOrEqual => " <= ",
        Comparison::Greater => " > ",
        Comparison::GreaterOrEqual => " >= ",
    }
}

fn operation_word(operator: Operation) -> &'static str {
    match operator {
        Operation::Add => " + ",
        Operation::Subtract => " - ",
        Operation::Multiply => " * ",
        Operation::Divide => " / ",
        Operation::Remainder => " % ",
    }
}
