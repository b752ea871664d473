//! Name resolution: the column that each name of an expression means.

ghost use Rattle.std.specs.Prelude.{◌≡◌, IfOk};
ghost use Rattle.sql_ast.specs.Scope.{tables_of};
ghost use Rattle.sql_ast.specs.Term.{term_of};
ghost use Rattle.expressions.specs.Names.{resolved, AnswersUnlessMemory, GivesTermUnlessMemory, GivesOperandUnlessMemory, GivesOperandsUnlessMemory, MeansTheSame};

use sql_ast::expr::Expr;
use sql_ast::expression::{ColumnName, Expression};
use sql_ast::scope::{ColumnIndex, Scope};
use sql_types::state::Refusal;
use sql_types::try_copy::TryCopy;
use std::alloc::Global;
use std::marker::Model;

/// An expression whose columns are given by their indices, which contracts see as its term.
#[derive(Drop)]
pub struct Resolved {
    tree: Expression<ColumnIndex>,
}

impl Model for Resolved {
    ghost use Rattle.sql_ast.specs.Term.{Term, term_of};
    ghost use Rattle.sql_ast.specs.declared.scope.ColumnIndex.{ColumnIndex};
    ghost use Rattle.expressions.specs.Code.{resolved_code};

    ghost Value = { Term ColumnIndex };

    ghost coded = { resolved_code };

    ghost view = { λ e. term_of e.tree };
}

impl Resolved {
    /// The tree, lent.
    pub fn tree(&self) -> &Expression<ColumnIndex>
        ensures { term_of result.now ≡ self.now }
    {
        &self.tree
    }

    /// The tree, in the same memory.
    pub fn into_tree(self) -> Expression<ColumnIndex>
        ensures { term_of result ≡ self }
    {
        self.tree
    }
}

/// An expression with the index of each column in a scope.
///
/// It is refused where a column is not found once: with the refusal of [`Scope::find`] for the
/// first such column of the text.
#[tactic(auto, using(crate::proofs::Meanings::resolved_means))]
pub fn resolve(alloc: Global, expression: &Expr, scope: &Scope<'_>) -> Result<Resolved, Refusal>
    ensures answer { AnswersUnlessMemory result (resolved (tables_of scope.now) expression.now) }
    ensures means { IfOk result (λ found. MeansTheSame (tables_of scope.now) found expression.now) }
{
    let tree = resolve_tree(alloc, expression.tree(), scope)?;
    Ok(Resolved { tree })
}

#[cycle(resolution)]
fn resolve_tree(
    alloc: Global,
    tree: &Expression<ColumnName>,
    scope: &Scope<'_>,
) -> Result<Expression<ColumnIndex>, Refusal>
    ensures { GivesTermUnlessMemory result
        (resolved (tables_of scope.now) (term_of tree.now)) }
{
    match tree {
        Expression::Literal(value) => Ok(Expression::Literal(value.try_copy(alloc)?)),
        Expression::Column(name) => Ok(Expression::Column(scope.find(name)?)),
        Expression::CurrentUser => Ok(Expression::CurrentUser),
        Expression::SessionUser => Ok(Expression::SessionUser),
        Expression::Compare(operator, left, right) => {
            let (left, right) = resolve_both(alloc, left, right, scope)?;
            Ok(Expression::Compare(*operator, left, right))
        }
        Expression::Arithmetic(operator, left, right) => {
            let (left, right) = resolve_both(alloc, left, right, scope)?;
            Ok(Expression::Arithmetic(*operator, left, right))
        }
        Expression::And(left, right) => {
            let (left, right) = resolve_both(alloc, left, right, scope)?;
            Ok(Expression::And(left, right))
        }
        Expression::Or(left, right) => {
            let (left, right) = resolve_both(alloc, left, right, scope)?;
            Ok(Expression::Or(left, right))
        }
        Expression::Negate(operand) => {
            Ok(Expression::Negate(resolve_operand(alloc, operand, scope)?))
        }
        Expression::Not(operand) => { Ok(Expression::Not(resolve_operand(alloc, operand, scope)?)) }
        Expression::IsNull(operand) => {
            Ok(Expression::IsNull(resolve_operand(alloc, operand, scope)?))
        }
        Expression::IsNotNull(operand) => {
            Ok(Expression::IsNotNull(resolve_operand(alloc, operand, scope)?))
        }
        Expression::MemberOf(operand) => {
            Ok(Expression::MemberOf(resolve_operand(alloc, operand, scope)?))
        }
    }
}

// An operand, in memory of its own.
#[cycle(resolution)]
fn resolve_operand(
    alloc: Global,
    operand: &Expression<ColumnName>,
    scope: &Scope<'_>,
) -> Result<Box<Expression<ColumnIndex>>, Refusal>
    ensures { GivesOperandUnlessMemory result
        (resolved (tables_of scope.now) (term_of operand.now)) }
{
    let operand = resolve_tree(alloc, operand, scope)?;
    Ok(Box::new(alloc, operand)?)
}

// Both operands, the left one first.
#[cycle(resolution)]
fn resolve_both(
    alloc: Global,
    left: &Expression<ColumnName>,
    right: &Expression<ColumnName>,
    scope: &Scope<'_>,
) -> Result<(Box<Expression<ColumnIndex>>, Box<Expression<ColumnIndex>>), Refusal>
    ensures { GivesOperandsUnlessMemory result
        (resolved (tables_of scope.now) (term_of left.now))
        (resolved (tables_of scope.now) (term_of right.now)) }
{
    let left = resolve_operand(alloc, left, scope)?;
    let right = resolve_operand(alloc, right, scope)?;
    Ok((left, right))
}
