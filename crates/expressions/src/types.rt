//! The types of expressions.

ghost use Rattle.std.specs.Prelude.{◌≡◌, IfOk};
ghost use Rattle.sql_ast.specs.Scope.{tables_of, type_at};
ghost use Rattle.sql_ast.specs.Term.{term_of};
ghost use Rattle.expressions.specs.Names.{AnswersUnlessMemory, MeansTheSame};
ghost use Rattle.expressions.specs.Types.{type_of, type_of_value, fits, agree, typed_if, typed, names_then_types, KeepsType};

use crate::names::{Resolved, resolve};
use sql_ast::columns::ColumnType;
use sql_ast::expr::Expr;
use sql_ast::expression::Expression;
use sql_ast::scope::{ColumnIndex, Scope};
use sql_types::state::{Refusal, SqlState};
use sql_types::try_copy::TryCopy;
use sql_types::value::Value;
use std::alloc::{AllocError, Global};
use std::marker::Model;

/// An expression whose columns are resolved and whose operands have the types that its operators
/// take, which contracts see as its term and its type.
#[derive(Drop)]
pub struct Typed {
    tree: Expression<ColumnIndex>,
    value_type: Option<ColumnType>,
}

impl Model for Typed {
    ghost use Rattle.sql_ast.specs.Term.{term_of};
    ghost use Rattle.expressions.specs.Types.{TypedTerm};
    ghost use Rattle.expressions.specs.Code.{typed_code};

    ghost Value = { TypedTerm };

    ghost coded = { typed_code };

    ghost view = { λ e. record { term = term_of e.tree; value_type = e.value_type } };
}

impl Typed {
    /// The tree, lent.
    pub fn tree(&self) -> &Expression<ColumnIndex>
        ensures { term_of result.now ≡ self.now.term }
    {
        &self.tree
    }

    /// The type of its values, or `None` for the word NULL, which fits every type.
    pub fn value_type(&self) -> Option<ColumnType>
        ensures { result ≡ self.now.value_type }
    {
        self.value_type
    }

    /// Whether it may stand where a type is expected: it has that type, or is the word NULL.
    pub fn fits(&self, expected: ColumnType) -> bool
        ensures { result ≡ fits expected self.now.value_type }
    {
        fits(self.value_type, expected)
    }
}

impl TryCopy for Typed {
    fn try_copy(&self, alloc: Global) -> Result<Typed, AllocError> {
        let tree = self.tree.try_copy(alloc)?;
        Ok(Typed {
            tree,
            value_type: self.value_type,
        })
    }
}

/// An expression with the indices of its columns in a scope and its type: each name is resolved
/// before any type is checked.
///
/// It is refused as by [`resolve`], and then as by [`find_type`].
pub fn check_types(alloc: Global, expression: &Expr, scope: &Scope<'_>) -> Result<Typed, Refusal>
    ensures answer { AnswersUnlessMemory result (names_then_types (tables_of scope.now) expression.now) }
    ensures means { IfOk result (λ found. MeansTheSame (tables_of scope.now) found.term expression.now) }
    ensures keeps_type { IfOk result
        (λ found. KeepsType (type_at (tables_of scope.now)) found.term found.value_type) }
{
    let resolved = resolve(alloc, expression, scope)?;
    Ok(find_type(resolved, scope)?)
}

/// An expression whose columns are resolved, with its type (SQL:2016 Foundation, 6.29, 6.39, 8.2
/// and 8.8).
///
/// Refused with `DatatypeMismatch` where an operator's operand has another type than it takes.
pub fn find_type(resolved: Resolved, scope: &Scope<'_>) -> Result<Typed, SqlState>
    ensures answer { result ≡ typed (tables_of scope.now) resolved }
    ensures same_term { IfOk result (λ found. found.term ≡ resolved) }
    ensures keeps_type { IfOk result
        (λ found. KeepsType (type_at (tables_of scope.now)) found.term found.value_type) }
{
    let value_type = type_of(resolved.tree(), scope)?;
    let tree = resolved.into_tree();
    Ok(Typed { tree, value_type })
}

fn type_of(
    tree: &Expression<ColumnIndex>,
    scope: &Scope<'_>,
) -> Result<Option<ColumnType>, SqlState>
    ensures answer { result ≡ type_of (type_at (tables_of scope.now)) (term_of tree.now) }
    ensures keeps_type { IfOk result (λ t. KeepsType (type_at (tables_of scope.now)) (term_of tree.now) t) }
{
    match tree {
        Expression::Literal(value) => Ok(type_of_value(value)),
        Expression::Column(index) => Ok(scope.type_at(*index)),
        Expression::CurrentUser => Ok(Some(ColumnType::Text)),
        Expression::SessionUser => Ok(Some(ColumnType::Text)),
        Expression::Compare(_, left, right) => {
            let left = type_of(left, scope)?;
            let right = type_of(right, scope)?;
            typed_if(agree(left, right), ColumnType::Boolean)
        }
        Expression::Arithmetic(_, left, right) => {
            let left = type_of(left, scope)?;
            let right = type_of(right, scope)?;
            let fitting = fits(left, ColumnType::BigInt) && fits(right, ColumnType::BigInt);
            typed_if(fitting, ColumnType::BigInt)
        }
        Expression::Negate(operand) => {
            let operand = type_of(operand, scope)?;
            typed_if(fits(operand, ColumnType::BigInt), ColumnType::BigInt)
        }
        Expression::And(left, right) | Expression::Or(left, right) => {
            let left = type_of(left, scope)?;
            let right = type_of(right, scope)?;
            let fitting = fits(left, ColumnType::Boolean) && fits(right, ColumnType::Boolean);
            typed_if(fitting, ColumnType::Boolean)
        }
        Expression::Not(operand) => {
            let operand = type_of(operand, scope)?;
            typed_if(fits(operand, ColumnType::Boolean), ColumnType::Boolean)
        }
        Expression::IsNull(operand) | Expression::IsNotNull(operand) => {
            let _ = type_of(operand, scope)?; // Any type will do.
            Ok(Some(ColumnType::Boolean))
        }
        Expression::MemberOf(operand) => {
            let operand = type_of(operand, scope)?;
            typed_if(fits(operand, ColumnType::Text), ColumnType::Boolean)
        }
    }
}

fn type_of_value(value: &Value) -> Option<ColumnType>
    ensures { result ≡ type_of_value value.now }
{
    match value {
        Value::Null => None,
        Value::Int(_) => Some(ColumnType::BigInt),
        Value::Text(_) => Some(ColumnType::Text),
        Value::Bool(_) => Some(ColumnType::Boolean),
    }
}

fn fits(value_type: Option<ColumnType>, expected: ColumnType) -> bool
    ensures { result ≡ fits expected value_type }
{
    match value_type {
        None => true,
        Some(value_type) => value_type == expected,
    }
}

fn agree(left: Option<ColumnType>, right: Option<ColumnType>) -> bool
    ensures { result ≡ agree left right }
{
    match left {
        None => true,
        Some(left) => fits(right, left),
    }
}

fn typed_if(fitting: bool, value_type: ColumnType) -> Result<Option<ColumnType>, SqlState>
    ensures { result ≡ typed_if fitting value_type }
{
    if fitting {
        Ok(Some(value_type))
    } else {
        Err(SqlState::DatatypeMismatch)
    }
}
