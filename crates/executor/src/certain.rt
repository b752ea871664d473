//! Conditions that are true of each row of a span, by what is known of all its rows alone.
ghost use Rattle.std.specs.Prelude.{◌≡◌, IsTrue, IfSome};
ghost use Rattle.sql_ast.specs.Term.{term_of, comparison, member_test};
ghost use Rattle.sql_types.specs.Value.{owned};
ghost use Rattle.expressions.specs.Rows.{names_of};
ghost use Rattle.expressions.specs.Truths.{true_value};
ghost use Rattle.executor.specs.Certain.{AreCertain, AreFormulasCertain, AreLentCertain, HasKnownValue, HoldsAlikeOnLeft, HoldsAlikeOnRight, IsAnyCertain, IsBoundOf, IsCertain, IsFormulaCertain, IsOperand, bound_on_left, bound_on_right};

use crate::known_columns::{KnownColumn, KnownColumns};
use expressions::eval::Users;
use expressions::infallible::{has_no_arithmetic, is_infallible};
use expressions::operators::compare_by;
use expressions::types::Typed;
use guards::guard::Formula;
use sql_ast::expression::{Comparison, Expression};
use sql_ast::scope::ColumnIndex;
use sql_types::value::ValueRef;

/// The rows of a span of a table, by what is known of them, and the users of whom conditions speak.
#[derive(Clone, Copy)]
pub(crate) struct SpanRows<'a> {
    pub(crate) known: &'a KnownColumns<'a>,
    pub(crate) users: &'a Users<'a>,
}

impl<'a> SpanRows<'a> {
    /// Whether each of these formulas of row security is true of each row.
    pub(crate) fn are_formulas_true(&self, formulas: &'a [Formula<'a>]) -> bool
        ensures { IsTrue result → AreFormulasCertain self.now.known.now (names_of self.now.users.now) formulas.now }
    {
        for formula in formulas {
            if !self.is_formula_true(formula) {
                return false;
            }
        }
        true
    }

    // Whether a formula is true of each row: one of its permissive policies is, and all restrictive ones are.
    fn is_formula_true(&self, formula: &'a Formula<'a>) -> bool
        ensures { IsTrue result → IsFormulaCertain self.now.known.now (names_of self.now.users.now) formula.now }
    {
        self.is_any_true(formula.permissive.as_slice())
            && self.are_lent_true(formula.restrictive.as_slice())
    }

    // Whether one of these conditions is true of each row, and those before it fail on none.
    fn is_any_true(&self, conditions: &'a [&'a Typed]) -> bool
        ensures { IsTrue result → IsAnyCertain self.now.known.now (names_of self.now.users.now) conditions.now }
    {
        for condition in conditions {
            if self.is_true(condition.tree()) {
                return true;
            }
            if !is_infallible(condition) {
                return false;
            }
        }
        false
    }

    // Whether all of these conditions, which are lent, are true of each row.
    fn are_lent_true(&self, conditions: &'a [&'a Typed]) -> bool
        ensures { IsTrue result → AreLentCertain self.now.known.now (names_of self.now.users.now) conditions.now }
    {
        for condition in conditions {
            if !self.is_true(condition.tree()) {
                return false;
            }
        }
        true
    }

    /// Whether all of these conditions are true of each row.
    pub(crate) fn are_true(&self, conditions: &'a [Typed]) -> bool
        ensures { IsTrue result → AreCertain self.now.known.now (names_of self.now.users.now) conditions.now }
    {
        for condition in conditions {
            if !self.is_true(condition.tree()) {
                return false;
            }
        }
        true
    }

    // Whether a condition is true of each row: a comparison with the values and the bounds that are known, MEMBER OF
    // a value that is known, or such conditions joined by AND, or by OR behind what cannot fail.
    fn is_true(&self, tree: &'a Expression<ColumnIndex>) -> bool
        ensures { IsTrue result → IsCertain self.now.known.now (names_of self.now.users.now) (term_of tree.now) }
    {
        match tree {
            Expression::And(left, right) => self.is_true(left) && self.is_true(right),
            Expression::Or(left, right) => {
                self.is_true(left) || (has_no_arithmetic(left) && self.is_true(right))
            }
            Expression::Compare(operator, left, right) => self.is_compared(*operator, left, right),
            Expression::MemberOf(operand) => self.is_role(operand),
            Expression::Literal(value) => is_yes(value.as_ref()),
            _ => false,
        }
    }

    // Whether a comparison is true of each row.
    fn is_compared(
        &self,
        operator: Comparison,
        left: &'a Expression<ColumnIndex>,
        right: &'a Expression<ColumnIndex>,
    ) -> bool
        ensures { IsTrue result → IsCertain self.now.known.now (names_of self.now.users.now) (comparison operator (term_of left.now) (term_of right.now)) }
    {
        match (self.on_left(operator, left), self.on_right(operator, right)) {
            (Some(left), Some(right)) => is_yes(compare_by(operator, left, right)),
            _ => false,
        }
    }

    // A value such that a comparison that holds of it, on the left, holds of this operand in each row.
    fn on_left(
        &self,
        operator: Comparison,
        tree: &'a Expression<ColumnIndex>,
    ) -> Option<ValueRef<'a>>
        ensures { IfSome result (λ v. IsOperand (HoldsAlikeOnLeft operator) self.now.known.now
            (names_of self.now.users.now) (term_of tree.now) (owned v)) }
    {
        match self.value(tree) {
            Some(value) => Some(value),
            None => bound_of(tree, self.bound_on_left(operator)),
        }
    }

    // The same on the right.
    fn on_right(
        &self,
        operator: Comparison,
        tree: &'a Expression<ColumnIndex>,
    ) -> Option<ValueRef<'a>>
        ensures { IfSome result (λ v. IsOperand (HoldsAlikeOnRight operator) self.now.known.now
            (names_of self.now.users.now) (term_of tree.now) (owned v)) }
    {
        match self.value(tree) {
            Some(value) => Some(value),
            None => bound_of(tree, self.bound_on_right(operator)),
        }
    }

    // The bound of the column of which a comparison has to hold, on the left, to hold of each row: the least value
    // where the column has to be greater, and the greatest where it has to be less.
    fn bound_on_left(&self, operator: Comparison) -> Option<KnownColumn<'a>>
        ensures { result ≡ bound_on_left self.now.known.now operator }
    {
        match operator {
            Comparison::Greater | Comparison::GreaterOrEqual => self.known.least,
            Comparison::Less | Comparison::LessOrEqual => self.known.greatest,
            Comparison::Equal | Comparison::NotEqual => None,
        }
    }

    // The same on the right.
    fn bound_on_right(&self, operator: Comparison) -> Option<KnownColumn<'a>>
        ensures { result ≡ bound_on_right self.now.known.now operator }
    {
        match operator {
            Comparison::Greater | Comparison::GreaterOrEqual => self.known.greatest,
            Comparison::Less | Comparison::LessOrEqual => self.known.least,
            Comparison::Equal | Comparison::NotEqual => None,
        }
    }

    // Whether the current role is in the role that an operand names in each row.
    fn is_role(&self, operand: &'a Expression<ColumnIndex>) -> bool
        ensures { IsTrue result → IsCertain self.now.known.now (names_of self.now.users.now) (member_test (term_of operand.now)) }
    {
        match self.value(operand) {
            Some(ValueRef::Text(name)) => self.users.roles.iter().any(|role| name == *role),
            _ => false,
        }
    }

    // The value that an operand has in each row, if it is known.
    fn value(&self, tree: &'a Expression<ColumnIndex>) -> Option<ValueRef<'a>>
        ensures { IfSome result (λ v. HasKnownValue self.now.known.now (names_of self.now.users.now) (term_of tree.now) (owned v)) }
    {
        match tree {
            Expression::Literal(value) => Some(value.as_ref()),
            Expression::Column(index) if index.table == 0 => self.known.find(index.column),
            Expression::CurrentUser => Some(ValueRef::Text(self.users.current_user)),
            Expression::SessionUser => Some(ValueRef::Text(self.users.session_user)),
            _ => None,
        }
    }
}

// The value of a bound, where this is its column.
fn bound_of<'a>(
    tree: &Expression<ColumnIndex>,
    bound: Option<KnownColumn<'a>>,
) -> Option<ValueRef<'a>>
    ensures { IfSome result (IsBoundOf (term_of tree.now) bound.entry) }
{
    match (tree, bound) {
        (Expression::Column(index), Some(bound))
            if index.table == 0 && index.column == bound.index => { Some(bound.value) }
        _ => None,
    }
}

// Whether a value is true.
fn is_yes(value: ValueRef<'_>) -> bool
    ensures { IsTrue result → owned value.entry ≡ true_value }
{
    matches!(value, ValueRef::Bool(true))
}
