//! Conditions and guards that fail on no row.
ghost use Rattle.std.specs.Prelude.{◌≡◌, IsTrue};
ghost use Rattle.expressions.specs.Meaning.{UserNames};
ghost use Rattle.guards.specs.Guards.{row_guard};
ghost use Rattle.key_ranges.specs.Infallible.{are_infallible, are_lent_infallible, is_formula_infallible, are_formulas_infallible, AreInfallible, GuardNeverFails};

use expressions::infallible::is_infallible;
use expressions::types::Typed;
use guards::guard::{Formula, Guard};

/// Whether no condition that the existing rows of a table must meet fails on any row: none has an
/// operator of arithmetic.
pub fn is_guard_infallible(guard: &Guard<'_>) -> bool
    ensures exact { result ≡ are_formulas_infallible guard.now.existing }
    ensures never_fails { IsTrue result
        → (users : UserNames) → GuardNeverFails (row_guard users guard.now.existing) }
{
    are_formulas_infallible(guard.existing.as_slice())
}

// Whether no condition of these formulas fails on any row.
pub(crate) fn are_formulas_infallible(formulas: &[Formula<'_>]) -> bool
    ensures { result ≡ are_formulas_infallible formulas.now }
{
    for formula in formulas {
        if !is_formula_infallible(formula) {
            return false;
        }
    }
    true
}

// Whether no condition of a formula fails on any row.
pub(crate) fn is_formula_infallible(formula: &Formula<'_>) -> bool
    ensures { result ≡ is_formula_infallible formula.now }
{
    are_lent_infallible(formula.permissive.as_slice())
        && are_lent_infallible(formula.restrictive.as_slice())
}

// Whether no condition of these, which are lent, fails on any row.
pub(crate) fn are_lent_infallible(conditions: &[&Typed]) -> bool
    ensures { result ≡ are_lent_infallible conditions.now }
{
    for condition in conditions {
        if !is_infallible(condition) {
            return false;
        }
    }
    true
}

/// Whether no condition of these fails on any row: none has an operator of arithmetic.
pub fn are_infallible(conditions: &[Typed]) -> bool
    ensures exact { result ≡ are_infallible conditions.now }
    ensures never_fail { IsTrue result → AreInfallible conditions.now }
{
    have_no_arithmetic(conditions)
}

// Whether no condition of these has an operator of arithmetic.
fn have_no_arithmetic(conditions: &[Typed]) -> bool
    ensures { result ≡ are_infallible conditions.now }
{
    conditions.iter().all(is_infallible)
}
