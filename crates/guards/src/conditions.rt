//! Conditions on a row, joined by AND or by OR from the left.

ghost use Rattle.std.specs.Prelude.{◌≡◌, map};
ghost use Rattle.sql_types.specs.declared.value.Truth.TheVariants as truth;
ghost use Rattle.expressions.specs.Rows.{names_of, value_on};
ghost use Rattle.guards.specs.Truths.{is_true, truth_in, and_truth, or_truth, and_all, or_any};

use crate::at_once::truth_at_once;
use expressions::eval::{Users, eval};
use expressions::types::Typed;
use sql_types::row::RowView;
use sql_types::state::SqlState;
use sql_types::value::Truth;

/// Whether a truth is true: what is unknown is not.
pub(crate) fn is_true(truth: Truth) -> bool
    ensures { result ≡ is_true truth }
{
    matches!(truth, Truth::True)
}

/// AND of two truths (SQL:2016 Foundation, 6.39).
pub(crate) fn and(left: Truth, right: Truth) -> Truth
    ensures { result ≡ and_truth left right }
{
    match left {
        Truth::True => right,
        Truth::False => Truth::False,
        Truth::Null => match right {
            Truth::False => Truth::False,
            Truth::True | Truth::Null => Truth::Null,
        },
    }
}

/// OR of two truths (SQL:2016 Foundation, 6.39).
fn or(left: Truth, right: Truth) -> Truth
    ensures { result ≡ or_truth left right }
{
    match left {
        Truth::False => right,
        Truth::True => Truth::True,
        Truth::Null => match right {
            Truth::True => Truth::True,
            Truth::False | Truth::Null => Truth::Null,
        },
    }
}

/// The truth of a condition on a row.
///
/// It is refused as its evaluation fails ([`eval`]).
fn truth_on<R: RowView>(condition: &Typed, row: &R, users: &Users<'_>) -> Result<Truth, SqlState>
    ensures { result ≡ truth_in (value_on (R.cell row.now) (names_of users.now) condition.now) }
{
    match truth_at_once(condition.tree(), row, users) {
        Some(truth) => Ok(truth),
        None => Ok(eval(condition, row, users)?.truth()),
    }
}

/// A truth AND all conditions on a row, in order: behind what is false no condition is evaluated. So conditions may be
/// taken in several parts, each from the truth that the part before it gave.
///
/// It is refused as the first evaluation that fails ([`eval`]).
pub fn are_all_met<R: RowView>(
    first: Truth,
    conditions: &[Typed],
    row: &R,
    users: &Users<'_>,
) -> Result<Truth, SqlState>
    ensures { result
        ≡ and_all first (map (value_on (R.cell row.now) (names_of users.now)) conditions.now) }
{
    let mut truth = first;
    for condition in conditions {
        if truth == Truth::False {
            return Ok(Truth::False);
        }
        truth = and(truth, truth_on(condition, row, users)?);
    }
    Ok(truth)
}

/// A truth AND all conditions that are lent, on a row, in order: behind what is false none is evaluated.
pub(crate) fn all_lent<R: RowView>(
    first: Truth,
    conditions: &[&Typed],
    row: &R,
    users: &Users<'_>,
) -> Result<Truth, SqlState>
    ensures { result ≡ and_all first
        (map (λ c. value_on (R.cell row.now) (names_of users.now) c.now) conditions.now) }
{
    let mut truth = first;
    for condition in conditions {
        if truth == Truth::False {
            return Ok(Truth::False);
        }
        truth = and(truth, truth_on(condition, row, users)?);
    }
    Ok(truth)
}

/// OR of all conditions that are lent, on a row, in order: behind a true one none is evaluated. False where there is none.
pub(crate) fn any_lent<R: RowView>(
    conditions: &[&Typed],
    row: &R,
    users: &Users<'_>,
) -> Result<Truth, SqlState>
    ensures { result ≡ or_any truth.False
        (map (λ c. value_on (R.cell row.now) (names_of users.now) c.now) conditions.now) }
{
    let mut truth = Truth::False;
    for condition in conditions {
        if truth == Truth::True {
            return Ok(Truth::True);
        }
        truth = or(truth, truth_on(condition, row, users)?);
    }
    Ok(truth)
}
