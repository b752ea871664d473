//! What row security says of a row.

ghost use Rattle.std.specs.Prelude.{◌≡◌};
ghost use Rattle.expressions.specs.Rows.{names_of};
ghost use Rattle.guards.specs.Truths.{is_met};
ghost use Rattle.guards.specs.Guards.{formula_value, guard_value};

use crate::conditions::{all_lent, any_lent, is_true};
use expressions::eval::Users;
use expressions::types::Typed;
use sql_types::items::Items;
use sql_types::row::RowView;
use sql_types::state::SqlState;

/// The conditions of the policies that apply to one action, borrowed from their table: those of the permissive policies, and
/// those of the restrictive ones, each in the order of the policies' names.
///
/// It is `(p1 OR p2 ..) AND r1 AND r2 ..` of the permissive and the restrictive ones: without a permissive one no row passes.
#[derive(Drop)]
pub struct Formula<'a> {
    pub permissive: Items<&'a Typed>,
    pub restrictive: Items<&'a Typed>,
}

/// The formulas that the existing rows of a table must meet, and those that its new rows must meet. Each is evaluated only on
/// rows that meet those before it; where there is none, each row passes.
#[derive(Drop)]
pub struct Guard<'a> {
    pub existing: Items<Formula<'a>>,
    pub new: Items<Formula<'a>>,
}

impl<'a> Formula<'a> {
    /// Whether the formula is true on a row: a condition is evaluated only where those before it do not decide.
    fn is_met<R: RowView>(&self, row: &R, users: &Users<'_>) -> Result<bool, SqlState>
        ensures { result ≡ is_met (formula_value (names_of users.now) self.now (R.cell row.now)) }
    {
        let permitted = any_lent(self.permissive.as_slice(), row, users)?;
        let met = all_lent(permitted, self.restrictive.as_slice(), row, users)?;
        Ok(is_true(met))
    }
}

/// Whether each of these formulas is true on a row: behind one that is not, none is evaluated.
fn are_met<R: RowView>(
    formulas: &[Formula<'_>],
    row: &R,
    users: &Users<'_>,
) -> Result<bool, SqlState>
    ensures { result ≡ is_met (guard_value (names_of users.now) formulas.now (R.cell row.now)) }
{
    for formula in formulas {
        if !formula.is_met(row, users)? {
            return Ok(false);
        }
    }
    Ok(true)
}

impl<'a> Guard<'a> {
    /// Whether a statement sees an existing row.
    ///
    /// It is refused as the first evaluation of a condition that fails.
    pub fn sees<R: RowView>(&self, row: &R, users: &Users<'_>) -> Result<bool, SqlState>
        ensures { result
            ≡ is_met (guard_value (names_of users.now) self.now.existing (R.cell row.now)) }
    {
        are_met(self.existing.as_slice(), row, users)
    }

    /// Whether a statement may write a new row.
    ///
    /// It is refused as the first evaluation of a condition that fails.
    pub fn admits<R: RowView>(&self, row: &R, users: &Users<'_>) -> Result<bool, SqlState>
        ensures { result
            ≡ is_met (guard_value (names_of users.now) self.now.new (R.cell row.now)) }
    {
        are_met(self.new.as_slice(), row, users)
    }
}
