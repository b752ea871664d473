//! How a statement looks for the rows of a table.

ghost use Rattle.std.specs.Prelude.{◌≡◌};
ghost use Rattle.expressions.specs.Rows.{names_of};
ghost use Rattle.row_statements.specs.Ranges.{is_looked_up as looks_up};
ghost use Rattle.statement_explanations.specs.Asking.{conditions_of as conditions, inserts as adds};
ghost use Rattle.statement_explanations.specs.Explanations.{IsReadingOf};

use crate::asking::{conditions_of, inserts};
use crate::explanation::TableReading;
use expressions::eval::Users;
use planner::Plan;
use row_statements::{RangedSource, is_looked_up};

/// How the statement of a plan looks for the rows of a table, which has this index in FROM, and of which
/// a range is left.
pub(crate) fn reading_of<'a>(
    plan: &Plan<'_>,
    users: &Users<'_>,
    index: usize,
    table: &'a RangedSource<'_>,
) -> TableReading<'a>
    ensures { IsReadingOf (adds plan.now)
        (looks_up (names_of users.now) (conditions plan.now) index table.now.source.now.table.now.definition.layout.key)
        table.now.range result }
{
    if inserts(plan) {
        return TableReading::NewKeys;
    }
    let key = table.source.table.columns().key();
    if is_looked_up(index, key, conditions_of(plan), users) {
        return TableReading::BehindRows(table.range.as_ref());
    }
    match &table.range {
        None => TableReading::Whole,
        Some(range) => TableReading::Within(range),
    }
}
