//! The tables of a plan with the ranges of keys in which their rows are looked for.

ghost use Rattle.std.specs.Prelude.{◌≡◌, ◌∷◌, [], map, IfOk};
ghost use Rattle.expressions.specs.Rows.{names_of};
ghost use Rattle.key_ranges.specs.BoxCode.{role_names};
ghost use Rattle.row_statements.specs.Ranges.{range_where};
ghost use Rattle.statement_explanations.specs.Asking.{ranges_of, sources_of};

use expressions::eval::Users;
use expressions::types::Typed;
use planner::{Plan, Source};
use row_statements::{RangedSource, range_where, ranged};
use sql_types::items::Items;
use std::alloc::{AllocError, Global};

/// The tables of a plan, in the order of FROM, with the ranges of keys in which the statement looks for
/// their rows: those by which [`row_statements::execute`] carries it out. An INSERT looks for none.
pub fn planned_ranges<'a>(
    alloc: Global,
    plan: &'a Plan<'a>,
    users: &Users<'_>,
) -> Result<Items<RangedSource<'a>>, AllocError>
    ensures sources { IfOk result (λ tables. map (λ r. r.source.now) tables ≡ sources_of plan.now) }
    ensures ranges { IfOk result (λ tables. map (λ r. r.range) tables
        ≡ ranges_of (names_of users.now) (role_names users.now) plan.now) }
{
    match plan {
        Plan::Select(plan) => {
            let conditions = plan.query.conditions.as_slice();
            ranged(alloc, plan.sources.as_slice(), conditions, users)
        }
        Plan::Insert(plan) => {
            let mut tables = Items::new(alloc);
            tables.push(RangedSource {
                source: &plan.target,
                range: None,
            })?;
            Ok(tables)
        }
        Plan::Update(plan) => changed(alloc, &plan.target, &plan.condition, users),
        Plan::Delete(plan) => changed(alloc, &plan.target, &plan.condition, users),
    }
}

// The table of an UPDATE or a DELETE with the range that row security and WHERE leave.
fn changed<'a>(
    alloc: Global,
    source: &'a Source<'a>,
    condition: &Option<Typed>,
    users: &Users<'_>,
) -> Result<Items<RangedSource<'a>>, AllocError>
    ensures source { IfOk result (λ tables. map (λ r. r.source.now) tables ≡ source.now ∷ []) }
    ensures range { IfOk result (λ tables. map (λ r. r.range) tables
        ≡ range_where (names_of users.now) (role_names users.now) source.now condition.now ∷ []) }
{
    let range = range_where(alloc, source, condition.as_ref(), users)?;
    let mut tables = Items::new(alloc);
    tables.push(RangedSource { source, range })?;
    Ok(tables)
}
