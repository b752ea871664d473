//! Every statement over rows, checked.

ghost use Rattle.std.specs.Prelude.{IfOk, IfErr};
ghost use Rattle.planner.specs.Plans.{IsPlanOf, Means, IsRefusalOf};

use crate::insert::{InsertPlan, plan_insert};
use crate::row_changes::{ChangePlan, plan_delete, plan_update};
use crate::select::{SelectPlan, plan_select};
use catalogue::definitions::Catalogue;
use sql_ast::statement::RowStatement;
use sql_types::name::Name;
use sql_types::state::Refusal;
use std::alloc::Global;

/// A statement over rows that passed its checks.
#[derive(Drop)]
pub enum Plan<'c> {
    Select(SelectPlan<'c>),
    Insert(InsertPlan<'c>),
    Update(ChangePlan<'c>),
    Delete(ChangePlan<'c>),
}

/// Checks a SELECT, INSERT, UPDATE or DELETE of a role.
///
/// It is refused as by [`plan_select`], [`plan_insert`], [`plan_update`] or [`plan_delete`].
pub fn plan_rows<'c>(
    alloc: Global,
    catalogue: &'c Catalogue,
    current: &'c Name,
    statement: &RowStatement,
) -> Result<Plan<'c>, Refusal>
    ensures plan { IfOk result (IsPlanOf catalogue.now current.now statement.now) }
    ensures means { IfOk result (Means catalogue.now current.now statement.now) }
    ensures refusal { IfErr result (IsRefusalOf catalogue.now current.now statement.now) }
{
    match statement {
        RowStatement::Select(select) => {
            let plan = plan_select(alloc, catalogue, current, select)?;
            Ok(Plan::Select(plan))
        }
        RowStatement::Insert(insert) => {
            let plan = plan_insert(alloc, catalogue, current, insert)?;
            Ok(Plan::Insert(plan))
        }
        RowStatement::Update(update) => {
            let plan = plan_update(alloc, catalogue, current, update)?;
            Ok(Plan::Update(plan))
        }
        RowStatement::Delete(delete) => {
            let plan = plan_delete(alloc, catalogue, current, delete)?;
            Ok(Plan::Delete(plan))
        }
    }
}
