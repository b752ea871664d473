//! An UPDATE that sets no column of the key: each row keeps its key, so it is put in place of what
//! it was, and no other row can have its key.
ghost use Rattle.std.specs.Prelude.{◌≡◌, ◌<◌, ◌^◌, OnOk, IfOk, IfErr, List, false};
ghost use Rattle.sql_types.specs.Row.{Row};
ghost use Rattle.sql_ast.specs.Layout.{IsLayout};
ghost use Rattle.store.specs.Records.{IsKeySize};
ghost use Rattle.abstract_database.specs.Changes.{CheckedUpdate, condition_on_row, rows_updated};
ghost use Rattle.store.specs.StatementError.{ReadsMap};
ghost use Rattle.table_rows.specs.Failures.{Answers, IsDamagedFor, ReadsNoMap};
ghost use Rattle.table_rows.specs.HeldRows.{HoldsRows, ConcernRowsOf};
ghost use Rattle.table_rows.specs.Ranged.{FindsSpelled, FindsDamage, IsOfTable, LosesNothing};
ghost use Rattle.table_rows.specs.Costs.{cost_of};
ghost use Rattle.table_rows.specs.Targets.{users_of, sees, admits, condition_in, assigned_by, IsUpdate};
ghost use Rattle.table_rows.specs.NewRows.{GiveFittingRows, MakesChanges};
ghost use Rattle.table_rows.specs.Choosing.{is_chosen, over_chosen};
ghost use Rattle.table_rows.specs.Setting.{sets_key, nothing_set, setting, SetsRow};

use crate::change::RowChanges;
use crate::checks::Checks;
use crate::choose::is_chosen;
use crate::target::{Assignments, Target};
use crate::values::assigned_row;
use crate::visit::{Flow, RowVisitor};
use crate::walk::visit_target;
use expressions::types::Typed;
use row_codec::{LentRow, RowRef, fits_record, write_row_value};
use sql_ast::columns::Columns;
use std::alloc::Global;
use store::{Batch, Fault, MAX_KEY_LENGTH, Map, StatementError};

/// The rows that are set: what is put in their place, and what the checks say of them.
#[derive(Drop)]
pub struct SetRows {
    changes: Batch,
    checks: Checks,
    count: u64,
}

/// Rows that are set, one after the other.
#[derive(Drop)]
pub struct Setting<'a> {
    alloc: Global,
    target: &'a Target<'a>,
    condition: Option<&'a Typed>,
    assignments: &'a Assignments<'a>,
    set: SetRows,
    value: Vec<u8>,
}

/// Whether a column of these indices is one of the key.
pub(crate) fn sets_key(key: &[usize], columns: &[usize]) -> bool
    ensures { result ≡ sets_key key.now columns.now }
{
    columns.iter().any(|column| key.contains(column))
}

/// The changes of an UPDATE that sets no column of the key: what [`crate::update`] says of it.
pub(crate) fn update_in_place<M: Map>(
    alloc: Global,
    records: &mut M,
    target: &Target<'_>,
    condition: Option<&Typed>,
    assignments: &Assignments<'_>,
) -> Result<RowChanges, StatementError>
    ensures preserved { M.preserved records.old records.new }
    ensures reads { ReadsMap result (M.state records.old) (M.state records.new) }
    ensures cost { (M.state records.old).sound → M.cost records.old records.new
        (cost_of target.now (M.state records.old).map) }
    ensures changes { (M.state records.old).sound → (rows : List Row) (c : CheckedUpdate)
        → IsLayout target.now.columns.now
        → sets_key target.now.columns.now.key assignments.now.columns.now ≡ false
        → HoldsRows target.now.id target.now.columns.now (M.state records.old).map rows
        → IsUpdate target.now condition.entry assignments.now c
        → GiveFittingRows target.now.columns.now (assigned_by target.now assignments.now) rows
        → LosesNothing target.now condition.entry
        → MakesChanges target.now.id target.now.columns.now (M.state records.old).map result
        (rows_updated (sees target.now) (admits target.now) (users_of target.now) c rows) }
    ensures spelled { (M.state records.old).sound
        → OnOk result (FindsSpelled target.now (M.state records.old).map) }
    ensures damage { (M.state records.old).sound
        → IfErr result
        (IsDamagedFor (FindsDamage target.now (M.state records.old).map)) }
    ensures concern { (M.state records.old).sound → IsOfTable target.now.id target.now.range
        → IfOk result (λ made. ConcernRowsOf target.now.id made.changes) }
{
    let set = set_rows(alloc, records, target, condition, assignments)?;
    set.checks.verdict()?;
    Ok(RowChanges {
        changes: set.changes,
        count: set.count,
    })
}

// The rows of a target that the statement sees and at which its condition is true, as they are set.
// The first row for which that is refused ends it.
fn set_rows<M: Map>(
    alloc: Global,
    records: &mut M,
    target: &Target<'_>,
    condition: Option<&Typed>,
    assignments: &Assignments<'_>,
) -> Result<SetRows, StatementError>
    ensures preserved { M.preserved records.old records.new }
    ensures reads { ReadsMap result (M.state records.old) (M.state records.new) }
    ensures cost { (M.state records.old).sound → M.cost records.old records.new
        (cost_of target.now (M.state records.old).map) }
    ensures set { (M.state records.old).sound → (rows : List Row)
        → HoldsRows target.now.id target.now.columns.now (M.state records.old).map rows
        → LosesNothing target.now condition.entry
        → Answers result (over_chosen
        (is_chosen (sees target.now)
        (condition_on_row (users_of target.now) (condition_in condition.entry)))
        (assigned_by target.now assignments.now)
        (setting target.now.id target.now.columns.now (admits target.now)) nothing_set rows) }
    ensures spelled { (M.state records.old).sound
        → OnOk result (FindsSpelled target.now (M.state records.old).map) }
    ensures damage { (M.state records.old).sound
        → IfErr result
        (IsDamagedFor (FindsDamage target.now (M.state records.old).map)) }
    ensures concern { (M.state records.old).sound → IsOfTable target.now.id target.now.range
        → IfOk result (λ set. ConcernRowsOf target.now.id set.changes) }
{
    let set = SetRows::new(alloc);
    let mut setting = Setting {
        alloc,
        target,
        condition,
        assignments,
        set,
        value: Vec::new(alloc),
    };
    visit_target(alloc, records, target, &mut setting)?;
    Ok(setting.set)
}

impl SetRows {
    fn new(alloc: Global) -> SetRows
        ensures { result ≡ nothing_set }
    {
        SetRows {
            changes: Batch::new(alloc),
            checks: Checks::new(),
            count: 0,
        }
    }

    // Sets one more row, of this key. The buffer is for its value.
    fn take(
        &mut self,
        target: &Target<'_>,
        columns: &Columns,
        key: &[u8],
        new: &LentRow<'_>,
        value: &mut Vec<u8>,
    ) -> Result<(), StatementError>
        ensures sets { IsKeySize key.now → SetsRow result key.now columns.now (admits target.now)
            new.now self.old self.new }
        ensures no_read { ReadsNoMap result }
    {
        if key.is_empty() || key.len() > MAX_KEY_LENGTH {
            return Err(StatementError::Failed(Fault::Damaged));
        }
        let Some(count) = self.count.checked_add(1) else {
            return Err(StatementError::Failed(Fault::Memory));
        };
        let fits = fits_record(columns, new);
        self.checks.take(target, columns, new, fits);
        if fits {
            write_row_value(columns, new, value)?;
            self.changes.put(key, value)?;
        }
        self.count = count;
        Ok(())
    }
}

impl<'a> RowVisitor for Setting<'a> {
    type Answer = SetRows;

    ghost use Rattle.std.specs.Prelude.{false};
    ghost use Rattle.table_rows.specs.Setting.{set_after};

    ghost after = { set_after };

    ghost ends_early = { false };

    fn visit(
        &mut self,
        columns: &Columns,
        key: &[u8],
        row: &RowRef<'_>,
    ) -> Result<Flow, StatementError> {
        let target = self.target;
        if !is_chosen(target, self.condition, row)? {
            return Ok(Flow::Continue);
        }
        let new = assigned_row(self.alloc, columns, self.assignments, row, target.users)?;
        self.set.take(target, columns, key, &new, &mut self.value)?;
        Ok(Flow::Continue)
    }
}
