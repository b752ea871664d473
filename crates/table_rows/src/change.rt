//! INSERT, UPDATE and DELETE over the rows of a table (SQL:2016 Foundation, 14.9, 14.11 and 14.14).
ghost use Rattle.std.specs.Prelude.{◌≡◌, ◌+◌, OnOk, IfOk, IfErr, List, length};
ghost use Rattle.sql_types.specs.Row.{Row};
ghost use Rattle.sql_ast.specs.Layout.{IsLayout};
ghost use Rattle.abstract_database.specs.Changes.{CheckedInsert, CheckedUpdate, CheckedDelete, rows_updated, rows_deleted};
ghost use Rattle.store.specs.StatementError.{ReadsMap};
ghost use Rattle.table_rows.specs.Failures.{IsDamagedFor};
ghost use Rattle.table_rows.specs.HeldRows.{HoldsRows, ConcernRowsOf};
ghost use Rattle.table_rows.specs.Ranged.{records_of, FindsSpelled, FindsDamage, IsOfTable, LosesNothing};
ghost use Rattle.table_rows.specs.Costs.{cost_of, update_cost};
ghost use Rattle.table_rows.specs.Targets.{users_of, sees, admits, inserted_by, assigned_by, IsInsert, IsUpdate, IsDelete};
ghost use Rattle.table_rows.specs.NewRows.{GiveFittingRows, MakesChanges, inserted};

use crate::checks::check_new_rows;
use crate::choose::{ChosenRows, choose};
use crate::puts::put_rows;
use crate::setting::{sets_key, update_in_place};
use crate::target::{Assignments, Insertion, Target};
use crate::values::inserted_rows;
use expressions::types::Typed;
use row_codec::{LentRow, lent_rows};
use std::alloc::Global;
use store::{Batch, Map, StatementError};

/// What a statement makes of a table: the changes of its records, and how many rows it concerns.
#[derive(Drop)]
pub struct RowChanges {
    pub changes: Batch,
    pub count: u64,
}

/// The changes of an INSERT. It is refused by what the first value fails with; then, each over all
/// new rows before the next, as [`check_new_rows`] says, and by `UniqueViolation` where two rows
/// have one key. No row of the table is read: the faults are Memory and Device, and a record that
/// spells no row is found by a statement that reads it.
pub fn insert<M: Map>(
    alloc: Global,
    records: &mut M,
    target: &Target<'_>,
    insertion: &Insertion<'_>,
) -> Result<RowChanges, StatementError>
    ensures preserved { M.preserved records.old records.new }
    ensures reads { ReadsMap result (M.state records.old) (M.state records.new) }
    ensures cost { M.cost records.old records.new (length insertion.now.rows.now) }
    ensures changes { (M.state records.old).sound → (rows : List Row) (c : CheckedInsert)
        → IsLayout target.now.columns.now
        → HoldsRows target.now.id target.now.columns.now (M.state records.old).map rows
        → IsInsert target.now insertion.now c
        → GiveFittingRows target.now.columns.now (inserted_by target.now insertion.now)
        insertion.now.rows.now
        → MakesChanges target.now.id target.now.columns.now (M.state records.old).map result
        (inserted (admits target.now) (users_of target.now) c rows) }
    ensures concern { IfOk result (λ made. ConcernRowsOf target.now.id made.changes) }
{
    let no_row = LentRow::new(alloc);
    let rows = inserted_rows(alloc, target.columns, insertion, &no_row, target.users)?;
    let new = rows.as_slice();
    check_new_rows(target, new)?;
    let mut changes = Batch::new(alloc);
    put_rows(alloc, records, target.id, target.columns, new, &mut changes)?;
    let count = insertion.rows.len() as u64;
    Ok(RowChanges { changes, count })
}

/// The changes of an UPDATE: of the rows that the statement sees and at which its condition is true.
/// It is refused by what the first row fails with, row by row, for its guard, for the condition, or
/// for a new value; then as [`insert`]. The faults are Memory and Device, and Damaged where a record
/// spells no row.
///
/// The rows are looked for in the range of the target: what is made is what the statement means
/// over all rows of the table where the range loses nothing, as one does that `key_range` gives for
/// the condition where the guard is infallible.
pub fn update<M: Map>(
    alloc: Global,
    records: &mut M,
    target: &Target<'_>,
    condition: Option<&Typed>,
    assignments: &Assignments<'_>,
) -> Result<RowChanges, StatementError>
    ensures preserved { M.preserved records.old records.new }
    ensures reads { ReadsMap result (M.state records.old) (M.state records.new) }
    ensures cost { (M.state records.old).sound → IsOfTable target.now.id target.now.range
        → M.cost records.old records.new
        (update_cost target.now assignments.now (M.state records.old).map) }
    ensures changes { (M.state records.old).sound → (rows : List Row) (c : CheckedUpdate)
        → IsLayout target.now.columns.now
        → HoldsRows target.now.id target.now.columns.now (M.state records.old).map rows
        → IsUpdate target.now condition.entry assignments.now c
        → GiveFittingRows target.now.columns.now (assigned_by target.now assignments.now) rows
        → LosesNothing target.now condition.entry
        → MakesChanges target.now.id target.now.columns.now (M.state records.old).map result
        (rows_updated (sees target.now) (admits target.now) (users_of target.now) c rows) }
    ensures spelled { (M.state records.old).sound
        → OnOk result (FindsSpelled target.now (M.state records.old).map) }
    ensures damage { (M.state records.old).sound
        → IfErr result
        (IsDamagedFor (FindsDamage target.now (M.state records.old).map)) }
    ensures concern { (M.state records.old).sound → IsOfTable target.now.id target.now.range
        → IfOk result (λ made. ConcernRowsOf target.now.id made.changes) }
{
    if sets_key(target.columns.key(), assignments.columns) {
        update_with_keys(alloc, records, target, condition, assignments)
    } else {
        update_in_place(alloc, records, target, condition, assignments)
    }
}

// The same of an UPDATE that may set columns of the key: the keys of the rows that it chooses are
// removed, and then its new rows are put.
fn update_with_keys<M: Map>(
    alloc: Global,
    records: &mut M,
    target: &Target<'_>,
    condition: Option<&Typed>,
    assignments: &Assignments<'_>,
) -> Result<RowChanges, StatementError>
    ensures preserved { M.preserved records.old records.new }
    ensures reads { ReadsMap result (M.state records.old) (M.state records.new) }
    ensures cost { (M.state records.old).sound → IsOfTable target.now.id target.now.range
        → M.cost records.old records.new (cost_of target.now (M.state records.old).map
        + length (records_of target.now (M.state records.old).map)) }
    ensures changes { (M.state records.old).sound → (rows : List Row) (c : CheckedUpdate)
        → IsLayout target.now.columns.now
        → HoldsRows target.now.id target.now.columns.now (M.state records.old).map rows
        → IsUpdate target.now condition.entry assignments.now c
        → GiveFittingRows target.now.columns.now (assigned_by target.now assignments.now) rows
        → LosesNothing target.now condition.entry
        → MakesChanges target.now.id target.now.columns.now (M.state records.old).map result
        (rows_updated (sees target.now) (admits target.now) (users_of target.now) c rows) }
    ensures spelled { (M.state records.old).sound
        → OnOk result (FindsSpelled target.now (M.state records.old).map) }
    ensures damage { (M.state records.old).sound
        → IfErr result
        (IsDamagedFor (FindsDamage target.now (M.state records.old).map)) }
    ensures concern { (M.state records.old).sound → IsOfTable target.now.id target.now.range
        → IfOk result (λ made. ConcernRowsOf target.now.id made.changes) }
{
    let chosen = choose(alloc, records, target, condition, Some(assignments))?;
    let ChosenRows {
        mut changes,
        rows: owned,
        count,
    } = chosen;
    let rows = lent_rows(alloc, &owned)?;
    let new = rows.as_slice();
    check_new_rows(target, new)?;
    put_rows(alloc, records, target.id, target.columns, new, &mut changes)?;
    Ok(RowChanges { changes, count })
}

/// The changes of a DELETE: of the rows that the statement sees and at which its condition is true.
/// It is refused by what the first row fails with, row by row, for its guard or for the condition.
/// The faults are Memory and Device, and Damaged where a record spells no row. The rows are looked
/// for in the range of the target, as those of [`update`].
pub fn delete<M: Map>(
    alloc: Global,
    records: &mut M,
    target: &Target<'_>,
    condition: Option<&Typed>,
) -> Result<RowChanges, StatementError>
    ensures preserved { M.preserved records.old records.new }
    ensures reads { ReadsMap result (M.state records.old) (M.state records.new) }
    ensures cost { (M.state records.old).sound → M.cost records.old records.new
        (cost_of target.now (M.state records.old).map) }
    ensures changes { (M.state records.old).sound → (rows : List Row) (c : CheckedDelete)
        → IsLayout target.now.columns.now
        → HoldsRows target.now.id target.now.columns.now (M.state records.old).map rows
        → IsDelete target.now condition.entry c
        → LosesNothing target.now condition.entry
        → MakesChanges target.now.id target.now.columns.now (M.state records.old).map result
        (rows_deleted (sees target.now) (users_of target.now) c rows) }
    ensures spelled { (M.state records.old).sound
        → OnOk result (FindsSpelled target.now (M.state records.old).map) }
    ensures damage { (M.state records.old).sound
        → IfErr result
        (IsDamagedFor (FindsDamage target.now (M.state records.old).map)) }
    ensures concern { (M.state records.old).sound → IsOfTable target.now.id target.now.range
        → IfOk result (λ made. ConcernRowsOf target.now.id made.changes) }
{
    let chosen = choose(alloc, records, target, condition, None)?;
    Ok(RowChanges {
        changes: chosen.changes,
        count: chosen.count,
    })
}
