//! INSERT, checked (SQL:2016 Foundation, 14.11; PostgreSQL manual, INSERT).

ghost use Rattle.std.specs.Prelude.{IfOk, IfErr};
ghost use Rattle.sql_ast.specs.declared.statement.RowStatement.TheVariants.{Insert as InsertOf};
ghost use Rattle.sql_ast.specs.Read.{HaveOneLength};
ghost use Rattle.planner.specs.Answers.{AnswersBy};
ghost use Rattle.planner.specs.Plans.{IsCheckedInsert, IsRefusalOf};
ghost use Rattle.planner.specs.Inserted.{checked_in, insert_from};

use crate::named_table::NamedTable;
use crate::rights::Rights;
use crate::sources::Source;
use crate::targets::insert_columns;
use crate::values::bind_rows;
use catalogue::definitions::Catalogue;
use catalogue::table::TableDefinition;
use expressions::types::Typed;
use role_membership::RoleSet;
use sql_ast::privilege::Action;
use sql_ast::statement::Insert;
use sql_types::items::Items;
use sql_types::name::Name;
use sql_types::state::{Refusal, SqlState};
use std::alloc::Global;

/// The most rows that one INSERT may have.
pub const MAX_INSERTED_ROWS: usize = 256;

/// An INSERT that passed its checks.
#[derive(Drop)]
pub struct InsertPlan<'c> {
    /// The table that rows are added to.
    pub target: Source<'c>,
    /// The indices of the columns that values are given to.
    pub columns: Items<usize>,
    /// The values of each row, in the order of the columns.
    pub rows: Items<Items<Typed>>,
    /// The roles that the current role is in.
    pub roles: RoleSet<'c>,
}

/// The columns and values of an INSERT that passed its checks.
#[derive(Drop)]
struct CheckedRows {
    columns: Items<usize>,
    rows: Items<Items<Typed>>,
}

/// Checks an INSERT of a role, stage by stage, each over the whole statement before the next.
///
/// `UndefinedTable` comes where the table is not there; `DuplicateColumn` where the column list
/// names a column twice; `SyntaxError` where a row has another number of values than the list has
/// columns, or without a list more than the table has; `UndefinedColumn` where the list names no
/// column of the table, or a value any column; `DatatypeMismatch` for the first value that has no
/// type or another one than its column; `InsufficientPrivilege` where the role may not insert into
/// one of the columns that it gives values to; `ProgramLimitExceeded` for more than [`MAX_INSERTED_ROWS`] rows.
pub fn plan_insert<'c>(
    alloc: Global,
    catalogue: &'c Catalogue,
    current: &'c Name,
    statement: &Insert,
) -> Result<InsertPlan<'c>, Refusal>
    ensures plan { IfOk result (IsCheckedInsert catalogue.now current.now statement.now) }
    ensures refusal { IfErr result
        (IsRefusalOf catalogue.now current.now (InsertOf statement.now)) }
{
    let named = NamedTable::find(alloc, catalogue, current, &statement.table)?;
    let checked = check_insert(alloc, &named.rights, named.table, statement)?;
    let guarded = named.guarded(alloc, catalogue, current, Action::Insert, false)?;
    Ok(InsertPlan {
        target: guarded.source,
        columns: checked.columns,
        rows: checked.rows,
        roles: guarded.roles,
    })
}

/// The checks over the table that was found.
fn check_insert(
    alloc: Global,
    rights: &Rights<'_>,
    table: &TableDefinition,
    statement: &Insert,
) -> Result<CheckedRows, Refusal>
    ensures { HaveOneLength statement.now.rows → AnswersBy (checked_in table.now)
        result (insert_from rights.now statement.now table.now) }
{
    let layout = table.columns();
    let rows = statement.rows.as_slice();
    let columns = insert_columns(alloc, layout, statement)?;
    let values = bind_rows(alloc, layout, columns.as_slice(), rows)?;
    if !rights.may_write(Action::Insert, table, columns.as_slice()) {
        return Err(Refusal(SqlState::InsufficientPrivilege));
    }
    if rows.len() > MAX_INSERTED_ROWS {
        return Err(Refusal(SqlState::ProgramLimitExceeded));
    }
    Ok(CheckedRows {
        columns,
        rows: values,
    })
}
