//! What a statement over rows answers, as far as that depends on no row (PostgreSQL manual, "Message
//! Flow", Describe).

ghost use Rattle.std.specs.Prelude.{◌≡◌, ◌++◌, [], map, IfOk, OnOk};
ghost use Rattle.std.specs.Option.{option_copied};
ghost use Rattle.sql_ast.specs.Term.{term_of};
ghost use Rattle.abstract_database.specs.Descriptions.{column_as_it_is, result_columns, result_name};
ghost use Rattle.abstract_database.specs.Queries.{each_column, their_count};
ghost use Rattle.planner.specs.ResultColumns.{IsDescribedBy, DescribesPlan, tables_of_sources, scope_of_sources, column_among, value_column, list_columns};

use crate::plans::{Plan, plan_rows};
use crate::sources::Source;
use catalogue::definitions::Catalogue;
use expressions::types::Typed;
use gathering::query::{OutputList, RowList};
use sql_ast::columns::{Column, ColumnType, Columns};
use sql_ast::description::{ResultColumn, StatementDescription};
use sql_ast::expression::Expression;
use sql_ast::scope::ColumnIndex;
use sql_ast::statement::RowStatement;
use sql_types::items::Items;
use sql_types::name::Name;
use sql_types::state::{Refusal, SqlState};
use sql_types::text::Text;
use std::alloc::{AllocError, Global};

/// The name of a column of an expression that has no name of its own.
const UNNAMED: &str = "?column?";

/// What a SELECT, INSERT, UPDATE or DELETE of a role answers: the columns of a SELECT, and of the
/// others no rows. A statement that [`plan_rows`] refuses is `Refused` so, also where an allocation
/// failed.
pub fn describe_rows(
    alloc: Global,
    catalogue: &Catalogue,
    current: &Name,
    statement: &RowStatement,
) -> StatementDescription
    ensures { IsDescribedBy catalogue.now current.now statement.now result }
{
    match plan_rows(alloc, catalogue, current, statement) {
        Ok(plan) => describe_plan(alloc, &plan),
        Err(Refusal(code)) => StatementDescription::Refused(code),
    }
}

/// What the statement of a plan answers.
fn describe_plan(alloc: Global, plan: &Plan<'_>) -> StatementDescription
    ensures { DescribesPlan plan.now result }
{
    match plan {
        Plan::Select(select) => {
            let sources = select.sources.as_slice();
            match list_columns(alloc, sources, &select.query.list) {
                Ok(columns) => StatementDescription::Rows(columns),
                Err(_) => StatementDescription::Refused(SqlState::OutOfMemory),
            }
        }
        Plan::Insert(_) | Plan::Update(_) | Plan::Delete(_) => StatementDescription::NoRows,
    }
}

/// The columns of a select list over the tables of these sources.
fn list_columns(
    alloc: Global,
    sources: &[Source<'_>],
    list: &OutputList,
) -> Result<Items<ResultColumn>, AllocError>
    ensures { IfOk result (λ columns. columns ≡ list_columns sources.now list.now) }
{
    match list {
        OutputList::Rows(RowList::Columns(_)) => all_columns(alloc, sources),
        OutputList::Rows(RowList::Values(values)) => {
            value_columns(alloc, sources, values.as_slice())
        }
        OutputList::Count => count_column(alloc),
    }
}

/// The columns of all tables, in the order of FROM.
fn all_columns(alloc: Global, sources: &[Source<'_>]) -> Result<Items<ResultColumn>, AllocError>
    ensures { IfOk result (λ columns.
        columns ≡ result_columns (tables_of_sources sources.now) each_column) }
{
    let mut columns = Items::new(alloc);
    for source in sources {
        add_columns(alloc, &mut columns, source.table.columns())?;
    }
    Ok(columns)
}

/// Adds the columns of a table.
fn add_columns(
    alloc: Global,
    all: &mut Items<ResultColumn>,
    columns: &Columns,
) -> Result<(), AllocError>
    ensures { OnOk result (all.new ≡ all.old ++ map column_as_it_is columns.now.columns) }
{
    for column in columns.as_slice() {
        let name = Text::from_str(alloc, column.name.as_str())?;
        all.push(ResultColumn {
            name,
            column_type: column.column_type,
        })?;
    }
    Ok(())
}

/// A column for each value of a list: one that has no type answers NULL alone, and counts as text.
fn value_columns(
    alloc: Global,
    sources: &[Source<'_>],
    values: &[Typed],
) -> Result<Items<ResultColumn>, AllocError>
    ensures { IfOk result (λ columns.
        columns ≡ map (value_column (scope_of_sources sources.now)) values.now) }
{
    let mut columns = Items::new(alloc);
    for value in values {
        let name = Text::from_str(alloc, result_name(sources, value.tree()))?;
        columns.push(ResultColumn {
            name,
            column_type: value.value_type().unwrap_or(ColumnType::Text),
        })?;
    }
    Ok(columns)
}

/// The name of the column of an expression.
fn result_name<'s>(sources: &'s [Source<'_>], tree: &Expression<ColumnIndex>) -> &'s str
    ensures { result.now ≡ result_name (scope_of_sources sources.now) (term_of tree.now) }
{
    match tree {
        Expression::Column(index) => match column_at(sources, *index) {
            Some(column) => column.name.as_str(),
            None => UNNAMED,
        },
        Expression::CurrentUser => "current_user",
        Expression::SessionUser => "session_user",
        Expression::Literal(_)
        | Expression::Compare(_, _, _)
        | Expression::Arithmetic(_, _, _)
        | Expression::Negate(_)
        | Expression::And(_, _)
        | Expression::Or(_, _)
        | Expression::Not(_)
        | Expression::IsNull(_)
        | Expression::IsNotNull(_)
        | Expression::MemberOf(_) => UNNAMED,
    }
}

/// The column of an index in the tables of these sources.
fn column_at<'s>(sources: &'s [Source<'_>], index: ColumnIndex) -> Option<&'s Column>
    ensures { option_copied result ≡ column_among (scope_of_sources sources.now) index }
{
    let source = sources.get(index.table)?;
    source.table.columns().get(index.column)
}

/// The column of `count(*)`.
fn count_column(alloc: Global) -> Result<Items<ResultColumn>, AllocError>
    ensures { IfOk result (λ columns. columns ≡ result_columns [] their_count) }
{
    let mut columns = Items::new(alloc);
    columns.push(ResultColumn {
        name: Text::from_str(alloc, "count")?,
        column_type: ColumnType::BigInt,
    })?;
    Ok(columns)
}
