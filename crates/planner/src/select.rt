//! SELECT, checked (SQL:2016 Foundation, 7.4 to 7.16; PostgreSQL manual, SELECT).

ghost use Rattle.std.specs.Prelude.{◌≡◌, ◌∷◌, map, IfOk, IfErr, nat_le};
ghost use Rattle.std.specs.Prelude.{true};
ghost use Rattle.planner.specs.Answers.{AnswersBy};
ghost use Rattle.gathering.specs.Queries.{bound_of};
ghost use Rattle.planner.specs.Plans.{IsCheckedSelect};
ghost use Rattle.planner.specs.Tables.{AreTablesOf};
ghost use Rattle.planner.specs.Bound.{HasWidths, HasTypes};
ghost use Rattle.abstract_database.specs.Queries.{tables_in, scope_of};
ghost use Rattle.planner.specs.Selected.{checked_with, checked_over, may_read_each, query_over, planned_select, IsSelectRefusal};
ghost use Rattle.planner.specs.Tables.{definitions_in};

use crate::bound::bind_query;
use crate::rights::Rights;
use crate::sources::{Source, guard_each};
use crate::tables::{check_aliases, find_tables, references, scope_tables};
use catalogue::definitions::Catalogue;
use catalogue::table::TableDefinition;
use gathering::query::Query;
use role_membership::RoleSet;
use sql_ast::scope::Scope;
use sql_ast::statement::{Select, TableReference};
use sql_types::items::Items;
use sql_types::name::Name;
use sql_types::state::{Refusal, SqlState};
use std::alloc::Global;

/// The most tables that one SELECT may name.
pub const MAX_SELECT_TABLES: usize = 4;

/// A SELECT that passed its checks: what it asks of the rows of its tables.
#[derive(Drop)]
pub struct SelectPlan<'c> {
    /// The tables of FROM, in the order of the text.
    pub sources: Items<Source<'c>>,
    pub query: Query,
    /// The roles that the current role is in.
    pub roles: RoleSet<'c>,
}

/// The tables and the query of a SELECT that passed its checks.
#[derive(Drop)]
struct CheckedQuery<'c> {
    tables: Items<&'c TableDefinition>,
    query: Query,
}

/// Checks a SELECT of a role, stage by stage, each over the whole statement before the next.
///
/// `UndefinedTable` comes where a table of FROM is not there; `DuplicateAlias` where two have one
/// name in the statement; `UndefinedColumn` or `AmbiguousColumn` for the first column of the text
/// that is not found once; `DatatypeMismatch` for the first expression of the text that has no type
/// or is a condition and no boolean; `InsufficientPrivilege` where the role may not read a column
/// that is named, or with `*` one of all, or no column of a table of which none is named;
/// `ProgramLimitExceeded` for more than [`MAX_SELECT_TABLES`] tables.
pub fn plan_select<'c>(
    alloc: Global,
    catalogue: &'c Catalogue,
    current: &'c Name,
    statement: &Select,
) -> Result<SelectPlan<'c>, Refusal>
    ensures plan { IfOk result (IsCheckedSelect catalogue.now current.now statement.now) }
    ensures refusal { IfErr result (IsSelectRefusal catalogue.now current.now statement.now) }
{
    let rights = Rights::of(alloc, catalogue, current)?;
    let checked = check_select(alloc, catalogue, &rights, statement)?;
    let tables = checked.tables.as_slice();
    let sources = guard_each(alloc, catalogue, &rights, current, tables)?;
    Ok(SelectPlan {
        sources,
        query: checked.query,
        roles: rights.into_roles(),
    })
}

/// The checks for one with these rights.
fn check_select<'c>(
    alloc: Global,
    catalogue: &'c Catalogue,
    rights: &Rights<'_>,
    statement: &Select,
) -> Result<CheckedQuery<'c>, Refusal>
    ensures plan { AnswersBy checked_with result
        (planned_select catalogue.now rights.now statement.now) }
    ensures tables { IfOk result (λ p.
        AreTablesOf catalogue.now (tables_in statement.now.source) (map (λ t. t.now) p.tables)) }
    ensures widths { IfOk result (λ p. HasWidths
        (scope_of (tables_in statement.now.source) (definitions_in (map (λ t. t.now) p.tables)))
        p.query.list) }
    ensures types { IfOk result (λ p. HasTypes
        (scope_of (tables_in statement.now.source) (definitions_in (map (λ t. t.now) p.tables)))
        p.query) }
{
    let references = references(alloc, &statement.source)?;
    let tables = find_tables(alloc, catalogue, references.as_slice())?;
    let query = query_over(
        alloc,
        rights,
        references.as_slice(),
        tables.as_slice(),
        statement,
    )?;
    Ok(CheckedQuery { tables, query })
}

/// The query over tables that were found for these references.
fn query_over(
    alloc: Global,
    rights: &Rights<'_>,
    references: &[&TableReference],
    tables: &[&TableDefinition],
    statement: &Select,
) -> Result<Query, Refusal>
    requires { map (λ r. r.now) references.now ≡ tables_in statement.now.source }
    ensures query { AnswersBy (checked_over (map (λ t. t.now) tables.now)) result
        (query_over rights.now statement.now (map (λ t. t.now) tables.now)) }
    ensures widths { IfOk result (λ q. HasWidths
        (scope_of (tables_in statement.now.source)
        (definitions_in (map (λ t. t.now) tables.now))) q.list) }
    ensures types { IfOk result (λ q. HasTypes
        (scope_of (tables_in statement.now.source)
        (definitions_in (map (λ t. t.now) tables.now))) q) }
{
    check_aliases(alloc, references)?;
    let scope = scope_tables(alloc, references, tables)?;
    let scope = Scope {
        tables: scope.as_slice(),
    };
    let query = bind_query(alloc, &scope, &statement.list, &statement.source)?;
    if !may_read_each(rights, &query, tables) {
        return Err(Refusal(SqlState::InsufficientPrivilege));
    }
    if tables.len() > MAX_SELECT_TABLES {
        return Err(Refusal(SqlState::ProgramLimitExceeded));
    }
    Ok(query)
}

/// Whether one with these rights may read what a query reads of each table.
fn may_read_each(rights: &Rights<'_>, query: &Query, tables: &[&TableDefinition]) -> bool
    ensures { result ≡ may_read_each rights.now (bound_of query.now) 0 (map (λ t. t.now) tables.now) }
{
    for (number, table) in tables.iter().enumerate() {
        if !rights.may_read_query(table, query, number) {
            return false;
        }
    }
    true
}
