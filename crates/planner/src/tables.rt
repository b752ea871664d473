//! The tables that a statement names, and their names in it (SQL:2016 Foundation, 7.5 and 7.6).

ghost use Rattle.std.specs.Prelude.{◌≡◌, ◌++◌, ◌∷◌, [], map, not, IfOk, OnOk};
ghost use Rattle.sql_types.specs.declared.state.SqlState.TheVariants.{DuplicateAlias};
ghost use Rattle.sql_ast.specs.Scope.{table_of};
ghost use Rattle.expressions.specs.Names.{AnswersUnlessMemory};
ghost use Rattle.expressions.specs.Stages.{require};
ghost use Rattle.abstract_database.specs.Lists.{has_double};
ghost use Rattle.abstract_database.specs.Queries.{references_of, tables_in, name_in_scope, scope_of};
ghost use Rattle.planner.specs.Answers.{AnswersBy};
ghost use Rattle.planner.specs.Tables.{table_in, tables_for, definitions_in};

use catalogue::definitions::Catalogue;
use catalogue::names::has_double;
use catalogue::table::TableDefinition;
use sql_ast::scope::ScopeTable;
use sql_ast::statement::{FromClause, Join, TableExpression, TableReference};
use sql_types::items::Items;
use sql_types::name::Name;
use sql_types::state::{Refusal, SqlState};
use std::alloc::{AllocError, Global};

/// The tables that FROM names, in the order of the text.
pub(crate) fn references(
    alloc: Global,
    source: &Option<TableExpression>,
) -> Result<Vec<&TableReference>, AllocError>
    ensures { IfOk result (λ list. map (λ r. r.now) list.items ≡ tables_in source.now) }
{
    match source {
        None => Ok(Vec::new(alloc)),
        Some(source) => references_in(alloc, &source.tables),
    }
}

fn references_in(alloc: Global, tables: &FromClause) -> Result<Vec<&TableReference>, AllocError>
    ensures { IfOk result (λ list. map (λ r. r.now) list.items ≡ references_of tables.now) }
{
    match tables {
        FromClause::List(references) => references.as_slice().iter().collect(alloc),
        FromClause::Joined(first, joins) => joined(alloc, first, joins.as_slice()),
    }
}

/// A table and those that are joined to it.
fn joined<'s>(
    alloc: Global,
    first: &'s TableReference,
    joins: &'s [Join],
) -> Result<Vec<&'s TableReference>, AllocError>
    ensures { IfOk result (λ list. map (λ r. r.now) list.items
        ≡ first.now ∷ map (λ join. join.table) joins.now) }
{
    let mut list = Vec::new(alloc);
    list.push(first)?;
    for join in joins {
        list.push(&join.table)?;
    }
    Ok(list)
}

/// The table of a name. `UndefinedTable` comes where no table has it.
pub(crate) fn find_table<'c>(
    catalogue: &'c Catalogue,
    name: &Name,
) -> Result<&'c TableDefinition, Refusal>
    ensures { AnswersBy (λ t. t.now) result (table_in catalogue.now name.now) }
{
    match catalogue.table(name) {
        Some(table) => Ok(table),
        None => Err(Refusal(SqlState::UndefinedTable)),
    }
}

/// The tables of FROM. `UndefinedTable` comes where no table has one of the names.
pub(crate) fn find_tables<'c>(
    alloc: Global,
    catalogue: &'c Catalogue,
    references: &[&TableReference],
) -> Result<Items<&'c TableDefinition>, Refusal>
    ensures { AnswersBy (λ tables. map (λ t. t.now) tables) result
        (tables_for catalogue.now (map (λ r. r.now) references.now)) }
{
    let mut tables = Items::new(alloc);
    for reference in references {
        tables.push(find_table(catalogue, &reference.table)?)?;
    }
    Ok(tables)
}

/// A table's name in the statement: its alias where it has one.
fn name_in_scope(reference: &TableReference) -> &Name
    ensures { result.now ≡ name_in_scope reference.now }
{
    match &reference.alias {
        Some(alias) => alias,
        None => &reference.table,
    }
}

/// Refuses with `DuplicateAlias` where two tables of FROM have one name in the statement.
pub(crate) fn check_aliases(alloc: Global, references: &[&TableReference]) -> Result<(), Refusal>
    ensures { AnswersUnlessMemory result
        (require (not (has_double (map name_in_scope (map (λ r. r.now) references.now))))
        DuplicateAlias) }
{
    let names = names_in_scope(alloc, references)?;
    check_names(alloc, names.as_slice(), SqlState::DuplicateAlias)
}

/// Refuses in this way where two of these names are the same.
pub(crate) fn check_names(alloc: Global, names: &[&Name], refusal: SqlState) -> Result<(), Refusal>
    ensures { AnswersUnlessMemory result
        (require (not (has_double (map (λ n. n.now) names.now))) refusal) }
{
    if has_double(alloc, names)? {
        return Err(Refusal(refusal));
    }
    Ok(())
}

fn names_in_scope<'s>(
    alloc: Global,
    references: &[&'s TableReference],
) -> Result<Vec<&'s Name>, AllocError>
    ensures { IfOk result (λ names. map (λ n. n.now) names.items
        ≡ map name_in_scope (map (λ r. r.now) references.now)) }
{
    let mut names = Vec::new(alloc);
    for reference in references {
        names.push(name_in_scope(reference))?;
    }
    Ok(names)
}

/// The tables that were found, under their names in the statement.
pub(crate) fn scope_tables<'s>(
    alloc: Global,
    references: &[&'s TableReference],
    tables: &[&'s TableDefinition],
) -> Result<Vec<ScopeTable<'s>>, AllocError>
    ensures { IfOk result (λ scope. map table_of scope.items
        ≡ scope_of (map (λ r. r.now) references.now)
        (definitions_in (map (λ t. t.now) tables.now))) }
{
    let mut scope = Vec::new(alloc);
    for (reference, table) in references.iter().zip(tables) {
        scope.push(ScopeTable {
            name: name_in_scope(reference),
            columns: table.columns(),
        })?;
    }
    Ok(scope)
}
