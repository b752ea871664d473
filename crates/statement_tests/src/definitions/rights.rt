//! What each role may do, as text.

use crate::definitions::asking::may_issue;
use crate::told::Told;
use crate::words::{action_word, words_if};
use catalogue::definitions::Catalogue;
use catalogue::table::TableDefinition;
use role_membership::closure;
use schema_statements::acts_as_owner;
use sql_ast::privilege::Action;
use sql_ast::statement::Statement;
use sql_parser::parse::parse;
use sql_types::name::Name;
use sql_types::state::{Refusal, SqlState};
use std::alloc::{AllocError, Global};

/// Each action.
const ACTIONS: [Action; 4] = [
    Action::Select,
    Action::Insert,
    Action::Update,
    Action::Delete,
];

/// A table with what is asked of it.
#[derive(Drop)]
struct AskedTable<'c> {
    table: &'c TableDefinition,
    actions: Vec<AskedAction<'c>>,
}

/// An action with statements that need it on one column alone, for each column of a table, beside its
/// name; or with one for the whole table.
#[derive(Drop)]
struct AskedAction<'c> {
    action: Action,
    statements: Vec<(&'c str, Statement)>,
}

/// Tells of each role which roles it is in, and what it may do with each table: a role has the
/// privilege of an action on a column where the planner lets a statement pass that needs it.
pub fn put_rights(alloc: Global, catalogue: &Catalogue, out: &mut Told) -> Result<(), AllocError> {
    let tables = asked_tables(alloc, catalogue.tables())?;
    for role in catalogue.roles() {
        put_above(alloc, catalogue, &role.name, out)?;
        put_tables(alloc, catalogue, &role.name, tables.as_slice(), out)?;
    }
    Ok(())
}

/// Each table with what is asked of it.
fn asked_tables(
    alloc: Global,
    tables: &[TableDefinition],
) -> Result<Vec<AskedTable<'_>>, AllocError> {
    let mut asked = Vec::new(alloc);
    for table in tables {
        let actions = actions_on(alloc, table)?;
        asked.push(AskedTable { table, actions })?;
    }
    Ok(asked)
}

/// Each action with its statements over a table.
fn actions_on(alloc: Global, table: &TableDefinition) -> Result<Vec<AskedAction<'_>>, AllocError> {
    let mut actions = Vec::new(alloc);
    for action in &ACTIONS {
        let statements = statements_for(alloc, *action, table)?;
        actions.push(AskedAction {
            action: *action,
            statements,
        })?;
    }
    Ok(actions)
}

/// The statements over a table for an action: for each column, or where it is of whole rows, one.
fn statements_for(
    alloc: Global,
    action: Action,
    table: &TableDefinition,
) -> Result<Vec<(&str, Statement)>, AllocError> {
    let mut statements = Vec::new(alloc);
    let name = table.name().as_str();
    if action == Action::Delete {
        push_statement(alloc, action, name, "", &mut statements)?;
        return Ok(statements);
    }
    for column in table.columns().as_slice() {
        push_statement(alloc, action, name, column.name.as_str(), &mut statements)?;
    }
    Ok(statements)
}

/// Adds the statement that needs an action on a column.
fn push_statement<'c>(
    alloc: Global,
    action: Action,
    table: &str,
    column: &'c str,
    statements: &mut Vec<(&'c str, Statement)>,
) -> Result<(), AllocError> {
    let mut text = Told::new(alloc);
    put_text(action, table, column, &mut text);
    if let Ok(statement) = parse(alloc, text.text()?) {
        statements.push((column, statement))?;
    }
    Ok(())
}

/// Tells the text of a statement that needs an action on a column.
fn put_text(action: Action, table: &str, column: &str, out: &mut Told) {
    match action {
        Action::Select => out.put_all(&["SELECT ", column, " FROM ", table]),
        Action::Insert => out.put_all(&["INSERT INTO ", table, " (", column, ") VALUES (NULL)"]),
        Action::Update => out.put_all(&["UPDATE ", table, " SET ", column, " = NULL"]),
        Action::Delete => out.put_all(&["DELETE FROM ", table]),
    }
}

/// Tells a role, and those that it is in.
fn put_above(
    alloc: Global,
    catalogue: &Catalogue,
    name: &Name,
    out: &mut Told,
) -> Result<(), AllocError> {
    let above = closure(alloc, catalogue.memberships(), name)?;
    out.put_all(&[name.as_str(), " is in"]);
    for role in catalogue.roles() {
        if above.contains(&role.name) {
            out.put_name(" ", &role.name);
        }
    }
    out.put("\n");
    Ok(())
}

/// Tells what a role may do with each table, and whether it acts as its owner.
fn put_tables(
    alloc: Global,
    catalogue: &Catalogue,
    role: &Name,
    tables: &[AskedTable<'_>],
    out: &mut Told,
) -> Result<(), AllocError> {
    for asked in tables {
        out.put_all(&[role.as_str(), " on ", asked.table.name().as_str()]);
        put_actions(alloc, catalogue, role, asked.actions.as_slice(), out)?;
        let is_owner = acts_as_owner(alloc, catalogue, role, asked.table.owner())?;
        out.put_line(&[words_if(is_owner, " OWNER")]);
    }
    Ok(())
}

/// Tells each action that a role has on some column, with these columns unless they are all.
fn put_actions(
    alloc: Global,
    catalogue: &Catalogue,
    role: &Name,
    actions: &[AskedAction<'_>],
    out: &mut Told,
) -> Result<(), AllocError> {
    for asked in actions {
        let columns = allowed_columns(alloc, catalogue, role, asked, out)?;
        put_allowed(asked, columns.as_slice(), out);
    }
    Ok(())
}

/// The columns that a role has an action on. The code of any other refusal is told.
fn allowed_columns<'c>(
    alloc: Global,
    catalogue: &Catalogue,
    role: &Name,
    asked: &AskedAction<'c>,
    out: &mut Told,
) -> Result<Vec<&'c str>, AllocError> {
    let mut columns = Vec::new(alloc);
    for (column, statement) in asked.statements.as_slice() {
        match may_issue(alloc, catalogue, role, statement) {
            Ok(()) => columns.push(*column)?,
            Err(Refusal(SqlState::InsufficientPrivilege)) => {}
            Err(Refusal(SqlState::OutOfMemory)) => out.refuse(),
            Err(Refusal(code)) => out.put_all(&[" ", code.code()]),
        }
    }
    Ok(columns)
}

/// Tells an action with those of its columns that a role has it on, in parentheses unless they are all.
fn put_allowed(asked: &AskedAction<'_>, columns: &[&str], out: &mut Told) {
    if columns.is_empty() {
        return;
    }
    out.put_all(&[" ", action_word(asked.action)]);
    if columns.len() < asked.statements.len() {
        put_list(columns, out);
    }
}

/// Tells names in parentheses.
fn put_list(names: &[&str], out: &mut Told) {
    let mut before = " (";
    for name in names {
        out.put_all(&[before, name]);
        before = " ";
    }
    out.put(")");
}
