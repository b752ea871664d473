//! Whether a role may issue a statement, which is not carried out.

use crate::told::Told;
use catalogue::definitions::Catalogue;
use planner::plan_rows;
use schema_statements::{MembershipStatement, grant_or_revoke_roles};
use sql_ast::statement::{
    DatabaseStatement, DefiningStatement, GrantRole, RowStatement, Statement,
};
use sql_parser::parse::parse;
use sql_types::name::Name;
use sql_types::state::{Refusal, SqlState};
use std::alloc::Global;
use store::StatementError;

/// Tells whether a role may issue the statement of a text.
pub fn put_asked(alloc: Global, catalogue: &Catalogue, role: &Name, text: &str, out: &mut Told) {
    match asked(alloc, catalogue, role, text) {
        Ok(()) => out.put("ok\n"),
        Err(refusal) => out.put_line(&[refusal.0.code()]),
    }
}

/// Whether a role may issue the statement of a text.
fn asked(alloc: Global, catalogue: &Catalogue, role: &Name, text: &str) -> Result<(), Refusal> {
    let statement = parse(alloc, text)?;
    may_issue(alloc, catalogue, role, &statement)
}

/// Whether a role may issue a statement. Of the defining ones GRANT of roles alone is asked here.
pub fn may_issue(
    alloc: Global,
    catalogue: &Catalogue,
    role: &Name,
    statement: &Statement,
) -> Result<(), Refusal> {
    match statement {
        Statement::OnDatabase(DatabaseStatement::OverRows(statement)) => may_use_rows(
            alloc, catalogue, role, statement,
        ),
        Statement::OnDatabase(
            DatabaseStatement::Defining(DefiningStatement::GrantRole(granting)),
        ) => may_grant(alloc, catalogue, role, granting),
        _ => Ok(()),
    }
}

/// Whether the checks of a statement over rows let a role issue it.
fn may_use_rows(
    alloc: Global,
    catalogue: &Catalogue,
    role: &Name,
    statement: &RowStatement,
) -> Result<(), Refusal> {
    plan_rows(alloc, catalogue, role, statement)?;
    Ok(())
}

/// Whether a role may issue a GRANT of roles.
fn may_grant(
    alloc: Global,
    catalogue: &Catalogue,
    role: &Name,
    granting: &GrantRole,
) -> Result<(), Refusal> {
    let granting = MembershipStatement::Grant(granting);
    match grant_or_revoke_roles(alloc, catalogue, role, granting) {
        Ok(_) => Ok(()),
        Err(StatementError::Refused(state)) => Err(Refusal(state)),
        Err(StatementError::Failed(_)) => Err(Refusal(SqlState::OutOfMemory)),
    }
}
