//! The explanation of a statement as it is printed.

ghost use Rattle.std.specs.Prelude.{◌≡◌, ◌≢◌, find, option_copied, IfOk, IfSome};
ghost use Rattle.sql_types.specs.declared.state.SqlState.TheVariants.{OutOfMemory};
ghost use Rattle.abstract_database.specs.Database.{is_role_named};
ghost use Rattle.planner.specs.Plans.{IsPlanOf};
ghost use Rattle.statement_explanations.specs.declared.explained.ExplainFault.TheVariants.{Refused};
ghost use Rattle.statement_explanations.specs.Explanations.{IsExplanation};
ghost use Rattle.statement_explanations.specs.Explained.{IsExplained, IsRowsExplained, IsReadingExplained, IsTextExplained, asked_session, fault_in};

use crate::asking::action_of;
use crate::explanation::TableExplanation;
use crate::plan_ranges::planned_ranges;
use crate::printing::{Heading, print_explanation};
use crate::statement_names::table_names;
use crate::tables::explain_tables;
use catalogue::definitions::Catalogue;
use planner::{Plan, plan_rows};
use row_statements::{roles_of, users_of};
use sql_ast::role::Role;
use sql_ast::scope::ScopeTable;
use sql_ast::statement::{DatabaseStatement, RowStatement, Statement};
use sql_parser::parse::parse;
use sql_types::name::Name;
use sql_types::state::SqlState;
use std::alloc::{AllocError, Global};

/// Why a statement is not explained.
#[derive(Clone, Copy, Debug, PartialEq, Eq)]
pub enum ExplainFault {
    /// No role has the name of the current role.
    NoRole,
    /// No role has the name of the login role.
    NoSession,
    /// The text is a statement, but none that reads or changes rows.
    NotOverRows,
    /// The statement is refused before it reads a row, with this code.
    Refused(SqlState),
}

/// By whom a statement is run.
#[derive(Clone, Copy)]
pub struct Acting<'a> {
    /// The current role, whose rights and policies count.
    pub role: &'a str,
    /// The role that the session was opened for: the current one, where none is given.
    pub session: Option<&'a str>,
}

/// The roles by which a statement is run, and the definitions that they are of.
#[derive(Clone, Copy)]
struct ActingRoles<'a> {
    catalogue: &'a Catalogue,
    current: &'a Name,
    session: &'a Name,
}

/// The explanation of the statement that a text is, run by these roles over these definitions: as text in
/// columns, or as JSON. Else why there is none: a role is missing, the current one before the login role;
/// the text or the statement is refused before a row is read, as in a session; or the statement is none
/// over rows. The only error is that memory was refused.
pub fn explain(
    alloc: Global,
    catalogue: &Catalogue,
    acting: Acting<'_>,
    text: &str,
    json: bool,
) -> Result<Result<String, ExplainFault>, AllocError>
    ensures { IfOk result (λ outcome. IsExplained catalogue.now acting.entry.role.now
        (asked_session acting.entry) text.now (fault_in outcome)) }
{
    let Some(current) = find_role(catalogue.roles(), acting.role) else {
        return Ok(Err(ExplainFault::NoRole));
    };
    let session = acting.session.unwrap_or(acting.role);
    let Some(session) = find_role(catalogue.roles(), session) else {
        return Ok(Err(ExplainFault::NoSession));
    };
    let roles = ActingRoles {
        catalogue,
        current: &current.name,
        session: &session.name,
    };
    explain_text(alloc, roles, text, json)
}

// The role of a name, where there is one.
fn find_role<'a>(roles: &'a [Role], name: &str) -> Option<&'a Role>
    ensures found { option_copied result ≡ find (is_role_named name.now) roles.now }
    ensures named { IfSome result (λ role. role.now.name ≡ name.now) }
{
    roles.iter().find(|role| role.name.as_str() == name)
}

// The explanation of the statement that a text is.
fn explain_text(
    alloc: Global,
    roles: ActingRoles<'_>,
    text: &str,
    json: bool,
) -> Result<Result<String, ExplainFault>, AllocError>
    ensures { IfOk result (λ outcome. IsTextExplained roles.entry.catalogue.now
        roles.entry.current.now text.now (fault_in outcome)) }
{
    match parse(alloc, text) {
        Ok(statement) => explain_statement(alloc, roles, &statement, json),
        Err(refusal) => {
            let fault = refused(refusal.0)?;
            Ok(Err(fault))
        }
    }
}

// The explanation of a statement.
fn explain_statement(
    alloc: Global,
    roles: ActingRoles<'_>,
    statement: &Statement,
    json: bool,
) -> Result<Result<String, ExplainFault>, AllocError>
    ensures { IfOk result (λ outcome. IsReadingExplained roles.entry.catalogue.now
        roles.entry.current.now statement.now (fault_in outcome)) }
{
    match statement {
        Statement::OnDatabase(DatabaseStatement::OverRows(statement)) => {
            explain_rows(alloc, roles, statement, json)
        }
        _ => Ok(Err(ExplainFault::NotOverRows)),
    }
}

// The explanation of a statement over rows.
fn explain_rows(
    alloc: Global,
    roles: ActingRoles<'_>,
    statement: &RowStatement,
    json: bool,
) -> Result<Result<String, ExplainFault>, AllocError>
    ensures { IfOk result (λ outcome. IsRowsExplained roles.entry.catalogue.now
        roles.entry.current.now statement.now (fault_in outcome)) }
{
    match plan_rows(alloc, roles.catalogue, roles.current, statement) {
        Ok(plan) => {
            let text = explain_plan(alloc, roles, statement, &plan, json)?;
            Ok(Ok(text))
        }
        Err(refusal) => {
            let fault = refused(refusal.0)?;
            Ok(Err(fault))
        }
    }
}

// That a statement is refused with this code, unless memory was refused.
fn refused(code: SqlState) -> Result<ExplainFault, AllocError>
    ensures { IfOk result (λ fault. (fault ≡ Refused code) × (code ≢ OutOfMemory)) }
{
    match code {
        SqlState::OutOfMemory => Err(AllocError),
        _ => Ok(ExplainFault::Refused(code)),
    }
}

// The explanation of a statement that has this plan.
fn explain_plan(
    alloc: Global,
    roles: ActingRoles<'_>,
    statement: &RowStatement,
    plan: &Plan<'_>,
    json: bool,
) -> Result<String, AllocError>
    requires { IsPlanOf roles.catalogue.now roles.current.now statement.now plan.now }
{
    let (catalogue, current) = (roles.catalogue, roles.current);
    let users = users_of(current, roles.session, roles_of(plan));
    let ranged = planned_ranges(alloc, plan, &users)?;
    let told = explain_tables(alloc, catalogue, current, &users, plan, ranged.as_slice())?;
    let names = table_names(alloc, statement)?;
    print_tables(alloc, roles, plan, told.as_slice(), names.as_slice(), json)
}

// What is told of the tables of a plan, which have these names in the statement, as text.
fn print_tables(
    alloc: Global,
    roles: ActingRoles<'_>,
    plan: &Plan<'_>,
    told: &[TableExplanation<'_>],
    names: &[&Name],
    json: bool,
) -> Result<String, AllocError>
    requires { IsExplanation roles.catalogue.now roles.current.now roles.session.now plan.now told.now }
{
    let mut tables = Vec::new(alloc);
    for (name, table) in names.iter().zip(told) {
        tables.push(ScopeTable {
            name: *name,
            columns: table.table.columns(),
        })?;
    }
    let heading = Heading {
        action: action_of(plan),
        role: roles.current.as_str(),
        session: roles.session.as_str(),
    };
    print_explanation(alloc, heading, told, tables.as_slice(), json)
}
