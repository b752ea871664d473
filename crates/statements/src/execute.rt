//! What carries out every statement over the database.

ghost use Rattle.sql_ast.specs.declared.statement.DatabaseStatement.{DatabaseStatement as TheDatabaseStatement};
ghost use Rattle.store.specs.StatementError.{ReadsMap};
ghost use Rattle.stored_database.specs.Records.{Shows};
ghost use Rattle.abstract_database.specs.Database.{Database};
ghost use Rattle.abstract_database.specs.Machine.{users_of};
ghost use Rattle.abstract_database.specs.Statements.{exec};
ghost use Rattle.catalogue.specs.Executed.{Executes};
ghost use Rattle.server.specs.Executed.{MayExecute};

use catalogue::definitions::Catalogue;
use catalogue::effect::Effect;
use planner::describe_rows;
use schema_statements::{
    MembershipStatement, PrivilegeStatement, alter_table, create_policy, create_role, create_table,
    drop_policy, drop_role, drop_table, grant_or_revoke, grant_or_revoke_roles,
};
use server::execute::Execute;
use server::session::Session;
use sql_ast::description::StatementDescription;
use sql_ast::statement::{DatabaseStatement, DefiningStatement};
use std::alloc::Global;
use store::{Map, StatementError};

/// What carries out every statement over the database: each by what its kind says of it.
#[derive(Clone, Copy)]
pub struct Statements;

impl Execute for Statements {
    fn execute<M: Map>(
        &self,
        alloc: Global,
        map: &mut M,
        catalogue: &Catalogue,
        session: &Session,
        statement: &DatabaseStatement,
    ) -> Result<Effect, StatementError> {
        match statement {
            DatabaseStatement::OverRows(statement) => {
                row_statements::execute(
                    alloc,
                    map,
                    catalogue,
                    &session.role,
                    &session.login,
                    statement,
                )
            }
            DatabaseStatement::Defining(statement) => {
                define(alloc, map, catalogue, session, statement)
            }
        }
    }

    fn describe(
        &self,
        alloc: Global,
        catalogue: &Catalogue,
        session: &Session,
        statement: &DatabaseStatement,
    ) -> StatementDescription {
        match statement {
            DatabaseStatement::OverRows(statement) => {
                describe_rows(alloc, catalogue, &session.role, statement)
            }
            DatabaseStatement::Defining(_) => StatementDescription::NoRows,
        }
    }
}

// A defining statement, carried out as `execute` says.
fn define<M: Map>(
    alloc: Global,
    map: &mut M,
    catalogue: &Catalogue,
    session: &Session,
    statement: &DefiningStatement,
) -> Result<Effect, StatementError>
    ensures preserved { M.preserved map.old map.new }
    ensures read { ReadsMap result (M.state map.old) (M.state map.new) }
    ensures executes { (M.state map.old).sound → (db : Database)
        → Shows (M.state map.old).map catalogue.now db
        → MayExecute db (users_of session.now) (TheDatabaseStatement.Defining statement.now)
        → Executes (M.state map.old).map catalogue.now result
        (exec db (users_of session.now) (TheDatabaseStatement.Defining statement.now)) }
{
    let current = &session.role;
    match statement {
        DefiningStatement::CreateRole(s) => create_role(alloc, catalogue, current, s),
        DefiningStatement::DropRole(s) => drop_role(alloc, catalogue, current, &session.login, s),
        DefiningStatement::GrantRole(s) => {
            grant_or_revoke_roles(alloc, catalogue, current, MembershipStatement::Grant(s))
        }
        DefiningStatement::RevokeRole(s) => {
            grant_or_revoke_roles(alloc, catalogue, current, MembershipStatement::Revoke(s))
        }
        DefiningStatement::CreateTable(s) => create_table(alloc, catalogue, current, s),
        DefiningStatement::DropTable(s) => drop_table(alloc, map, catalogue, current, s),
        DefiningStatement::AlterTable(s) => alter_table(alloc, catalogue, current, s),
        DefiningStatement::CreatePolicy(s) => create_policy(alloc, catalogue, current, s),
        DefiningStatement::DropPolicy(s) => drop_policy(alloc, catalogue, current, s),
        DefiningStatement::Grant(s) => {
            grant_or_revoke(alloc, catalogue, current, PrivilegeStatement::Grant(s))
        }
        DefiningStatement::Revoke(s) => {
            grant_or_revoke(alloc, catalogue, current, PrivilegeStatement::Revoke(s))
        }
    }
}
