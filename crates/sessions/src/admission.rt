//! Whether a session may execute a statement.

ghost use Rattle.std.specs.Prelude.{◌≡◌, IfOk, ℕ, Bool};
ghost use Rattle.abstract_database.specs.Machine.{Machine, changes_rows as changes_rows_of, changes_database as changes_database_of, is_writing as is_writing_of, changes_role as changes_role_of, sets_role as sets_role_of, has_failed as has_failed_of, is_held_by_other, keeps_role as keeps_role_of, may_execute};
ghost use Rattle.abstract_database.specs.Database.{Database};
ghost use Rattle.server.specs.Session.{block_of};
ghost use Rattle.sessions.specs.Admission.{HasRolesOf, SeesRolesOf, admission_of};

use crate::roles::may_set_role;
use catalogue::definitions::Catalogue;
use server::session::{Block, Session};
use sql_ast::statement::{DatabaseStatement, RowStatement, SessionStatement, Statement};
use sql_types::state::SqlState;
use std::alloc::{AllocError, Global};

/// Whether the statement is one that changes the database.
pub fn changes_database(statement: &DatabaseStatement) -> bool
    ensures { result ≡ changes_database_of statement.now }
{
    match statement {
        DatabaseStatement::OverRows(statement) => changes_rows(statement),
        DatabaseStatement::Defining(_) => true,
    }
}

// Whether the statement is one that changes rows.
fn changes_rows(statement: &RowStatement) -> bool
    ensures { result ≡ changes_rows_of statement.now }
{
    match statement {
        RowStatement::Insert(_) | RowStatement::Update(_) | RowStatement::Delete(_) => true,
        RowStatement::Select(_) => false,
    }
}

/// Whether the statement is one that changes the database.
pub fn is_writing(statement: &Statement) -> bool
    ensures { result ≡ is_writing_of statement.now }
{
    match statement {
        Statement::OnDatabase(statement) => changes_database(statement),
        Statement::OfSession(_) => false,
    }
}

// Whether the statement is one that sets a role.
fn changes_role(statement: &SessionStatement) -> bool
    ensures { result ≡ changes_role_of statement.now }
{
    match statement {
        SessionStatement::SetRole(_) | SessionStatement::ResetRole => true,
        SessionStatement::Begin | SessionStatement::Commit | SessionStatement::Rollback => false,
    }
}

// Whether the statement is one that sets a role.
fn sets_role(statement: &Statement) -> bool
    ensures { result ≡ sets_role_of statement.now }
{
    match statement {
        Statement::OnDatabase(_) => false,
        Statement::OfSession(statement) => changes_role(statement),
    }
}

// Whether the block is one in which a statement was refused.
fn has_failed(block: &Block) -> bool
    ensures { result ≡ has_failed_of (block_of block.now) }
{
    matches!(block, Block::Failed(_))
}

/// Why a session may not execute a statement now, over the definitions that it sees, or `None` where
/// it may. In this order: `InFailedTransaction` in a failed block, `InvalidAuthorization` where its
/// login role is gone, `InsufficientPrivilege` where its set role is gone or may not be set any more
/// and the statement sets no other, and `LockNotAvailable` for a statement that changes the database
/// while another session holds the writer lock.
pub fn admit(
    alloc: Global,
    catalogue: &Catalogue,
    session: &Session,
    statement: &Statement,
    is_held_by_another: bool,
) -> Result<Option<SqlState>, AllocError>
    ensures { IfOk result (λ refusal. (m : Machine) (number : ℕ) → SeesRolesOf catalogue.now number m
        → is_held_by_other number m.holder ≡ is_held_by_another
        → may_execute m number session.now statement.now ≡ admission_of refusal) }
{
    if has_failed(&session.block) {
        return Ok(Some(SqlState::InFailedTransaction));
    }
    if !catalogue.has_role(&session.login) {
        return Ok(Some(SqlState::InvalidAuthorization));
    }
    if !sets_role(statement) && !keeps_role(alloc, catalogue, session)? {
        return Ok(Some(SqlState::InsufficientPrivilege));
    }
    if is_held_by_another && is_writing(statement) {
        return Ok(Some(SqlState::LockNotAvailable));
    }
    Ok(None)
}

// Whether the set role of a session is there, and the session may still set it.
fn keeps_role(alloc: Global, catalogue: &Catalogue, session: &Session) -> Result<bool, AllocError>
    ensures { IfOk result (λ keeps. (db : Database) → HasRolesOf catalogue.now db
        → keeps ≡ keeps_role_of db session.now) }
{
    if !catalogue.has_role(&session.role) {
        return Ok(false);
    }
    may_set_role(alloc, catalogue, &session.login, &session.role)
}
