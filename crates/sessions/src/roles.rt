//! The role that a session has set.

ghost use Rattle.std.specs.Prelude.{◌≡◌, ◌&&◌, if◌then◌else◌, find, IfOk, Option, Some, None};
ghost use Rattle.std.specs.Option.{option_copied};
ghost use Rattle.sql_types.specs.declared.tag.Tag.TheVariants as tag;
ghost use Rattle.abstract_database.specs.Database.{Database, is_role_named};
ghost use Rattle.abstract_database.specs.Roles.{may_set_role as may_set, may_log_in};
ghost use Rattle.abstract_database.specs.Machine.{succeeds, with_session_changed, as_role};
ghost use Rattle.server.specs.declared.writer.Writer.{Writer as TheWriter};
ghost use Rattle.sessions.specs.Decisions.{Serves, Always, Never};
ghost use Rattle.sessions.specs.Admission.{HasRolesOf, SeesRolesOf};
ghost use Rattle.sessions.specs.Roles.{role_set};

use crate::answers::{done, refuse};
use catalogue::definitions::Catalogue;
use role_membership::is_member;
use server::decision::{Decision, SessionChange};
use server::session::{Block, Session};
use sql_ast::role::Role;
use sql_ast::statement::SetRole;
use sql_types::name::Name;
use sql_types::state::SqlState;
use sql_types::tag::Tag;
use sql_types::try_copy::TryCopy;
use std::alloc::{AllocError, Global};

/// Whether a session that was opened for a role may set a role: itself, each that it is in, and for
/// a superuser each.
pub fn may_set_role(
    alloc: Global,
    catalogue: &Catalogue,
    login: &Name,
    role: &Name,
) -> Result<bool, AllocError>
    ensures { IfOk result (λ may. (db : Database) → HasRolesOf catalogue.now db
        → may ≡ may_set db login.now role.now) }
{
    if login == role || catalogue.is_superuser(login) {
        return Ok(true);
    }
    is_member(alloc, catalogue.memberships(), login, role)
}

/// SET ROLE of a session that may execute it, over the definitions that it sees: the role is set
/// from now on, or refused: `UndefinedObject` where there is no role of this name,
/// `InsufficientPrivilege` where the session may not set it.
pub fn set_role(
    alloc: Global,
    catalogue: &Catalogue,
    number: u64,
    session: &Session,
    statement: &SetRole,
) -> Result<Decision, AllocError>
    ensures { IfOk result (λ decision. (writer : Option TheWriter)
        → Serves writer number session.now (SeesRolesOf catalogue.now number) Never
        (λ m. role_set m number session.now statement.now.role) decision) }
{
    let Some(role) = &statement.role else {
        return put_role(alloc, Tag::Set, number, session, &session.login);
    };
    if !catalogue.has_role(role) {
        return Ok(refuse(number, session, SqlState::UndefinedObject));
    }
    if !may_set_role(alloc, catalogue, &session.login, role)? {
        return Ok(refuse(number, session, SqlState::InsufficientPrivilege));
    }
    put_role(alloc, Tag::Set, number, session, role)
}

/// RESET ROLE of a session that may execute it: its login role is set from now on.
pub fn reset_role(alloc: Global, number: u64, session: &Session) -> Result<Decision, AllocError>
    ensures { IfOk result (λ decision. (writer : Option TheWriter)
        → Serves writer number session.now Always Never
        (λ m. succeeds tag.Reset (with_session_changed m number
        (as_role session.now.login session.now))) decision) }
{
    put_role(alloc, Tag::Reset, number, session, &session.login)
}

// A session with this role set, and all else as it was.
fn put_role(
    alloc: Global,
    tag: Tag,
    number: u64,
    session: &Session,
    role: &Name,
) -> Result<Decision, AllocError>
    ensures { IfOk result (λ decision. (writer : Option TheWriter)
        → Serves writer number session.now Always Never
        (λ m. succeeds tag (with_session_changed m number (as_role role.now session.now))) decision) }
{
    let changed = Session {
        login: session.login.try_copy(alloc)?,
        role: role.try_copy(alloc)?,
        block: copy_block(alloc, &session.block)?,
    };
    Ok(Decision::Answer(done(tag), SessionChange::Put(number, changed)))
}

// A copy of a block.
fn copy_block(alloc: Global, block: &Block) -> Result<Block, AllocError>
    ensures { IfOk result (λ copy. copy ≡ block.now) }
{
    match block {
        Block::Outside => Ok(Block::Outside),
        Block::Inside(role) => Ok(Block::Inside(role.try_copy(alloc)?)),
        Block::Failed(role) => Ok(Block::Failed(role.try_copy(alloc)?)),
    }
}

/// The name of the role with this name, copied, if it may log in; `None` where there is no such role
/// or it may not.
pub fn find_login(
    alloc: Global,
    catalogue: &Catalogue,
    login: &str,
) -> Result<Option<Name>, AllocError>
    ensures { IfOk result (λ found. (db : Database) → HasRolesOf catalogue.now db
        → found ≡ if may_log_in db login.now then Some login.now else None) }
{
    match find_login_role(catalogue.roles(), login) {
        Some(role) => Ok(Some(role.name.try_copy(alloc)?)),
        None => Ok(None),
    }
}

// The role with this name that may log in, lent, or `None` where there is none.
fn find_login_role<'a>(roles: &'a [Role], login: &str) -> Option<&'a Role>
    ensures { option_copied result
        ≡ find (λ role. is_role_named login.now role && role.attributes.login) roles.now }
{
    roles.iter().find(|role| role.name.as_str() == login && role.attributes.login)
}
