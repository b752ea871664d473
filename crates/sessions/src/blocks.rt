//! BEGIN, COMMIT and ROLLBACK, and the end of a session.

ghost use Rattle.std.specs.Prelude.{IfOk, Option};
ghost use Rattle.sql_ast.specs.declared.statement.Statement.{Statement as TheStatement};
ghost use Rattle.sql_ast.specs.declared.statement.SessionStatement.{SessionStatement as TheSessionStatement};
ghost use Rattle.store.specs.Records.{Records};
ghost use Rattle.abstract_database.specs.Database.{Database};
ghost use Rattle.abstract_database.specs.Machine.{Holder, begin as begin_of, commit as commit_of, rollback as rollback_of, closes, Session as TheSession, succeeds, with_block_ended};
ghost use Rattle.sql_types.specs.declared.tag.Tag.TheVariants as tag;
ghost use Rattle.abstract_database.specs.Lists.{TheName};
ghost use Rattle.abstract_database.specs.Runs.{CommitsAt};
ghost use Rattle.stored_database.specs.Definitions.{Definitions};
ghost use Rattle.server.specs.Standing.{HolderShows, HoldsInBlock};
ghost use Rattle.server.specs.Decisions.{Decides};
ghost use Rattle.server.specs.declared.writer.Writer.{Writer as TheWriter};
ghost use Rattle.sessions.specs.Decisions.{Serves, Always, Never, IsBlockOf, NoText};

use crate::answers::{done, warned};
use crate::seeing::holds_lock;
use indexmap::IndexMap;
use server::decision::{Decision, SessionChange};
use server::session::{Block, BlockChange, Session};
use server::writer::Writer;
use sql_types::answer::Answer;
use sql_types::state::SqlState;
use sql_types::tag::Tag;
use sql_types::try_copy::TryCopy;
use sql_types::warning::Warning;
use std::alloc::{AllocError, Global};

/// BEGIN of a session that may execute it: the session is in a block from now on; in a block it is
/// only warned.
pub fn begin(alloc: Global, number: u64, session: &Session) -> Result<Decision, AllocError>
    ensures { IfOk result (λ decision. (writer : Option TheWriter) → Serves writer number session.now Always Never
        (λ m. begin_of m number session.now session.now.block) decision) }
{
    match &session.block {
        Block::Outside => {
            let login = session.login.try_copy(alloc)?;
            let role = session.role.try_copy(alloc)?;
            let before = session.role.try_copy(alloc)?;
            let inside = Session {
                login,
                role,
                block: Block::Inside(before),
            };
            Ok(Decision::Answer(done(Tag::Begin), SessionChange::Put(number, inside)))
        }
        Block::Inside(_) => Ok(Decision::Answer(
            warned(Tag::Begin, Warning::ActiveTransaction),
            SessionChange::Keep,
        )),
        Block::Failed(_) => Ok(Decision::Answer(
            Answer::Refused(SqlState::InFailedTransaction),
            SessionChange::Keep,
        )),
    }
}

/// COMMIT of a session: what it changed in its block is committed, and the block ends. A failed
/// block is rolled back, and outside a block it is only warned.
pub fn commit(writer: &Option<Writer>, number: u64, session: &Session) -> Decision
    ensures { Serves writer.now number session.now Always
        (λ m. CommitsAt m number session.now.block
        (TheStatement.OfSession TheSessionStatement.Commit))
        (λ m. commit_of m number session.now session.now.block) result }
{
    match &session.block {
        Block::Outside => Decision::Answer(
            warned(Tag::Commit, Warning::NoActiveTransaction),
            SessionChange::Keep,
        ),
        Block::Inside(_) => {
            let change = SessionChange::Block(number, BlockChange::Leave);
            if holds_lock(writer, number) {
                Decision::CommitWriter(done(Tag::Commit), change)
            } else {
                Decision::Answer(done(Tag::Commit), change)
            }
        }
        Block::Failed(_) => end_rolled_back(writer, number),
    }
}

/// ROLLBACK of a session: what it changed in its block is given up, and the block ends with the role
/// that was set at its BEGIN. Outside a block it is only warned.
pub fn roll_back(writer: &Option<Writer>, number: u64, session: &Session) -> Decision
    ensures { Serves writer.now number session.now Always Never
        (λ m. rollback_of m number session.now session.now.block) result }
{
    match &session.block {
        Block::Outside => Decision::Answer(
            warned(Tag::Rollback, Warning::NoActiveTransaction),
            SessionChange::Keep,
        ),
        Block::Inside(_) | Block::Failed(_) => end_rolled_back(writer, number),
    }
}

// The block of a session ends, and what it changed is given up.
fn end_rolled_back(writer: &Option<Writer>, number: u64) -> Decision
    ensures { (s : TheSession) (role : TheName) → IsBlockOf role s.block
        → Serves writer.now number s Always Never
        (λ m. succeeds tag.Rollback (with_block_ended m number s m.committed role)) result }
{
    let change = SessionChange::Block(number, BlockChange::RollBack);
    if holds_lock(writer, number) {
        Decision::Release(done(Tag::Rollback), change)
    } else {
        Decision::Answer(done(Tag::Rollback), change)
    }
}

/// The end of a session: an open block is rolled back. It takes no memory.
pub fn close(writer: &Option<Writer>, sessions: &IndexMap<u64, Session>, number: u64) -> Decision
    ensures { (records : Records) (d : Definitions) (db : Database) (holder : Option Holder)
        → HolderShows records d writer.now holder
        → HoldsInBlock holder sessions.now.entries
        → Decides NoText records d writer.now db holder sessions.now.entries (closes number) result }
{
    if !sessions.contains_key(&number) {
        return Decision::Answer(
            Answer::Refused(SqlState::ConnectionDoesNotExist),
            SessionChange::Keep,
        );
    }
    let change = SessionChange::Close(number);
    if holds_lock(writer, number) {
        Decision::Release(done(Tag::Close), change)
    } else {
        Decision::Answer(done(Tag::Close), change)
    }
}
