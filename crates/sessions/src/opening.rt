//! The opening of a session.

ghost use Rattle.std.specs.Prelude.{◌≡◌, Option, OnErr, IfOk};
ghost use Rattle.sql_types.specs.declared.answer.Answer.TheVariants as answer;
ghost use Rattle.abstract_database.specs.Database.{Database};
ghost use Rattle.abstract_database.specs.Machine.{Holder, opens};
ghost use Rattle.abstract_database.specs.Runs.{MayRunOutOfMemory};
ghost use Rattle.server.specs.declared.decision.Decision.TheVariants as decision;
ghost use Rattle.server.specs.declared.decision.SessionChange.TheVariants as change;
ghost use Rattle.server.specs.Standing.{HoldsInBlock};
ghost use Rattle.server.specs.Decisions.{machine_at};
ghost use Rattle.sessions.specs.Admission.{HasRolesOf};
ghost use Rattle.sessions.specs.Opening.{Opens};

use crate::answers::done;
use crate::roles::find_login;
use catalogue::definitions::Catalogue;
use indexmap::IndexMap;
use server::decision::{Decision, SessionChange};
use server::numbers::count_own;
use server::session::Session;
use sql_types::answer::Answer;
use sql_types::state::SqlState;
use sql_types::tag::Tag;
use sql_types::try_copy::TryCopy;
use std::alloc::{AllocError, Global};

/// The most sessions that a client may have open at once.
pub const MAX_SESSIONS: usize = 256;

/// The opening of a session for a role, over the committed definitions. It is refused with
/// `ConnectionNameInUse` where a session of this number is open, with `TooManyConnections` where 256 of
/// its client are, and with `InvalidAuthorization` where no role of this name may log in. The only error is
/// that an allocation failed, and it comes only where the opening is not refused by the first two.
pub fn open(
    alloc: Global,
    catalogue: &Catalogue,
    sessions: &IndexMap<u64, Session>,
    number: u64,
    login: &str,
) -> Result<Decision, AllocError>
    ensures opens { (db : Database) (holder : Option Holder) → HasRolesOf catalogue.now db
        → HoldsInBlock holder sessions.now.entries
        → IfOk result (λ decision. Opens db holder sessions.now.entries number login.now decision) }
    ensures memory { (db : Database) (holder : Option Holder)
        → OnErr result (MayRunOutOfMemory (machine_at db holder sessions.now.entries) (opens number login.now)) }
{
    if sessions.contains_key(&number) {
        return Ok(refused(SqlState::ConnectionNameInUse));
    }
    if count_own(sessions, number) >= MAX_SESSIONS {
        return Ok(refused(SqlState::TooManyConnections));
    }
    let Some(login) = find_login(alloc, catalogue, login)? else {
        return Ok(refused(SqlState::InvalidAuthorization));
    };
    let role = login.try_copy(alloc)?;
    Ok(Decision::Open(done(Tag::Open), number, Session::new(login, role)))
}

// An event is refused, and changes nothing.
fn refused(state: SqlState) -> Decision
    ensures { result ≡ decision.Answer (answer.Refused state) change.Keep }
{
    Decision::Answer(Answer::Refused(state), SessionChange::Keep)
}
