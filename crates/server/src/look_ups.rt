//! Look-ups of verifiers in the committed database.

ghost use Rattle.std.specs.Prelude.{◌≡◌, if◌then◌else◌, Err, true, false};
ghost use Rattle.sql_types.specs.declared.state.SqlState.TheVariants.{IoError};
ghost use Rattle.store.specs.Store.{KeepsHistory};
ghost use Rattle.server.specs.LookUps.{found_refused, LooksVerifierUp, LeavesMachine, FindsKept, ReadsInSession, ClosesOwn};

use crate::decide::EventHandler;
use crate::numbers::number_in;
use crate::server::Server;
use kept_verifiers::verifier_of;
use sql_types::answer::Answer;
use sql_types::event::Event;
use sql_types::name::Name;
use sql_types::state::SqlState;
use sql_types::text::Text;
use sql_types::try_copy::TryCopy;
use store::{Fault, Store};

/// The client whose sessions look-ups are. No client that comes has this number.
pub const LOOK_UP_CLIENT: u32 = 4_294_967_295;

// The only session that it ever has.
const LOOK_UP_SESSION: u32 = 0;

impl<S: Store, X: EventHandler> Server<S, X> {
    /// The text of the verifier that the table of this name keeps for a role in the committed database,
    /// or `None` where it keeps none. One row is read at most, and nothing changes: it is read in a
    /// session of the role, of the client of look-ups, which is closed then.
    ///
    /// `OutOfMemory`: an allocation failed. `IoError`: the server had stopped, or the device of the store
    /// failed, after which the server has stopped. Another code: that client had sessions of its own.
    pub fn verifier_of(&mut self, table: &Name, role: &Text) -> Result<Option<Text>, SqlState>
        ensures history { KeepsHistory (S.state self.old.store) (S.state self.new.store) }
        ensures stopped { self.old.stopped ≡ true → (result ≡ Err IoError) × (self.new ≡ self.old) }
        ensures running { self.new.stopped ≡ true → result ≡ Err IoError }
        ensures looks { LooksVerifierUp X.Reads S.state role.now result self.old self.new }
        ensures leaves { LeavesMachine S.state role.now result self.old self.new }
        ensures finds { FindsKept S.state table.now role.now result self.old }
    {
        if self.stopped {
            return Err(SqlState::IoError);
        }
        let Ok(login) = role.try_copy(self.alloc) else {
            return Err(SqlState::OutOfMemory);
        };
        let opening = Event::Open {
            session: LOOK_UP_SESSION,
            login,
        };
        match self.step(LOOK_UP_CLIENT, &opening) {
            Answer::Refused(code) => found_refused(code),
            Answer::Rows(_) | Answer::Done { .. } => self.read_in_session(table, role),
        }
    }

    // Reads in the session of a look-up, and closes it.
    fn read_in_session(&mut self, table: &Name, role: &Text) -> Result<Option<Text>, SqlState>
        ensures history { KeepsHistory (S.state self.old.store) (S.state self.new.store) }
        ensures running { self.old.stopped ≡ false → self.new.stopped ≡ true → result ≡ Err IoError }
        ensures reads { self.old.stopped ≡ false
            → ReadsInSession X.Reads S.state result self.old self.new }
        ensures finds { self.old.stopped ≡ false
            → FindsKept S.state table.now role.now result self.old }
    {
        let number = number_in(LOOK_UP_CLIENT, LOOK_UP_SESSION);
        if self.sessions.get(&number).is_none() {
            return Err(SqlState::ConnectionDoesNotExist);
        }
        let found = verifier_of(
            self.alloc,
            &mut self.store,
            &self.catalogue,
            table,
            role.as_str(),
        );
        match found {
            Ok(text) => self.end_look_up(Ok(text)),
            Err(fault) => match fault {
                Fault::Memory => self.end_look_up(Err(SqlState::OutOfMemory)),
                Fault::Device => self.fail_look_up(),
                // It never comes over a map that shows a database.
                Fault::Damaged => self.fail_look_up(),
            },
        }
    }

    // Stops, since the device failed in the session of a look-up.
    fn fail_look_up(&mut self) -> Result<Option<Text>, SqlState>
        ensures answer { result ≡ Err IoError }
        ensures stops { self.new ≡ record self.old { stopped = true } }
    {
        self.stopped = true;
        Err(SqlState::IoError)
    }

    // Closes the session of a look-up that has found this, and tells it.
    fn end_look_up(
        &mut self,
        found: Result<Option<Text>, SqlState>,
    ) -> Result<Option<Text>, SqlState>
        ensures closes { ClosesOwn X.Reads S.state self.old self.new }
        ensures told { result ≡ (if self.new.stopped then Err IoError else found) }
    {
        let closing = Event::Close {
            session: LOOK_UP_SESSION,
        };
        let attempted = self.attempt(LOOK_UP_CLIENT, &closing);
        // Nobody is there to hear it.
        let _answer = self.answer_of(attempted);
        if self.stopped {
            return Err(SqlState::IoError);
        }
        found
    }
}

// What is found of a verifier where no session was opened for the role.
fn found_refused(code: SqlState) -> Result<Option<Text>, SqlState>
    ensures { result ≡ found_refused code }
{
    match code {
        // The role may not log in.
        SqlState::InvalidAuthorization => Ok(None),
        _ => Err(code),
    }
}
