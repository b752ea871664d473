//! A server: a store, the writer lock, and the sessions that are open over them.

ghost use Rattle.std.specs.Prelude.{◌≡◌, ◌++◌, ◌+◌, length, List, Option, Some, None, Err, OnOk, OnErr, slice_get, true, false};
ghost use Rattle.std.specs.Option.{option_map};
ghost use Rattle.sql_types.specs.declared.answer.Answer.{Answer as TheAnswer};
ghost use Rattle.storage_sizes.specs.declared.record_format.RecordFormat.TheVariants.{V2};
ghost use Rattle.store.specs.Store.{KeepsHistory};
ghost use Rattle.abstract_database.specs.Machine.{own_number, own_sessions};
ghost use Rattle.server.specs.Dropped.{KeepsDefinitions};
ghost use Rattle.abstract_database.specs.Database.{Database};
ghost use Rattle.abstract_database.specs.Runs.{At};
ghost use Rattle.stored_database.specs.Records.{Shows};
ghost use Rattle.server.specs.Standing.{event_of, Represents, at_start};
ghost use Rattle.server.specs.Runs.{Steps, Runs};
ghost use Rattle.server.specs.Decisions.{Attempts, Carries, store_fault_of};
ghost use Rattle.server.specs.Attempts.{answer_to, after_attempt};
ghost use Rattle.server.specs.Exchanged.{over_store};
ghost use Rattle.server.specs.declared.decision.Decision.TheVariants as decisions;

use crate::changing::change_sessions;
use crate::decide::{Context, EventHandler};
use crate::decision::Decision;
use crate::numbers::own_at;
use crate::session::Session;
use crate::writer::Writer;
use catalogue::change::SchemaChange;
use catalogue::definitions::Catalogue;
use catalogue::effect::Effect;
use catalogue::staged::Staged;
use indexmap::IndexMap;
use sql_types::answer::Answer;
use sql_types::event::Event;
use sql_types::state::SqlState;
use std::alloc::{AllocError, Global};
use std::mem;
use store::{Batch, Fault, Store, StoreFault};

/// The client of scripts, and of connections that are served one after the other.
pub const ONLY_CLIENT: u32 = 0;

/// A server over a store, whose events are decided by `X`: the definitions of the committed
/// database, the writer lock where a session holds it, and the sessions in the order of their
/// opening; and whether the last step may have changed those definitions, as one that dropped a role has.
pub struct Server<S, X> {
    pub(crate) alloc: Global,
    pub(crate) store: S,
    pub(crate) handler: X,
    pub(crate) catalogue: Catalogue,
    pub(crate) writer: Option<Writer>,
    pub(crate) sessions: IndexMap<u64, Session>,
    pub(crate) stopped: bool,
    pub(crate) may_have_dropped: bool,
}

// Written and not derived: where a value is dropped this is one call, and not its parts one by one.
impl<S: Drop, X: Drop> Drop for Server<S, X> {
    fn drop(self) {
        let Server {
            alloc: _,
            store: _,
            handler: _,
            catalogue: _,
            writer: _,
            sessions: _,
            stopped: _,
            may_have_dropped: _,
        } = self;
    }
}

impl<S, X> Server<S, X> {
    /// The store, and the same server over another one in its place. What stands in the server's memory
    /// is true of the store that it had: whoever gives it another one answers for that.
    pub fn exchange_store<T>(self, other: T) -> (S, Server<T, X>)
        ensures store { result.0 ≡ self.store }
        ensures server { result.1 ≡ over_store other self }
    {
        let Server {
            alloc,
            store,
            handler,
            catalogue,
            writer,
            sessions,
            stopped,
            may_have_dropped,
        } = self;
        let exchanged = Server {
            alloc,
            store: other,
            handler,
            catalogue,
            writer,
            sessions,
            stopped,
            may_have_dropped,
        };
        (store, exchanged)
    }
}

impl<S: Store, X: EventHandler> Server<S, X> {
    /// A server over a store that has not failed and whose records, which are of the second
    /// record format, show a database with these definitions. No session is open.
    pub fn over(alloc: Global, store: S, handler: X, catalogue: Catalogue) -> Server<S, X>
        ensures store { result.store ≡ store }
        ensures represents { (db : Database) → (S.state store).sound
            → (S.state store).has_failed ≡ false
            → (S.state store).record_format ≡ V2
            → Shows (S.state store).map catalogue db
            → Represents S.state result (at_start (S.state store) db) }
    {
        Server {
            alloc,
            store,
            handler,
            catalogue,
            writer: None,
            sessions: IndexMap::new(alloc),
            stopped: false,
            may_have_dropped: false,
        }
    }

    /// The store, lent.
    pub fn store(&self) -> &S
        ensures { result.now ≡ self.now.store }
    {
        &self.store
    }

    /// The store alone. Sessions that are open are dropped, and what the holder of the writer lock
    /// has changed with them.
    pub fn into_store(self) -> S
    where
        X: Drop,
        ensures { result ≡ self.store }
    {
        let Server {
            alloc: _,
            store,
            handler: _,
            catalogue: _,
            writer: _,
            sessions: _,
            stopped: _,
            may_have_dropped: _,
        } = self;
        store
    }

    /// Whether the server has stopped, so that it refuses every event.
    pub fn has_stopped(&self) -> bool
        ensures stopped { result ≡ self.now.stopped }
        ensures machine { (w : At) → Represents S.state self.now w
            → result ≡ w.standing.machine.stopped }
    {
        self.stopped
    }

    /// The own number of an open session of a client, by its index among those in the order of opening,
    /// or `None` past the last. It looks at every open session before that one.
    pub fn session_at(&self, client: u32, index: usize) -> Option<u32>
        ensures { (w : At) → Represents S.state self.now w
            → result ≡ option_map (λ e. own_number e.0) (slice_get (own_sessions client w.standing.machine.sessions) index) }
    {
        own_at(&self.sessions, client, index)
    }

    /// Makes one transition of the session machine, for an event of this client, and answers what it answers, or refuses the event
    /// in its place: `OutOfMemory` where an allocation failed, `DiskFull` and `ProgramLimitExceeded`
    /// where the store has no room or no commit number, which leave the machine as it was, and
    /// `IoError` where the device failed, after which it answers nothing else.
    pub fn step(&mut self, client: u32, event: &Event) -> Answer
        ensures history { KeepsHistory (S.state self.old.store) (S.state self.new.store) }
        ensures stopped { self.old.stopped ≡ true
            → (result ≡ Answer.Refused SqlState.IoError) × (self.new ≡ self.old) }
        ensures running { self.new.stopped ≡ true → result ≡ Answer.Refused SqlState.IoError }
        ensures steps { Steps X.Reads S.state client self.old event.now result self.new }
        ensures dropped { KeepsDefinitions self.old self.new }
    {
        if self.stopped {
            return Answer::Refused(SqlState::IoError);
        }
        self.may_have_dropped = false;
        let attempted = self.attempt(client, event);
        self.answer_of(attempted)
    }

    // The answer to an event that was attempted, or its refusal for a fault, which stops the server
    // where the device failed.
    pub(crate) fn answer_of(&mut self, attempted: Result<Answer, StoreFault>) -> Answer
        ensures answer { result ≡ answer_to attempted }
        ensures server { self.new ≡ after_attempt attempted self.old }
        ensures running { self.old.stopped ≡ false → self.new.stopped ≡ true
            → result ≡ Answer.Refused SqlState.IoError }
    {
        match attempted {
            Ok(answer) => answer,
            Err(StoreFault::Memory) => Answer::Refused(SqlState::OutOfMemory),
            Err(StoreFault::Full) => Answer::Refused(SqlState::DiskFull),
            Err(StoreFault::Number) => Answer::Refused(SqlState::ProgramLimitExceeded),
            Err(StoreFault::Device) => {
                self.stopped = true;
                Answer::Refused(SqlState::IoError)
            }
        }
    }

    /// Answers events of one client in their order, and adds the answers to those that are there. The memory for
    /// the answers is taken first: where that fails, nothing changes.
    pub fn run(
        &mut self,
        client: u32,
        events: &[Event],
        answers: &mut Vec<Answer>,
    ) -> Result<(), AllocError>
        ensures history { KeepsHistory (S.state self.old.store) (S.state self.new.store) }
        ensures ok { OnOk result ((told : List TheAnswer)
            × (answers.new.items ≡ answers.old.items ++ told)
            × Runs X.Reads S.state client self.old events.now told self.new) }
        ensures one_each { OnOk result (length answers.new.items
            ≡ length answers.old.items + length events.now) }
        ensures err { OnErr result ((self.new ≡ self.old)
            × (answers.new.items ≡ answers.old.items)) }
    {
        answers.reserve(events.len())?;
        for event in events {
            let answer = self.step(client, event);
            match answers.push(answer) {
                Ok(()) => {}
                Err(_) => unreachable!(),
            }
        }
        Ok(())
    }

    // Decides an event and does what was decided.
    pub(crate) fn attempt(&mut self, client: u32, event: &Event) -> Result<Answer, StoreFault>
        ensures history { KeepsHistory (S.state self.old.store) (S.state self.new.store) }
        ensures running { self.new.stopped ≡ self.old.stopped }
        ensures attempts { Attempts X.Reads S.state self.old self.new (event_of client event.now) result }
        ensures dropped { KeepsDefinitions self.old self.new }
    {
        let context = Context {
            catalogue: &self.catalogue,
            writer: &self.writer,
            sessions: &self.sessions,
        };
        let decided = self
            .handler
            .decide(self.alloc, &mut self.store, context, client, event);
        match decided {
            Ok(decision) => self.apply(decision),
            Err(fault) => Err(store_fault(fault)),
        }
    }

    // Does what was decided. The store is called once at most.
    pub(crate) fn apply(&mut self, decision: Decision) -> Result<Answer, StoreFault>
        ensures history { KeepsHistory (S.state self.old.store) (S.state self.new.store) }
        ensures running { self.new.stopped ≡ self.old.stopped }
        ensures carries { Carries X.Reads S.state self.old self.new decision result }
        ensures dropped { KeepsDefinitions self.old self.new }
    {
        match decision {
            Decision::Answer(answer, change) => {
                change_sessions(&mut self.sessions, change);
                Ok(answer)
            }
            Decision::Open(answer, number, session) => self.open_session(answer, number, session),
            Decision::Release(answer, change) => {
                self.writer = None;
                change_sessions(&mut self.sessions, change);
                Ok(answer)
            }
            Decision::Commit(effect) => self.commit(effect),
            Decision::Hold(session, effect) => self.hold(session, effect),
            Decision::CommitWriter(answer, change) => self.commit_writer(answer, change),
        }
    }

    // Opens a session.
    fn open_session(
        &mut self,
        answer: Answer,
        number: u64,
        session: Session,
    ) -> Result<Answer, StoreFault>
        ensures history { KeepsHistory (S.state self.old.store) (S.state self.new.store) }
        ensures running { self.new.stopped ≡ self.old.stopped }
        ensures carries { Carries X.Reads S.state self.old self.new
            (decisions.Open answer number session) result }
        ensures dropped { KeepsDefinitions self.old self.new }
    {
        match self.sessions.insert(number, session) {
            Ok(_) => Ok(answer),
            Err(_) => Err(StoreFault::Memory),
        }
    }

    // Commits the changes of a statement, and makes its change of the definitions.
    fn commit(&mut self, effect: Effect) -> Result<Answer, StoreFault>
        ensures history { KeepsHistory (S.state self.old.store) (S.state self.new.store) }
        ensures running { self.new.stopped ≡ self.old.stopped }
        ensures carries { Carries X.Reads S.state self.old self.new (decisions.Commit effect) result }
        ensures dropped { KeepsDefinitions self.old self.new }
    {
        let Effect {
            answer,
            mut changes,
            schema,
        } = effect;
        match schema {
            None => self.commit_records(answer, &mut changes),
            Some(change) => self.commit_change(answer, &mut changes, change),
        }
    }

    // Commits the changes of a statement that leaves the definitions as they are.
    fn commit_records(&mut self, answer: Answer, changes: &mut Batch) -> Result<Answer, StoreFault>
        ensures history { KeepsHistory (S.state self.old.store) (S.state self.new.store) }
        ensures running { self.new.stopped ≡ self.old.stopped }
        ensures carries { Carries X.Reads S.state self.old self.new
            (decisions.Commit (record { answer = answer; changes = changes.old; schema = None })) result }
        ensures dropped { KeepsDefinitions self.old self.new }
    {
        match self.store.commit(changes) {
            Ok(()) => Ok(answer),
            Err(fault) => Err(fault),
        }
    }

    // Commits the changes of a statement that changes the definitions. The memory for that change is
    // taken before.
    fn commit_change(
        &mut self,
        answer: Answer,
        changes: &mut Batch,
        change: SchemaChange,
    ) -> Result<Answer, StoreFault>
        ensures history { KeepsHistory (S.state self.old.store) (S.state self.new.store) }
        ensures running { self.new.stopped ≡ self.old.stopped }
        ensures carries { Carries X.Reads S.state self.old self.new (decisions.Commit
            (record { answer = answer; changes = changes.old; schema = Some change })) result }
        ensures dropped { KeepsDefinitions self.old self.new }
    {
        self.may_have_dropped = true;
        let before = mem::replace(&mut self.catalogue, Catalogue::none(self.alloc));
        match Staged::new(before, change) {
            Ok(staged) => self.commit_staged(answer, changes, staged),
            Err(back) => {
                self.catalogue = back;
                Err(StoreFault::Memory)
            }
        }
    }

    // The same over these definitions with their change, which is made once the changes are
    // committed: where the commit fails, the definitions come back as they were.
    fn commit_staged(
        &mut self,
        answer: Answer,
        changes: &mut Batch,
        staged: Staged,
    ) -> Result<Answer, StoreFault>
        ensures history { KeepsHistory (S.state self.old.store) (S.state self.new.store) }
        ensures running { self.new.stopped ≡ self.old.stopped }
        ensures carries { Carries X.Reads S.state (record self.old { catalogue = staged.before })
            self.new (decisions.Commit
            (record { answer = answer; changes = changes.old; schema = Some staged.change })) result }
        ensures dropped { self.new.may_have_dropped ≡ self.old.may_have_dropped }
    {
        match self.store.commit(changes) {
            Ok(()) => {
                self.catalogue = staged.make();
                Ok(answer)
            }
            Err(fault) => {
                self.catalogue = staged.give_up();
                Err(fault)
            }
        }
    }
}

// The fault of an event that was not decided. A damaged record is told as a device that failed.
pub(crate) fn store_fault(fault: Fault) -> StoreFault
    ensures { result ≡ store_fault_of fault }
{
    match fault {
        Fault::Memory => StoreFault::Memory,
        Fault::Device | Fault::Damaged => StoreFault::Device,
    }
}
