//! The writer lock: what waits under it, and its commit.

ghost use Rattle.std.specs.Prelude.{◌≡◌, Option, Some, None, Err, OnOk, IfErr, false};
ghost use Rattle.sql_types.specs.declared.answer.Answer.{Answer as TheAnswer};
ghost use Rattle.store.specs.Store.{KeepsHistory};
ghost use Rattle.server.specs.Writers.{definitions_under, changes_definitions};
ghost use Rattle.server.specs.Dropped.{KeepsDefinitions};
ghost use Rattle.stored_database.specs.Definitions.{Definitions};
ghost use Rattle.server.specs.Decisions.{Carries, CommitsLists};
ghost use Rattle.server.specs.declared.decision.SessionChange.{SessionChange as TheChange};
ghost use Rattle.server.specs.declared.writer.Writer.{Writer as TheWriter};
ghost use Rattle.server.specs.declared.decision.Decision.TheVariants as decisions;

use crate::changing::change_sessions;
use crate::decide::EventHandler;
use crate::decision::SessionChange;
use crate::server::Server;
use crate::writer::Writer;
use catalogue::effect::Effect;
use sql_types::answer::Answer;
use store::{Store, StoreFault};
use transactions::joined_changes;

impl<S: Store, X: EventHandler> Server<S, X> {
    // Adds the changes of a statement to the writer lock.
    pub(crate) fn hold(&mut self, session: u64, effect: Effect) -> Result<Answer, StoreFault>
        ensures store { self.new.store ≡ self.old.store }
        ensures running { self.new.stopped ≡ self.old.stopped }
        ensures carries { Carries X.Reads S.state self.old self.new (decisions.Hold session effect) result }
        ensures dropped { KeepsDefinitions self.old self.new }
    {
        match self.writer.take() {
            None => self.hold_first(session, effect),
            Some(writer) => self.hold_more(session, effect, writer),
        }
    }

    // Takes the writer lock with the changes of a statement.
    fn hold_first(&mut self, session: u64, effect: Effect) -> Result<Answer, StoreFault>
        ensures store { self.new.store ≡ self.old.store }
        ensures running { self.new.stopped ≡ self.old.stopped }
        ensures carries { self.old.writer ≡ None
            → Carries X.Reads S.state self.old self.new (decisions.Hold session effect) result }
        ensures dropped { KeepsDefinitions self.old self.new }
    {
        let Effect {
            answer,
            changes,
            schema,
        } = effect;
        let mut writer = Writer::new(self.alloc, session);
        match writer.add(self.alloc, &self.catalogue, changes, schema) {
            Ok(()) => {
                self.writer = Some(writer);
                Ok(answer)
            }
            Err(_) => Err(StoreFault::Memory),
        }
    }

    // Puts this writer lock back with the changes of one more statement.
    fn hold_more(
        &mut self,
        session: u64,
        effect: Effect,
        mut writer: Writer,
    ) -> Result<Answer, StoreFault>
        ensures store { self.new.store ≡ self.old.store }
        ensures running { self.new.stopped ≡ self.old.stopped }
        ensures carries { Carries X.Reads S.state (record self.old { writer = Some writer }) self.new
            (decisions.Hold session effect) result }
        ensures dropped { KeepsDefinitions self.old self.new }
    {
        let Effect {
            answer,
            changes,
            schema,
        } = effect;
        match writer.add(self.alloc, &self.catalogue, changes, schema) {
            Ok(()) => {
                writer.session = session;
                self.writer = Some(writer);
                Ok(answer)
            }
            Err(_) => {
                self.writer = Some(writer);
                Err(StoreFault::Memory)
            }
        }
    }

    // Commits what the writer lock holds, and gives the writer lock up.
    pub(crate) fn commit_writer(
        &mut self,
        answer: Answer,
        change: SessionChange,
    ) -> Result<Answer, StoreFault>
        ensures history { KeepsHistory (S.state self.old.store) (S.state self.new.store) }
        ensures running { self.new.stopped ≡ self.old.stopped }
        ensures carries { Carries X.Reads S.state self.old self.new
            (decisions.CommitWriter answer change) result }
        ensures dropped { KeepsDefinitions self.old self.new }
    {
        self.may_have_dropped = changes_definitions(&self.writer);
        match self.commit_held() {
            Ok(()) => {
                self.free_lock();
                change_sessions(&mut self.sessions, change);
                Ok(answer)
            }
            Err(fault) => Err(fault),
        }
    }

    // Commits what the writer lock holds, if there is one. The writer lock stays, with its definitions, and after a fault
    // with its changes.
    fn commit_held(&mut self) -> Result<(), StoreFault>
        ensures history { KeepsHistory (S.state self.old.store) (S.state self.new.store) }
        ensures kept { self.new ≡ record self.old { store = self.new.store; writer = self.new.writer } }
        ensures definitions { (d : Definitions)
            → definitions_under self.new.writer d ≡ definitions_under self.old.writer d }
        ensures ok { OnOk result ((writer : TheWriter) → self.old.writer ≡ Some writer
            → CommitsLists writer.lists (S.state self.old.store) (S.state self.new.store)) }
        ensures err { IfErr result (λ fault. (answer : TheAnswer) (change : TheChange)
            → Carries X.Reads S.state self.old self.new
            (decisions.CommitWriter answer change) (Err fault)) }
    {
        let Some(mut writer) = self.writer.take() else {
            return Ok(());
        };
        // For the proof: lists of changes that are joined change the same.
        joined_changes();
        let result = writer.lists.commit_to(&mut self.store);
        self.writer = Some(writer);
        result
    }

    // The changes under the writer lock are committed: its definitions are those of the database, and it is free.
    fn free_lock(&mut self)
        ensures { self.new ≡ record self.old {
          writer = None;
          catalogue = definitions_under self.old.writer self.old.catalogue;
        } }
    {
        if let Some(writer) = self.writer.take() {
            writer.end(&mut self.catalogue);
        }
    }
}

// Whether the writer lock is held, and its session has changed the definitions.
fn changes_definitions(writer: &Option<Writer>) -> bool
    ensures { result ≡ changes_definitions writer.now }
{
    match writer {
        Some(writer) => writer.catalogue.is_some(),
        None => false,
    }
}
