//! Statements whose texts were read already.

ghost use Rattle.std.specs.Prelude.{◌≡◌, Ok, true};
ghost use Rattle.sql_types.specs.declared.event.Event.TheVariants as event;
ghost use Rattle.store.specs.Store.{KeepsHistory};
ghost use Rattle.abstract_database.specs.Machine.{executes, number_in};
ghost use Rattle.abstract_database.specs.Runs.{TheText};
ghost use Rattle.server.specs.Runs.{Steps};
ghost use Rattle.server.specs.Decisions.{Attempts};

use crate::decide::{Context, EventHandler};
use crate::server::{Server, store_fault};
use sql_ast::statement::Statement;
use sql_types::answer::Answer;
use sql_types::state::SqlState;
use store::{Store, StoreFault};

impl<S: Store, X: EventHandler> Server<S, X> {
    /// Answers a statement in the session of this number of this client, as `step` answers each text
    /// that reads as it.
    pub fn step_read(&mut self, client: u32, session: u32, statement: &Statement) -> Answer
        ensures history { KeepsHistory (S.state self.old.store) (S.state self.new.store) }
        ensures stopped { self.old.stopped ≡ true
            → (result ≡ Answer.Refused SqlState.IoError) × (self.new ≡ self.old) }
        ensures running { self.new.stopped ≡ true → result ≡ Answer.Refused SqlState.IoError }
        ensures steps { (text : TheText) → X.Reads text (Ok statement.now)
            → Steps X.Reads S.state client self.old (event.Statement session text) result self.new }
    {
        if self.stopped {
            return Answer::Refused(SqlState::IoError);
        }
        let attempted = self.attempt_read(client, session, statement);
        self.answer_of(attempted)
    }

    // Decides a statement and does what was decided.
    fn attempt_read(
        &mut self,
        client: u32,
        session: u32,
        statement: &Statement,
    ) -> Result<Answer, StoreFault>
        ensures history { KeepsHistory (S.state self.old.store) (S.state self.new.store) }
        ensures running { self.new.stopped ≡ self.old.stopped }
        ensures attempts { (text : TheText) → X.Reads text (Ok statement.now)
            → Attempts X.Reads S.state self.old self.new (executes (number_in client session) text) result }
    {
        let context = Context {
            catalogue: &self.catalogue,
            writer: &self.writer,
            sessions: &self.sessions,
        };
        let decided = self.handler.decide_read(
            self.alloc,
            &mut self.store,
            context,
            client,
            session,
            statement,
        );
        match decided {
            Ok(decision) => self.apply(decision),
            Err(fault) => Err(store_fault(fault)),
        }
    }
}
