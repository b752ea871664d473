//! A machine in memory: a session for each of two clients, and a writer lock, which one of them may hold.

ghost use Rattle.std.specs.Prelude.{◌≡◌, ◌==◌, ℕ, List, Some, None, false, true};
ghost use Rattle.talks.specs.declared.want.Want.{Want as TheWant};
ghost use Rattle.talks_tests.specs.Desks.{Has, MakesStep, SeatsClient, RunsStatementText, DoesEvent, EndsSession, asks, asks_lock, begins, is_held_by, is_held_by_another, released};

use crate::echo::first_letter;
use sql_ast::description::StatementDescription;
use sql_types::answer::Answer;
use sql_types::event::Event;
use sql_types::state::SqlState;
use sql_types::tag::Tag;
use sql_types::text::Text;
use sql_types::try_copy::TryCopy;
use std::alloc::{AllocError, Global};
use talks::machine::Machine;
use talks::want::{BlockStanding, Reply, Want};

/// A session that is open.
#[derive(Drop)]
pub struct DeskSession {
    pub number: u32,
    pub login: Text,
}

/// The machine.
#[derive(Drop)]
pub struct Desk {
    pub alloc: Global,
    pub first: Option<DeskSession>,
    pub second: Option<DeskSession>,
    pub lock: Option<u32>,
    pub steps: u64,
}

impl Desk {
    /// A machine that has made no step.
    pub fn new(alloc: Global) -> Desk {
        Desk {
            alloc,
            first: None,
            second: None,
            lock: None,
            steps: 0,
        }
    }

    // The answer to a step that was made.
    fn done(&self, tag: Tag) -> Answer
        ensures { result ≡ Answer.Done tag (Some self.now.steps) None }
    {
        Answer::Done {
            tag,
            count: Some(self.steps),
            warning: None,
        }
    }

    // Opens a session, where its client has none.
    fn open(&mut self, client: u32, number: u32, login: &Text) -> Answer
        ensures { SeatsClient client number login.now result self.old self.new }
    {
        let Ok(login) = login.try_copy(self.alloc) else {
            return Answer::Refused(SqlState::OutOfMemory);
        };
        let session = DeskSession { number, login };
        if client == 0 && self.first.is_none() {
            self.first = Some(session);
            return opened();
        }
        if client == 1 && self.second.is_none() {
            self.second = Some(session);
            return opened();
        }
        Answer::Refused(SqlState::InsufficientPrivilege)
    }

    // Ends the session of a client, and tells whether there was one.
    fn end(&mut self, client: u32) -> bool
        ensures ends { result ≡ true → EndsSession client self.old self.new }
        ensures kept { result ≡ false → self.new ≡ self.old }
        ensures none { result ≡ false → (n : ℕ) (login : List ℕ) → Has self.old client n login → ⊥ }
    {
        if client == 0 && self.first.is_some() {
            self.first = None;
            self.lock = without(self.lock, client);
            return true;
        }
        if client == 1 && self.second.is_some() {
            self.second = None;
            self.lock = without(self.lock, client);
            return true;
        }
        false
    }

    // Runs a statement: 'b' takes the lock, 'm' gives it back, and others do nothing.
    fn run(&mut self, client: u32, text: &Text) -> Answer
        ensures { RunsStatementText client result self.old self.new }
    {
        let letter = first_letter(text);
        if letter == b'b' {
            if self.lock.is_none() {
                self.lock = Some(client);
                return self.done(Tag::Begin);
            }
            return Answer::Refused(SqlState::InFailedTransaction);
        }
        if letter == b'm' {
            self.lock = without(self.lock, client);
            return self.done(Tag::Commit);
        }
        self.done(Tag::Set)
    }

    // Carries out an event that opens no session.
    fn carry_out(&mut self, client: u32, event: &Event) -> Answer
        ensures { DoesEvent client event.now result self.old self.new }
    {
        match event {
            Event::Open {
                session: _,
                login: _,
            } => Answer::Refused(SqlState::InsufficientPrivilege),
            Event::Statement { session: _, text } => self.run(client, text),
            Event::Close { session: _ } => {
                if self.end(client) {
                    return self.done(Tag::Close);
                }
                Answer::Refused(SqlState::UndefinedObject)
            }
        }
    }

    // Whether another client's session holds the lock.
    fn is_held_by_another(&self, client: u32) -> bool
        ensures { result ≡ is_held_by_another self.now.lock client }
    {
        match self.lock {
            None => false,
            Some(holder) => !is_same(holder, client),
        }
    }

    // How the block of a client stands: one is open where its session holds the lock.
    fn standing(&self, client: u32) -> Option<BlockStanding> {
        if self.is_held_by(client) {
            return Some(BlockStanding::Inside);
        }
        None
    }

    // Whether this client's does.
    fn is_held_by(&self, client: u32) -> bool
        ensures { result ≡ is_held_by self.now.lock client }
    {
        match self.lock {
            None => false,
            Some(holder) => is_same(holder, client),
        }
    }
}

impl Machine for Desk {
    ghost use Rattle.std.specs.Prelude.{◌≡◌, ◌&&◌, true, false};
    ghost use Rattle.talks_tests.specs.OpeningLaws.{steps_open, ends_open, same_has};

    ghost Steps = { λ old c w r new. MakesStep c w r old new };

    ghost Tells = { λ old c w r new. new ≡ old };

    ghost Closes = { λ old c new. EndsSession c old new };

    ghost IsSound = { λ m. Unit {0} };

    ghost moment = { λ m. m.steps };

    ghost stopped = { λ m. false };

    ghost Has = { λ m c n login. Has m c n login };

    ghost IsLockedOut = { λ m c w. (asks w && is_held_by_another m.lock c) ≡ true };

    ghost IsFree = { λ m c w. (asks w && is_held_by_another m.lock c) ≡ false };

    ghost AsksForLock = { λ m c w. asks_lock m c w ≡ true };

    ghost AsksForNone = { λ m c w. asks_lock m c w ≡ false };

    ghost IsHeldBy = { λ m c. c ≡ m.lock };

    ghost MayLackMemory = { λ m c w. Unit {0} };

    ghost LacksRole = { λ m role. ⊥ };

    ghost MayHaveDropped = { λ m. ⊥ };

    ghost steps_sound = { λ old new c w r made sound. sound };

    ghost tells_sound = { λ old new c w r told sound. sound };

    ghost closes_sound = { λ old new c made sound. sound };

    ghost steps_open = { λ old new c w r d n login sound made has. steps_open old new c w r d n login made has };

    ghost tells_open = { λ old new c w r d n login sound told has. same_has old new d n login told has };

    ghost closes_open = { λ old new c d n login sound made has. ends_open old new c d n login made has };

    ghost steps_stopped = { λ old new c w r made is. is };

    ghost tells_stopped = { λ old new c w r made is. is };

    ghost closes_stopped = { λ old new c made is. is };

    ghost lacks_running = { λ m role lacks. absurd lacks };

    ghost steps_roles = { λ old new c w r role sound made lacks. absurd lacks };

    ghost closes_roles = { λ old new c role sound made lacks dropped. absurd lacks };

    fn has_stopped(&self) -> bool {
        false
    }

    fn step(&mut self, client: u32, want: &Want) -> Reply {
        self.steps = self.steps.saturating_add(1);
        let answer = match want {
            Want::Open {
                session,
                login,
                entry: _,
            } => self.open(client, *session, login),
            Want::Event(event) => self.carry_out(client, event),
            _ => Answer::Refused(SqlState::UndefinedObject),
        };
        Reply::Answer(answer)
    }

    fn ask(&mut self, client: u32, want: &Want) -> Reply {
        match want {
            Want::Description {
                session: _,
                text: _,
            } => Reply::Description(StatementDescription::NoRows),
            Want::Verifier { table: _, role: _ } => Reply::Verifier(Ok(None)),
            _ => Reply::Standing(self.standing(client)),
        }
    }

    fn refuse_for_memory(&mut self, _client: u32, _want: &Want) -> Reply {
        Reply::Answer(Answer::Refused(SqlState::OutOfMemory))
    }

    fn is_locked_out(&self, client: u32, want: &Want) -> Result<bool, AllocError> {
        Ok(asks(want) && self.is_held_by_another(client))
    }

    fn holder(&self) -> Option<u32> {
        self.lock
    }

    fn asks_for_lock(&self, _client: u32, want: &Want) -> Result<bool, AllocError> {
        Ok(asks(want) && self.lock.is_none())
    }

    fn may_have_dropped(&self) -> bool {
        false
    }

    fn lacks_role(&self, _role: &str) -> bool {
        false
    }

    fn has_lost_role(&self, _client: u32) -> bool {
        false
    }

    fn close_next(&mut self, client: u32) -> bool {
        self.end(client)
    }
}

// The answer to a step that opened a session, which has no count.
fn opened() -> Answer
    ensures { result ≡ Answer.Done Tag.Open None None }
{
    Answer::Done {
        tag: Tag::Open,
        count: None,
        warning: None,
    }
}

fn is_same(a: u32, b: u32) -> bool
    ensures { result ≡ (a == b) }
{
    a == b
}

// Whether a statement asks for the lock.
fn asks(want: &Want) -> bool
    ensures { result ≡ asks want.now }
{
    match want {
        Want::Event(event) => begins(event),
        _ => false,
    }
}

fn begins(event: &Event) -> bool
    ensures { result ≡ begins event.now }
{
    match event {
        Event::Statement { session: _, text } => first_letter(text) == b'b',
        _ => false,
    }
}

// A lock that this client does not hold.
fn without(lock: Option<u32>, client: u32) -> Option<u32>
    ensures { result ≡ released client lock }
{
    match lock {
        None => None,
        Some(holder) => {
            if is_same(holder, client) {
                return None;
            }
            Some(holder)
        }
    }
}
