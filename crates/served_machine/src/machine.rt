//! A server, asked by many clients.

ghost use Rattle.std.specs.Prelude.{◌≡◌, Option, Some, None, IfOk, OnErr, true, false};
ghost use Rattle.abstract_database.specs.Runs.{At};
ghost use Rattle.server.specs.Standing.{Represents};
ghost use Rattle.served_machine.specs.Entries.{is_way_of, admits};
ghost use Rattle.served_machine.specs.Served.{OpensFor, IsLetIn, IsStandingOf};
ghost use Rattle.served_machine.specs.Locks.{is_held_by_another};

use crate::entry::is_way_of;
use server::decide::EventHandler;
use server::server::Server;
use server::session::BlockState;
use sql_types::answer::Answer;
use sql_types::event::Event;
use sql_types::state::SqlState;
use sql_types::text::Text;
use sql_types::try_copy::TryCopy;
use std::alloc::{AllocError, Global};
use store::Store;
use talks::machine::Machine;
use talks::want::{BlockStanding, Reply, SessionEntry, Want};

/// A server as what answers many conversations.
#[derive(Drop)]
pub struct ServedMachine<S, X> {
    server: Server<S, X>,
    alloc: Global,
}

impl<S: Store, X: EventHandler> ServedMachine<S, X> {
    /// A machine that is this server.
    pub fn new(alloc: Global, server: Server<S, X>) -> ServedMachine<S, X>
        ensures { result.server ≡ server }
    {
        ServedMachine { server, alloc }
    }

    /// The server, lent.
    pub fn server(&self) -> &Server<S, X>
        ensures { result.now ≡ self.now.server }
    {
        &self.server
    }

    /// The server alone.
    pub fn into_server(self) -> Server<S, X>
        ensures { result ≡ self.server }
    {
        let ServedMachine { server, alloc: _ } = self;
        server
    }

    // Whether a session may be opened for the role of this name, so asked for. The only error is that an
    // allocation failed, where it was looked what the role may become: its way of entry is for it.
    fn admits(&self, login: &Text, entry: &SessionEntry) -> Result<bool, AllocError>
        ensures ok { self.now.server.stopped ≡ false → (w : At) → Represents S.state self.now.server w
            → IfOk result (λ admits_it. admits_it ≡ admits w.standing.machine.committed entry.now login.now) }
        ensures err { OnErr result (is_way_of entry.now.way login.now ≡ true) }
    {
        if !is_way_of(&entry.way, login.as_str()) {
            return Ok(false);
        }
        if !entry.no_superuser {
            return Ok(true);
        }
        let may_become = self.server.may_become_superuser(login.as_str())?;
        Ok(!may_become)
    }

    // Opens a session of a client, if it is admitted, so asked for.
    fn open(&mut self, client: u32, session: u32, login: &Text, entry: &SessionEntry) -> Answer
        ensures { OpensFor X.Reads S.state client session login.now entry.now result self.old.server self.new.server }
    {
        if self.server.has_stopped() {
            return Answer::Refused(SqlState::IoError);
        }
        match self.admits(login, entry) {
            Ok(true) => self.open_admitted(client, session, login, entry),
            Ok(false) => Answer::Refused(SqlState::InvalidAuthorization),
            Err(_) => Answer::Refused(SqlState::OutOfMemory),
        }
    }

    // Opens a session of a client whom the place admits.
    fn open_admitted(
        &mut self,
        client: u32,
        session: u32,
        login: &Text,
        entry: &SessionEntry,
    ) -> Answer
        requires running { self.old.server.stopped ≡ false }
        requires admitted { IsLetIn S.state self.old.server entry.now login.now }
        ensures { OpensFor X.Reads S.state client session login.now entry.now result self.old.server self.new.server }
    {
        match login.try_copy(self.alloc) {
            Ok(login) => self.server.step(client, &Event::Open { session, login }),
            Err(_) => Answer::Refused(SqlState::OutOfMemory),
        }
    }

    // How the block of a client's session stands, or `None` where it is not open.
    fn standing(&self, client: u32, session: u32) -> Option<BlockStanding>
        ensures { IsStandingOf S.state client session result self.now.server }
    {
        match self.server.block_state(client, session)? {
            BlockState::Outside => Some(BlockStanding::Outside),
            BlockState::Inside => Some(BlockStanding::Inside),
            BlockState::Failed => Some(BlockStanding::Failed),
        }
    }

    // Whether a session of another client holds the writer lock.
    fn is_held_by_another(&self, client: u32) -> bool
        ensures running { self.now.server.stopped ≡ false → (w : At) → Represents S.state self.now.server w
            → result ≡ is_held_by_another client w.standing.machine.holder }
        ensures stopped { self.now.server.stopped ≡ true → result ≡ false }
    {
        match self.server.holder() {
            Some(holder) => holder.client != client,
            None => false,
        }
    }
}

impl<S: Store, X: EventHandler> Machine for ServedMachine<S, X> {
    ghost use Rattle.served_machine.specs.Sessions.{HasOwnSession, IsSoundServer};
    ghost use Rattle.served_machine.specs.Served.{TakesStep, TellsClient, ClosesOne};
    ghost use Rattle.served_machine.specs.Locks.{LocksOut, LetsIn, TakesLock, LeavesLock, IsHolder, MayLackMemory};
    ghost use Rattle.std.specs.Prelude.{◌≡◌, true};
    ghost use Rattle.server.specs.Dropped.{lacks_role};
    ghost use Rattle.served_machine.specs.RoleLaws.{lacks_running, steps_roles, closes_roles};
    ghost use Rattle.served_machine.specs.ServedLaws.{steps_sound, tells_sound, closes_sound, steps_open, tells_open, closes_open, steps_stopped, tells_stopped, closes_stopped};

    ghost Steps = { λ old c w r new. TakesStep X.Reads S.state c w r old.server new.server };

    ghost Tells = { λ old c w r new. TellsClient X.Reads S.state c w r old.server new.server };

    ghost Closes = { λ old c new. ClosesOne X.Reads S.state c old.server new.server };

    ghost IsSound = { λ m. IsSoundServer S.state m.server };

    ghost moment = { λ m. (S.state m.server.store).time.moment };

    ghost stopped = { λ m. m.server.stopped };

    ghost Has = { λ m c n login. HasOwnSession S.state m.server c n login };

    ghost IsLockedOut = { λ m c w. LocksOut X.Reads S.state m.server c w };

    ghost IsFree = { λ m c w. LetsIn X.Reads S.state m.server c w };

    ghost AsksForLock = { λ m c w. TakesLock X.Reads S.state m.server c w };

    ghost AsksForNone = { λ m c w. LeavesLock X.Reads S.state m.server c w };

    ghost IsHeldBy = { λ m c. IsHolder S.state m.server c };

    ghost MayLackMemory = { λ m c w. MayLackMemory S.state m.server c w };

    ghost LacksRole = { λ m role. lacks_role m.server role ≡ true };

    ghost MayHaveDropped = { λ m. m.server.may_have_dropped ≡ true };

    ghost steps_sound = { λ old new c w r made sound. steps_sound X.Reads S.state old.server new.server c w r made sound };

    ghost tells_sound = { λ old new c w r told sound. tells_sound X.Reads S.state old.server new.server c w r told sound };

    ghost closes_sound = { λ old new c made sound. closes_sound X.Reads S.state old.server new.server c made sound };

    ghost steps_open = { λ old new c w r d n login sound made has. steps_open X.Reads S.state old.server new.server c w r d n login sound made has };

    ghost tells_open = { λ old new c w r d n login sound told has. tells_open X.Reads S.state old.server new.server c w r d n login sound told has };

    ghost closes_open = { λ old new c d n login sound made has. closes_open X.Reads S.state old.server new.server c d n login sound made has };

    ghost steps_stopped = { λ old new c w r made is. steps_stopped X.Reads S.state old.server new.server c w r made is };

    ghost tells_stopped = { λ old new c w r told is. tells_stopped X.Reads S.state old.server new.server c w r told is };

    ghost closes_stopped = { λ old new c made is. closes_stopped X.Reads S.state old.server new.server c made is };

    ghost lacks_running = { λ m role lacks. lacks_running S.state m.server role lacks };

    ghost steps_roles = { λ old new c w r role sound made lacks. steps_roles X.Reads S.state old.server new.server role c w r made lacks };

    ghost closes_roles = { λ old new c role sound made lacks told. closes_roles X.Reads S.state old.server new.server role c sound made lacks told };

    fn has_stopped(&self) -> bool {
        self.server.has_stopped()
    }

    fn step(&mut self, client: u32, want: &Want) -> Reply {
        match want {
            Want::Event(event) => Reply::Answer(self.server.step(client, event)),
            Want::Open {
                session,
                login,
                entry,
            } => Reply::Answer(self.open(client, *session, login, entry)),
            _ => unreachable!(),
        }
    }

    fn ask(&mut self, client: u32, want: &Want) -> Reply {
        match want {
            Want::Standing { session } => Reply::Standing(self.standing(client, *session)),
            Want::Description { session, text } => {
                Reply::Description(self.server.describe(client, *session, text.as_str()))
            }
            Want::Verifier { table, role } => Reply::Verifier(self.server.verifier_of(table, role)),
            _ => unreachable!(),
        }
    }

    fn refuse_for_memory(&mut self, _client: u32, _want: &Want) -> Reply {
        Reply::Answer(Answer::Refused(SqlState::OutOfMemory))
    }

    fn is_locked_out(&self, client: u32, want: &Want) -> Result<bool, AllocError> {
        match want {
            Want::Event(event) if self.is_held_by_another(client) => {
                self.server.is_locked_out(client, event)
            }
            _ => Ok(false),
        }
    }

    fn holder(&self) -> Option<u32> {
        match self.server.holder() {
            Some(holder) => Some(holder.client),
            None => None,
        }
    }

    fn asks_for_lock(&self, client: u32, want: &Want) -> Result<bool, AllocError> {
        match want {
            Want::Event(event) => self.server.asks_for_lock(client, event),
            _ => Ok(false),
        }
    }

    fn may_have_dropped(&self) -> bool {
        self.server.may_have_dropped()
    }

    fn lacks_role(&self, role: &str) -> bool {
        self.server.lacks_role(role)
    }

    fn has_lost_role(&self, client: u32) -> bool {
        self.server.has_lost_role(client)
    }

    fn close_next(&mut self, client: u32) -> bool {
        self.server.close_next(client)
    }
}
