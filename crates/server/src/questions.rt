//! What a server tells of itself, and the end of a client's sessions.

ghost use Rattle.std.specs.Prelude.{◌≡◌, ◌==◌, ◌&&◌, find, Option, None, Ok, IfOk, true, false};
ghost use Rattle.sql_types.specs.declared.state.SqlState.TheVariants.{IoError};
ghost use Rattle.sql_ast.specs.declared.description.StatementDescription.TheVariants.{Refused};
ghost use Rattle.std.specs.List.{list_any};
ghost use Rattle.std.specs.Option.{option_copied, option_map};
ghost use Rattle.store.specs.Store.{KeepsHistory};
ghost use Rattle.abstract_database.specs.Lists.{has_name};
ghost use Rattle.abstract_database.specs.Database.{is_role_named};
ghost use Rattle.abstract_database.specs.Descriptions.{IsDescription};
ghost use Rattle.abstract_database.specs.Machine.{client_of, number_in, session_of};
ghost use Rattle.abstract_database.specs.Roles.{is_superuser as is_superuser_of};
ghost use Rattle.abstract_database.specs.Runs.{At};
ghost use Rattle.server.specs.Clients.{client_session, HasNoneOpen, ClosesNext};
ghost use Rattle.server.specs.Dropped.{lacks_role, has_lost_role};
ghost use Rattle.server.specs.LockedOut.{TellsLockedOut, TellsAsking};
ghost use Rattle.server.specs.Session.{block_state};
ghost use Rattle.server.specs.Superusers.{may_become_superuser};
ghost use Rattle.server.specs.Standing.{Represents, event_of};

use crate::decide::{Context, EventHandler};
use crate::numbers::{ClientSession, client_session, number_in};
use crate::server::Server;
use crate::session::{BlockState, Session};
use role_membership::{RoleSet, closure};
use sql_ast::description::StatementDescription;
use sql_ast::role::Role;
use sql_types::event::Event;
use sql_types::state::SqlState;
use std::alloc::AllocError;
use store::Store;

impl<S: Store, X: EventHandler> Server<S, X> {
    /// Whether a client's session is in a block, or `None` where it is not open.
    pub fn block_state(&self, client: u32, session: u32) -> Option<BlockState>
        ensures { (w : At) → Represents S.state self.now w
            → result ≡ option_map (λ s. block_state s.block)
            (session_of (number_in client session) w.standing.machine.sessions) }
    {
        let session = self.sessions.get(&number_in(client, session))?;
        Some(session.block_state())
    }

    /// The session that holds the writer lock, or `None` where none does or the server has stopped.
    pub fn holder(&self) -> Option<ClientSession>
        ensures stopped { self.now.stopped ≡ true → result ≡ None }
        ensures running { self.now.stopped ≡ false → (w : At) → Represents S.state self.now w
            → result ≡ option_map (λ h. client_session h.session) w.standing.machine.holder }
    {
        if self.stopped {
            return None;
        }
        match &self.writer {
            Some(writer) => Some(client_session(writer.session)),
            None => None,
        }
    }

    /// Whether an event of this client is a statement that `step` would refuse with
    /// `LockNotAvailable` since another session holds the writer lock: it would if it finds memory
    /// and its store's device does not fail. The only error is that an allocation failed. It comes
    /// only for a statement in an open session while another session holds the writer lock.
    pub fn is_locked_out(&self, client: u32, event: &Event) -> Result<bool, AllocError>
        ensures stopped { self.now.stopped ≡ true → result ≡ Ok false }
        ensures tells { (w : At) → Represents S.state self.now w
            → TellsLockedOut X.Reads w.standing.machine (event_of client event.now) result }
    {
        if self.stopped {
            return Ok(false);
        }
        let context = Context {
            catalogue: &self.catalogue,
            writer: &self.writer,
            sessions: &self.sessions,
        };
        self.handler
            .is_locked_out(self.alloc, context, client, event)
    }

    /// Whether an event of this client asks for the writer lock, which nobody holds: it is a statement
    /// that changes the database, and its session may execute it. The only error is that an allocation
    /// failed. It comes only for a statement in an open session while nobody holds the writer lock.
    pub fn asks_for_lock(&self, client: u32, event: &Event) -> Result<bool, AllocError>
        ensures stopped { self.now.stopped ≡ true → result ≡ Ok false }
        ensures tells { (w : At) → Represents S.state self.now w
            → TellsAsking X.Reads w.standing.machine (event_of client event.now) result }
    {
        if self.stopped {
            return Ok(false);
        }
        let context = Context {
            catalogue: &self.catalogue,
            writer: &self.writer,
            sessions: &self.sessions,
        };
        self.handler
            .asks_for_lock(self.alloc, context, client, event)
    }

    /// What the statement of this text would answer in a client's session, as far as that depends on
    /// no row. Nothing changes.
    ///
    /// It is `Refused(OutOfMemory)` where an allocation failed, and else `Refused(IoError)` where the
    /// server has stopped, `Refused(ConnectionDoesNotExist)` where the session is not open, and the
    /// refusal of a text that is no statement. A statement over rows is checked as it is before a row
    /// is read, and its refusal told; no other statement is.
    pub fn describe(&self, client: u32, session: u32, text: &str) -> StatementDescription
        ensures stopped { self.now.stopped ≡ true → result ≡ Refused IoError }
        ensures tells { (w : At) → Represents S.state self.now w
            → IsDescription X.Reads w.standing.machine (number_in client session) text.now result }
    {
        if self.stopped {
            return StatementDescription::Refused(SqlState::IoError);
        }
        let context = Context {
            catalogue: &self.catalogue,
            writer: &self.writer,
            sessions: &self.sessions,
        };
        self.handler
            .describe(self.alloc, context, client, session, text)
    }

    /// Whether the role of this name is a superuser in the committed database. It looks at each role.
    pub fn is_superuser(&self, role: &str) -> bool
        ensures { self.now.stopped ≡ false → (w : At) → Represents S.state self.now w
            → result ≡ is_superuser_of w.standing.machine.committed role.now }
    {
        has_superuser(self.catalogue.roles(), role)
    }

    /// Whether one who logs in as the role of this name may become a superuser by SET ROLE: whether some role
    /// that it may set, itself included, is a superuser in the committed database. `false` where there is no
    /// such role. What is granted to it later is not looked at. The only error is that an allocation failed.
    pub fn may_become_superuser(&self, login: &str) -> Result<bool, AllocError>
        ensures { self.now.stopped ≡ false → (w : At) → Represents S.state self.now w
            → IfOk result (λ may. may ≡ may_become_superuser w.standing.machine.committed login.now) }
    {
        let Some(role) = role_named(self.catalogue.roles(), login) else {
            return Ok(false);
        };
        if self.is_superuser(login) {
            return Ok(true);
        }
        let reached = closure(self.alloc, self.catalogue.memberships(), &role.name)?;
        Ok(has_superuser_in(self.catalogue.roles(), &reached))
    }

    /// Whether the last step may have changed the definitions of the committed database, as one that
    /// dropped a role has: it did, or it failed while it did. A step that changes rows alone has not, and
    /// neither has the end of a session.
    pub fn may_have_dropped(&self) -> bool
        ensures { result ≡ self.now.may_have_dropped }
    {
        self.may_have_dropped
    }

    /// Whether the committed database has no role of this name. A server that has stopped lacks none.
    pub fn lacks_role(&self, role: &str) -> bool
        ensures { result ≡ lacks_role self.now role.now }
    {
        !self.stopped && !is_one_named(self.catalogue.roles(), role)
    }

    /// Whether a session of this client is open for a role that the committed database has no more. It
    /// looks at every open session. In a server that has stopped there is none.
    pub fn has_lost_role(&self, client: u32) -> bool
        ensures { result ≡ has_lost_role self.now client }
    {
        for place in 0..self.sessions.len() {
            if let Some((number, session)) = self.sessions.get_index(place) {
                if self.is_lost(client, *number, session) {
                    return true;
                }
            }
        }
        false
    }

    // Whether the session of this number is one of this client's, for a role that is one no more.
    fn is_lost(&self, client: u32, number: u64, session: &Session) -> bool
        ensures { result ≡ ((client_of number == client) && lacks_role self.now session.now.login) }
    {
        client_session(number).client == client
            && !self.stopped
            && !self.catalogue.has_role(&session.login)
    }

    /// Closes the first session that this client has open, in the order of opening, and tells whether
    /// it did. `false` only where the client has none open, or the server has stopped, which closes
    /// none.
    pub fn close_next(&mut self, client: u32) -> bool
        ensures history { KeepsHistory (S.state self.old.store) (S.state self.new.store) }
        ensures closed { result ≡ true → ClosesNext X.Reads S.state client self.old self.new }
        ensures kept { result ≡ false → self.new ≡ self.old }
        ensures none { result ≡ false → self.old.stopped ≡ false
            → HasNoneOpen S.state client self.old }
    {
        if self.stopped {
            return false;
        }
        let Some(session) = self.session_at(client, 0) else {
            return false;
        };
        let may_have_dropped = self.may_have_dropped;
        // Nobody is there to hear it.
        let _answer = self.step(client, &Event::Close { session });
        self.may_have_dropped = may_have_dropped;
        true
    }
}

// Whether a role of this name among these is a superuser.
fn has_superuser(roles: &[Role], name: &str) -> bool
    ensures { result ≡ list_any (λ role. is_role_named name.now role && role.attributes.superuser)
        roles.now }
{
    roles.iter().any(|role| role.name.as_str() == name && role.attributes.superuser)
}

// Whether a superuser among these roles is one of a set.
fn has_superuser_in(roles: &[Role], set: &RoleSet<'_>) -> bool
    ensures { result ≡ list_any (λ role. role.attributes.superuser && has_name role.name set.now)
        roles.now }
{
    roles.iter().any(|role| role.attributes.superuser && set.contains(&role.name))
}

// The first role of this name among these, lent, or `None` where there is none.
fn role_named<'a>(roles: &'a [Role], name: &str) -> Option<&'a Role>
    ensures { option_copied result ≡ find (is_role_named name.now) roles.now }
{
    roles.iter().find(|role| role.name.as_str() == name)
}

// Whether one of these roles has this name.
fn is_one_named(roles: &[Role], name: &str) -> bool
    ensures { result ≡ list_any (is_role_named name.now) roles.now }
{
    roles.iter().any(|role| role.name.as_str() == name)
}
