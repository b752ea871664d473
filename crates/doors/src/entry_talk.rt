//! A conversation at a place that may admit no superuser.

ghost use Rattle.std.specs.Prelude.{◌≡◌, true, IfOk};
ghost use Rattle.doors.specs.Entries.{IsEntered, is_open, wanted_with};

use sql_types::try_copy::TryCopy;
use std::alloc::{AllocError, Global};
use talks::talk::{MessageFront, Talk};
use talks::want::{Reply, SessionEntry, Want, Way};

/// A conversation of any protocol at a place that may admit no superuser. Each session that it wants at
/// such a place it wants with an entry that says so, and the machine refuses it to a superuser. All else is
/// as at another place.
#[derive(Drop)]
pub struct EntryTalk<T: Talk> {
    alloc: Global,
    no_superuser: bool,
    talk: T,
    // What is wanted with such an entry, while the conversation wants a session.
    opening: Want,
    ghost entered: { IsEntered no_superuser opening (T.wants talk) },
}

impl<T: Talk> EntryTalk<T> {
    /// A conversation at a place, which admits no superuser where `no_superuser` is set. The only error is
    /// that an allocation failed.
    pub fn new(alloc: Global, no_superuser: bool, talk: T) -> Result<EntryTalk<T>, AllocError>
    where
        T: Drop,
        ensures entry { IfOk result (λ it. it.no_superuser ≡ no_superuser) }
        ensures talk { IfOk result (λ it. it.talk ≡ talk) }
    {
        let opening = opening_for(alloc, no_superuser, talk.want())?;
        Ok(EntryTalk {
            alloc,
            no_superuser,
            talk,
            opening,
        })
    }
}

// What is wanted at such a place, where that is a session.
fn opening_for(alloc: Global, no_superuser: bool, want: &Want) -> Result<Want, AllocError>
    ensures { IfOk result (λ opening. IsEntered no_superuser opening want.now) }
{
    match want {
        Want::Open {
            session,
            login,
            entry,
        } if no_superuser => {
            let login = login.try_copy(alloc)?;
            let entry = barred_entry(alloc, entry)?;
            Ok(Want::Open {
                session: *session,
                login,
                entry,
            })
        }
        _ => Ok(Want::OutOfMemory),
    }
}

// The same entry, but that it admits no superuser.
fn barred_entry(alloc: Global, entry: &SessionEntry) -> Result<SessionEntry, AllocError>
    ensures { IfOk result (λ it. it ≡ record entry.now { no_superuser = true }) }
{
    let way = copied_way(alloc, &entry.way)?;
    let shown = entry.shown.try_copy(alloc)?;
    Ok(SessionEntry {
        way,
        no_superuser: true,
        shown,
    })
}

fn copied_way(alloc: Global, way: &Way) -> Result<Way, AllocError>
    ensures { IfOk result (λ it. it ≡ way.now) }
{
    match way {
        Way::Anyone => Ok(Way::Anyone),
        Way::Only(name) => Ok(Way::Only(name.try_copy(alloc)?)),
        Way::ByTable(place) => Ok(Way::ByTable(*place)),
    }
}

impl<T: Talk> Talk for EntryTalk<T> {
    ghost use Rattle.std.specs.Prelude.{◌≡◌};
    ghost use Rattle.doors.specs.Entries.{wanted_with};

    ghost starts = { λ t. T.starts t.talk };

    ghost wants = { λ t. wanted_with t.no_superuser (T.wants t.talk) };

    ghost front = { λ t bytes. T.front t.talk bytes };

    ghost hears = { λ t message said u. T.hears t.talk message said u.talk × (u.no_superuser ≡ t.no_superuser) };

    ghost rejects = { λ t said u. T.rejects t.talk said u.talk × (u.no_superuser ≡ t.no_superuser) };

    ghost learns = { λ t reply said u. T.learns t.talk reply said u.talk × (u.no_superuser ≡ t.no_superuser) };

    ghost comes_as = { λ t. T.comes_as t.talk };

    ghost front_more = { λ t bytes more n is. T.front_more t.talk bytes more n is };

    ghost bad_more = { λ t bytes more is. T.bad_more t.talk bytes more is };

    fn want(&self) -> &Want {
        if self.no_superuser && is_open(self.talk.want()) {
            &self.opening
        } else {
            self.talk.want()
        }
    }

    fn comes_as(&self) -> Option<&str> {
        self.talk.comes_as()
    }

    fn front(&self, bytes: &[u8]) -> MessageFront {
        self.talk.front(bytes)
    }

    fn hear(&mut self, message: &[u8], out: &mut Vec<u8>) -> Result<(), AllocError> {
        let before = out.len();
        self.talk.hear(message, out)?;
        match opening_for(self.alloc, self.no_superuser, self.talk.want()) {
            Ok(opening) => {
                self.opening = opening;
                Ok(())
            }
            Err(error) => {
                self.talk.give_up();
                out.truncate(before);
                Err(error)
            }
        }
    }

    fn reject(&mut self, out: &mut Vec<u8>) -> Result<(), AllocError> {
        let before = out.len();
        self.talk.reject(out)?;
        match opening_for(self.alloc, self.no_superuser, self.talk.want()) {
            Ok(opening) => {
                self.opening = opening;
                Ok(())
            }
            Err(error) => {
                self.talk.give_up();
                out.truncate(before);
                Err(error)
            }
        }
    }

    fn learn(&mut self, reply: Reply, out: &mut Vec<u8>) -> Result<(), AllocError> {
        let before = out.len();
        self.talk.learn(reply, out)?;
        match opening_for(self.alloc, self.no_superuser, self.talk.want()) {
            Ok(opening) => {
                self.opening = opening;
                Ok(())
            }
            Err(error) => {
                self.talk.give_up();
                out.truncate(before);
                Err(error)
            }
        }
    }

    fn give_up(&mut self) {
        self.talk.give_up();
    }
}

// Whether a session is wanted.
fn is_open(want: &Want) -> bool
    ensures { result ≡ is_open want.now }
{
    matches!(
        want,
        Want::Open {
            session: _,
            login: _,
            entry: _
        }
    )
}
