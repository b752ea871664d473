//! The conversations with the clients of several places, each by the words of its place.

ghost use Rattle.std.specs.Prelude.{◌≡◌, IfOk};
ghost use Rattle.cli.specs.SeveralTalks.{StandsAt, asks_there};

use crate::client_talks::{
    FrameTalks, FramedTalk, PostgresTalks, Speaker, asking_place, crowded_in, door_for, drawn_by,
};
use crate::served_place::{NamedPlace, PlaceDoor, Protocol, ServedPlace};
use doors::door_talk::DoorTalk;
use doors::entry_talk::EntryTalk;
use password_talks::login::Login;
use password_talks::password_talk::PasswordTalk;
use placed_talks::placed_talk::PlacedTalk;
use polled_clients::clients::TalkMaker;
use postgres_logins::login::SaslLogin;
use postgres_logins::postgres_login_talk::PostgresLoginTalk;
use postgres_talks::postgres_talk::PostgresTalk;
use std::alloc::{AllocError, Global};
use std::time::Duration;
use systems::Draw;
use talks::talk::Talk;

/// A conversation at one of several places.
pub type SomeTalk = PlacedTalk<
    DoorTalk<FramedTalk>,
    DoorTalk<PostgresTalk>,
    PasswordTalk<FramedTalk>,
    PostgresLoginTalk<PostgresTalk>,
>;

/// For how many seconds one may be there at a place that asks for a password, before it has shown one.
const LOGIN_SECONDS: u64 = 10;

/// For how many clients of other places room is kept, where some places ask for passwords; of a few clients for half
/// as many.
const KEPT: u32 = 8;

/// The conversations at several places, one for each client that comes: by the protocol of its place, at the door of
/// its place.
#[derive(Drop)]
pub struct SeveralTalks<'a, D> {
    alloc: Global,
    places: Vec<NamedPlace<'a>>,
    frames: FrameTalks,
    postgres: PostgresTalks,
    draw: D,
}

impl<'a, D> SeveralTalks<'a, D> {
    /// Nobody has come to these places.
    pub(crate) fn new(alloc: Global, places: Vec<NamedPlace<'a>>, draw: D) -> SeveralTalks<'a, D>
        ensures { result.places ≡ places.entry }
    {
        SeveralTalks {
            alloc,
            places,
            frames: FrameTalks::new(alloc, true),
            postgres: PostgresTalks::new(alloc),
            draw,
        }
    }
}

impl<D: Draw> SeveralTalks<'_, D> {
    // A conversation at a place. An error: an allocation failed, or no bytes are drawn.
    fn talk_at(&self, served: ServedPlace<'_>) -> Result<SomeTalk, AllocError>
        ensures starts { IfOk result (λ talk. ⟦<SomeTalk as Talk>⟧.starts talk) }
        ensures stands { IfOk result (StandsAt (D.draws self.now.draw) served.entry) }
    {
        match served.door {
            PlaceDoor::Anyone | PlaceDoor::Only(_) => {
                let door = door_for(self.alloc, served.door)?;
                match served.protocol {
                    Protocol::Frames => {
                        let talk = self.frames.make(0)?;
                        Ok(PlacedTalk::Frames(DoorTalk::new(door, talk)))
                    }
                    Protocol::Postgres => {
                        let talk = self.postgres.make(0)?;
                        Ok(PlacedTalk::Postgres(DoorTalk::new(door, talk)))
                    }
                }
            }
            PlaceDoor::Passwords { table, mock } => {
                let drawn = drawn_by(&self.draw)?;
                let place = asking_place(self.alloc, table, mock)?;
                match served.protocol {
                    Protocol::Frames => {
                        let login = Login::new(self.alloc, place, drawn);
                        let talk = self.frames.make(0)?;
                        Ok(PlacedTalk::FramesWithPassword(PasswordTalk::new(login, talk)))
                    }
                    Protocol::Postgres => {
                        let login = SaslLogin::new(self.alloc, place, drawn);
                        let talk = self.postgres.make(0)?;
                        Ok(PlacedTalk::PostgresWithPassword(PostgresLoginTalk::new(login, talk)))
                    }
                }
            }
        }
    }
}

impl<D: Draw> TalkMaker<EntryTalk<SomeTalk>> for SeveralTalks<'_, D> {
    ghost use Rattle.cli.specs.SeveralTalks.{StandsAtOne, StandsAtPlace, asks_at};

    ghost makes_at = { λ maker place talk. StandsAtPlace (D.draws maker.draw) maker.places.items place talk };

    ghost makes = { λ maker talk. StandsAtOne (D.draws maker.draw) maker.places.items talk };

    ghost has_strangers = { λ maker place. asks_at maker.places.items place };

    ghost made_at = { λ maker place talk is. (place, is) };

    // Nobody is let in at a place that is none.
    fn make(&self, place: usize) -> Result<EntryTalk<SomeTalk>, AllocError> {
        let Some(named) = self.places.get(place) else {
            return Err(AllocError);
        };
        let talk = self.talk_at(named.served)?;
        EntryTalk::new(self.alloc, named.no_superuser, talk)
    }

    fn has_strangers(&self, place: usize) -> bool {
        match self.places.get(place) {
            Some(named) => asks_there(named.served.door),
            None => false,
        }
    }
}

// Whether a place asks for a password.
fn asks_there(door: PlaceDoor<'_>) -> bool
    ensures { result ≡ asks_there door.entry }
{
    match door {
        PlaceDoor::Anyone | PlaceDoor::Only(_) => false,
        PlaceDoor::Passwords { table: _, mock: _ } => true,
    }
}

impl<D> SeveralTalks<'_, D> {
    // Whether one of the places asks for a password, and one does not.
    fn is_mixed(&self) -> bool {
        let mut some_ask = false;
        let mut some_do_not = false;
        for index in 0..self.places.len() {
            if asks_there(self.places[index].served.door) {
                some_ask = true;
            } else {
                some_do_not = true;
            }
        }
        some_ask && some_do_not
    }
}

impl<D> Speaker for SeveralTalks<'_, D> {
    ghost use Rattle.cli.specs.SeveralTalks.{protocols_of};

    ghost protocols = { λ maker. protocols_of maker.places.items };

    fn crowded_refusals(&self, alloc: Global) -> Result<Vec<Vec<u8>>, AllocError> {
        let mut all = Vec::new(alloc);
        let mut rest = self.places.as_slice();
        while let [named, after @ ..] = rest {
            all.push(crowded_in(alloc, named.served.protocol)?)?;
            rest = after;
        }
        Ok(all)
    }

    fn login_limit(&self) -> Option<Duration> {
        Some(Duration::from_secs(LOGIN_SECONDS))
    }

    // Whoever comes to the places that ask for passwords, the others have room for eight, or for half of
    // all where these are fewer.
    fn guests(&self, at_once: u32) -> u32 {
        if self.is_mixed() {
            at_once.saturating_sub(KEPT.min(at_once / 2))
        } else {
            at_once
        }
    }
}
