//! The conversations with the clients of a place, by its protocol.

ghost use Rattle.std.specs.Prelude.{◌≡◌, List, [], ◌∷◌, IfOk};
ghost use Rattle.cli.specs.declared.served_place.Protocol.{Protocol};
ghost use Rattle.cli.specs.declared.served_place.Protocol.TheVariants.{Frames, Postgres};
ghost use Rattle.cli.specs.ServingClients.{IsDoorFor, crowded_said, password_place};
ghost use Rattle.cli.specs.SeveralTalks.{AreCrowdedSaid};

use crate::served_place::{PlaceDoor, Protocol};
use doors::door::Door;
use doors::door_talk::DoorTalk;
use frame_talks::frame_talk::FrameTalk;
use frame_talks::said::say_answer;
use heading_talks::heading_talk::HeadingTalk;
use password_talks::login::{Login, PasswordPlace};
use password_talks::password_talk::PasswordTalk;
use polled_clients::clients::TalkMaker;
use postgres_logins::login::SaslLogin;
use postgres_logins::postgres_login_talk::PostgresLoginTalk;
use postgres_messages::backend::{BackendMessage, Report, Severity};
use postgres_messages::message_writer::MessageWriter;
use postgres_talks::postgres_talk::PostgresTalk;
use sql_types::answer::Answer;
use sql_types::name::Name;
use sql_types::state::SqlState;
use sql_types::text::Text;
use std::alloc::{AllocError, Global};
use std::cell::Cell;
use std::time::Duration;
use systems::Draw;
use talks::talk::Talk;

/// What speaks by one protocol to whoever comes to a place.
pub trait Speaker {
    /// Which protocol that is, at the place of each number.
    ghost protocols: { Self → List Protocol };

    /// What one is told who comes to the place of each number while as many are served as may be. An error:
    /// an allocation failed.
    fn crowded_refusals(&self, alloc: Global) -> Result<Vec<Vec<u8>>, AllocError>
        ensures { IfOk result (λ said. AreCrowdedSaid (protocols self.now) said.items) };

    /// How long one may be there at a place that asks for a password, before a session is opened for it.
    /// `None`: for ever.
    fn login_limit(&self) -> Option<Duration>;

    /// How many of so many clients may be at places that ask for a password, at most.
    fn guests(&self, at_once: u32) -> u32;
}

/// What one is told by a protocol who comes while as many are served as may be. An error: an allocation
/// failed.
pub(crate) fn crowded_in(alloc: Global, protocol: Protocol) -> Result<Vec<u8>, AllocError>
    ensures { IfOk result (λ said. said.items ≡ crowded_said protocol) }
{
    match protocol {
        Protocol::Frames => crowded_in_frames(alloc),
        Protocol::Postgres => crowded_by_postgres(alloc),
    }
}

fn crowded_in_frames(alloc: Global) -> Result<Vec<u8>, AllocError>
    ensures { IfOk result (λ said. said.items ≡ crowded_said Protocol.Frames) }
{
    let mut said = Vec::new(alloc);
    let answer = Answer::Refused(SqlState::TooManyConnections);
    say_answer(alloc, 0, &answer, &mut said)?;
    Ok(said)
}

fn crowded_by_postgres(alloc: Global) -> Result<Vec<u8>, AllocError>
    ensures { IfOk result (λ said. said.items ≡ crowded_said Protocol.Postgres) }
{
    let mut said = Vec::new(alloc);
    let report = Report {
        severity: Severity::Fatal,
        code: SqlState::TooManyConnections.code(),
        message: "sorry, too many clients already",
        position: None,
    };
    let message = BackendMessage::ErrorResponse(report);
    match MessageWriter::new(alloc).put(&message, &mut said) {
        Ok(()) => Ok(said),
        Err(_) => Err(AllocError),
    }
}

// The same for the one place of a server.
fn crowded_alone(alloc: Global, protocol: Protocol) -> Result<Vec<Vec<u8>>, AllocError>
    ensures { IfOk result (λ said. AreCrowdedSaid (protocol ∷ []) said.items) }
{
    let mut all = Vec::new(alloc);
    all.push(crowded_in(alloc, protocol)?)?;
    Ok(all)
}

/// For how many seconds one may be there at a place that asks for a password, before it has shown one.
const LOGIN_SECONDS: u64 = 10;

/// A conversation in frames, whose client may ask what a statement would answer where its place takes that.
pub type FramedTalk = HeadingTalk<FrameTalk>;

/// Conversations of frames, one for each client that comes.
#[derive(Drop)]
pub struct FrameTalks {
    alloc: Global,
    may_ask: bool,
}

impl FrameTalks {
    /// Nobody has come. `may_ask`: whether a client may ask what a statement would answer.
    pub fn new(alloc: Global, may_ask: bool) -> FrameTalks
        ensures { result.may_ask ≡ may_ask }
    {
        FrameTalks { alloc, may_ask }
    }
}

impl TalkMaker<FramedTalk> for FrameTalks {
    ghost use Rattle.std.specs.Prelude.{◌≡◌, false};

    ghost makes_at = { λ maker place talk. talk.may_ask ≡ maker.may_ask };

    ghost makes = { λ maker talk. talk.may_ask ≡ maker.may_ask };

    ghost has_strangers = { λ maker place. false };

    ghost made_at = { λ maker place talk is. is };

    fn make(&self, _place: usize) -> Result<FramedTalk, AllocError> {
        let talk = FrameTalk::new(self.alloc);
        Ok(HeadingTalk::new(self.alloc, self.may_ask, talk))
    }

    fn has_strangers(&self, _place: usize) -> bool {
        false
    }
}

impl Speaker for FrameTalks {
    ghost use Rattle.std.specs.Prelude.{[], ◌∷◌};

    ghost protocols = { λ speaker. Frames ∷ [] };

    fn crowded_refusals(&self, alloc: Global) -> Result<Vec<Vec<u8>>, AllocError> {
        crowded_alone(alloc, Protocol::Frames)
    }

    fn login_limit(&self) -> Option<Duration> {
        None
    }

    fn guests(&self, at_once: u32) -> u32 {
        at_once
    }
}

/// Conversations of PostgreSQL's protocol, one for each client that comes. Each client is told a number
/// of its own, counted from 1, as that of its process.
#[derive(Drop)]
pub struct PostgresTalks {
    alloc: Global,
    made: Cell<u32>,
}

impl PostgresTalks {
    /// Nobody has come.
    pub fn new(alloc: Global) -> PostgresTalks {
        PostgresTalks {
            alloc,
            made: Cell::new(0),
        }
    }
}

impl TalkMaker<PostgresTalk> for PostgresTalks {
    ghost use Rattle.std.specs.Prelude.{false};

    ghost makes_at = { λ maker place talk. Unit {0} };

    ghost makes = { λ maker talk. Unit {0} };

    ghost has_strangers = { λ maker place. false };

    ghost made_at = { λ maker place talk is. is };

    fn make(&self, _place: usize) -> Result<PostgresTalk, AllocError> {
        let process = self.made.get().wrapping_add(1);
        self.made.set(process);
        Ok(PostgresTalk::new(self.alloc, process))
    }

    fn has_strangers(&self, _place: usize) -> bool {
        false
    }
}

impl Speaker for PostgresTalks {
    ghost use Rattle.std.specs.Prelude.{[], ◌∷◌};

    ghost protocols = { λ speaker. Postgres ∷ [] };

    fn crowded_refusals(&self, alloc: Global) -> Result<Vec<Vec<u8>>, AllocError> {
        crowded_alone(alloc, Protocol::Postgres)
    }

    fn login_limit(&self) -> Option<Duration> {
        None
    }

    fn guests(&self, at_once: u32) -> u32 {
        at_once
    }
}

/// The conversations of a maker at the door of a place, one for each client that comes.
#[derive(Drop)]
pub struct DoorTalks<'a, F> {
    alloc: Global,
    door: PlaceDoor<'a>,
    speaker: F,
}

impl<'a, F> DoorTalks<'a, F> {
    /// Nobody has come to this door.
    pub(crate) fn new(alloc: Global, door: PlaceDoor<'a>, speaker: F) -> DoorTalks<'a, F>
        ensures { result.door ≡ door.entry }
    {
        DoorTalks {
            alloc,
            door,
            speaker,
        }
    }
}

impl<'a, T: Talk, F: TalkMaker<T>> TalkMaker<DoorTalk<T>> for DoorTalks<'a, F> {
    ghost use Rattle.std.specs.Prelude.{false};

    ghost makes_at = { λ maker place talk. IsDoorFor maker.door talk.door };

    ghost makes = { λ maker talk. IsDoorFor maker.door talk.door };

    ghost has_strangers = { λ maker place. false };

    ghost made_at = { λ maker place talk is. is };

    fn make(&self, place: usize) -> Result<DoorTalk<T>, AllocError> {
        let door = door_for(self.alloc, self.door)?;
        let talk = self.speaker.make(place)?;
        Ok(DoorTalk::new(door, talk))
    }

    fn has_strangers(&self, _place: usize) -> bool {
        false
    }
}

impl<F: Speaker> Speaker for DoorTalks<'_, F> {
    ghost protocols = { λ maker. F.protocols maker.speaker };

    fn crowded_refusals(&self, alloc: Global) -> Result<Vec<Vec<u8>>, AllocError> {
        self.speaker.crowded_refusals(alloc)
    }

    fn guests(&self, at_once: u32) -> u32 {
        at_once
    }

    fn login_limit(&self) -> Option<Duration> {
        None
    }
}

/// The door of a place that asks for no passwords. An error: an allocation failed. No role can be named so
/// that has no name: nobody is let in then, either, nor at a place that asks for passwords.
pub(crate) fn door_for(alloc: Global, door: PlaceDoor<'_>) -> Result<Door, AllocError>
    ensures { IfOk result (IsDoorFor door.entry) }
{
    match door {
        PlaceDoor::Anyone => Ok(Door::Anyone),
        PlaceDoor::Only(role) => match Name::from_str(alloc, role)? {
            Some(name) => Ok(Door::Only(name)),
            None => Err(AllocError),
        },
        PlaceDoor::Passwords { table: _, mock: _ } => Err(AllocError),
    }
}

/// What conversations are made with at a place that asks for passwords: the table of verifiers, the role whose
/// verifier stands in for those that are missing, and what draws bytes that nobody can foretell.
#[derive(Drop)]
pub struct PasswordDoor<'a, D> {
    alloc: Global,
    table: &'a str,
    mock: &'a str,
    draw: D,
}

impl<'a, D> PasswordDoor<'a, D> {
    /// The door of a place whose verifiers are in this table.
    pub(crate) fn new(alloc: Global, table: &'a str, mock: &'a str, draw: D) -> PasswordDoor<'a, D>
        ensures table { result.table.now ≡ table.now }
        ensures mock { result.mock.now ≡ mock.now }
    {
        PasswordDoor {
            alloc,
            table,
            mock,
            draw,
        }
    }
}

impl<D: Draw> PasswordDoor<'_, D> {
    // The place, for one conversation.
    fn place(&self) -> Result<PasswordPlace, AllocError>
        ensures { IfOk result (λ place. place ≡ password_place self.now.table.now self.now.mock.now) }
    {
        asking_place(self.alloc, self.table, self.mock)
    }

    // Bytes for one conversation.
    fn drawn(&self) -> Result<[u8; 32], AllocError>
        ensures { IfOk result (λ drawn. D.draws self.now.draw drawn) }
    {
        drawn_by(&self.draw)
    }
}

/// A place that asks for passwords, for one conversation. An error: an allocation failed. No table can be named so
/// that has no name: nobody is let in then, either.
pub(crate) fn asking_place(
    alloc: Global,
    table: &str,
    mock: &str,
) -> Result<PasswordPlace, AllocError>
    ensures { IfOk result (λ place. place ≡ password_place table.now mock.now) }
{
    let Some(table) = Name::from_str(alloc, table)? else {
        return Err(AllocError);
    };
    let mock = Text::from_str(alloc, mock)?;
    Ok(PasswordPlace { table, mock })
}

/// Bytes for one conversation. Where none are drawn it is as where an allocation fails.
pub(crate) fn drawn_by<D: Draw>(draw: &D) -> Result<[u8; 32], AllocError>
    ensures { IfOk result (λ drawn. D.draws draw.now drawn) }
{
    match draw.draw() {
        Some(drawn) => Ok(drawn),
        None => Err(AllocError),
    }
}

/// The conversations of a maker in frames at a place that asks for passwords, one for each client that comes.
#[derive(Drop)]
pub struct PasswordTalks<'a, F, D> {
    door: PasswordDoor<'a, D>,
    speaker: F,
}

impl<'a, F, D> PasswordTalks<'a, F, D> {
    /// Nobody has come to this place.
    pub(crate) fn new(door: PasswordDoor<'a, D>, speaker: F) -> PasswordTalks<'a, F, D>
        ensures { result.door ≡ door.entry }
    {
        PasswordTalks { door, speaker }
    }
}

impl<'a, T: Talk, F: TalkMaker<T>, D: Draw> TalkMaker<PasswordTalk<T>> for PasswordTalks<'a, F, D> {
    ghost use Rattle.std.specs.Prelude.{true};

    ghost makes_at = { λ maker place talk. (talk.login.place ≡ password_place maker.door.table.now maker.door.mock.now)
        × D.draws maker.door.draw talk.login.drawn };

    ghost makes = { λ maker talk. (talk.login.place ≡ password_place maker.door.table.now maker.door.mock.now)
        × D.draws maker.door.draw talk.login.drawn };

    ghost has_strangers = { λ maker place. true };

    ghost made_at = { λ maker place talk is. is };

    fn make(&self, place: usize) -> Result<PasswordTalk<T>, AllocError> {
        let drawn = self.door.drawn()?;
        let asked = self.door.place()?;
        let talk = self.speaker.make(place)?;
        let login = Login::new(self.door.alloc, asked, drawn);
        Ok(PasswordTalk::new(login, talk))
    }

    fn has_strangers(&self, _place: usize) -> bool {
        true
    }
}

impl<F: Speaker, D> Speaker for PasswordTalks<'_, F, D> {
    ghost protocols = { λ maker. F.protocols maker.speaker };

    fn crowded_refusals(&self, alloc: Global) -> Result<Vec<Vec<u8>>, AllocError> {
        self.speaker.crowded_refusals(alloc)
    }

    fn guests(&self, at_once: u32) -> u32 {
        at_once
    }

    fn login_limit(&self) -> Option<Duration> {
        Some(Duration::from_secs(LOGIN_SECONDS))
    }
}

/// The conversations of a maker of PostgreSQL's protocol at a place that asks for passwords, one for each client
/// that comes.
#[derive(Drop)]
pub struct PostgresLogins<'a, F, D> {
    door: PasswordDoor<'a, D>,
    speaker: F,
}

impl<'a, F, D> PostgresLogins<'a, F, D> {
    /// Nobody has come to this place.
    pub(crate) fn new(door: PasswordDoor<'a, D>, speaker: F) -> PostgresLogins<'a, F, D>
        ensures { result.door ≡ door.entry }
    {
        PostgresLogins { door, speaker }
    }
}

impl<'a, T: Talk, F: TalkMaker<T>, D: Draw> TalkMaker<PostgresLoginTalk<T>>
    for PostgresLogins<'a, F, D> {
    ghost use Rattle.std.specs.Prelude.{true};

    ghost makes_at = { λ maker place talk. (talk.login.place ≡ password_place maker.door.table.now maker.door.mock.now)
        × D.draws maker.door.draw talk.login.drawn };

    ghost makes = { λ maker talk. (talk.login.place ≡ password_place maker.door.table.now maker.door.mock.now)
        × D.draws maker.door.draw talk.login.drawn };

    ghost has_strangers = { λ maker place. true };

    ghost made_at = { λ maker place talk is. is };

    fn make(&self, place: usize) -> Result<PostgresLoginTalk<T>, AllocError> {
        let drawn = self.door.drawn()?;
        let asked = self.door.place()?;
        let talk = self.speaker.make(place)?;
        let login = SaslLogin::new(self.door.alloc, asked, drawn);
        Ok(PostgresLoginTalk::new(login, talk))
    }

    fn has_strangers(&self, _place: usize) -> bool {
        true
    }
}

impl<F: Speaker, D> Speaker for PostgresLogins<'_, F, D> {
    ghost protocols = { λ maker. F.protocols maker.speaker };

    fn crowded_refusals(&self, alloc: Global) -> Result<Vec<Vec<u8>>, AllocError> {
        self.speaker.crowded_refusals(alloc)
    }

    fn guests(&self, at_once: u32) -> u32 {
        at_once
    }

    fn login_limit(&self) -> Option<Duration> {
        Some(Duration::from_secs(LOGIN_SECONDS))
    }
}
