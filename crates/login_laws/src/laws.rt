//! Laws of sessions that clients have, and of their answers.

ghost use Rattle.doors.specs.declared.door.Door.{Door};
ghost use Rattle.doors.specs.declared.door_talk.DoorTalk.{DoorTalk as TheDoorTalk};
ghost use Rattle.doors.specs.declared.entry_talk.EntryTalk.{EntryTalk as TheEntryTalk};
ghost use Rattle.password_talks.specs.declared.login.PasswordPlace.{PasswordPlace};
ghost use Rattle.password_talks.specs.declared.password_talk.PasswordTalk.{PasswordTalk as ThePasswordTalk};
ghost use Rattle.placed_talks.specs.declared.placed_talk.PlacedTalk.{PlacedTalk as ThePlacedTalk};
ghost use Rattle.postgres_logins.specs.declared.postgres_login_talk.PostgresLoginTalk.{PostgresLoginTalk as TheLoginTalk};
ghost use Rattle.std.specs.Prelude.{[]};
ghost use Rattle.login_laws.specs.Answers.{all_was_done, answers_are_of_own_sessions, clients_learn_their_own};
ghost use Rattle.login_laws.specs.Entitled.{sessions_are_answered_as_entitled, sessions_are_opened_as_entitled, sessions_are_wanted_as_entitled, superusers_are_barred, superusers_are_not_let_in};
ghost use Rattle.login_laws.specs.Places.{EntitledAt, SomePlace, drawn_of, place_of};
ghost use Rattle.login_laws.specs.Runs.{look_ups_of_others_entitle_nobody, other_texts_entitle_nobody, recorded_exchanges_entitle_nobody, who_authenticates_and_is_found_is_entitled, who_shows_and_is_found_is_entitled};
ghost use Rattle.login_laws.specs.Shown.{MayComeIn, ShowedPassword, ShowedPasswordInMessages};

use doors::door_talk::DoorTalk;
use doors::entry_talk::EntryTalk;
use password_talks::password_talk::PasswordTalk;
use placed_talks::placed_talk::PlacedTalk;
use postgres_logins::postgres_login_talk::PostgresLoginTalk;
use server::decide::EventHandler;
use store::Store;
use talks::clients::ServedClients;
use talks::talk::Talk;

/// At places that ask for passwords, each session that the server opened for a client which came was opened for a
/// role whose password the bytes that this client sent had shown; where its connection does not tell which those were,
/// bytes that its conversation heard. The verifier of that password is the text that the committed database kept for the
/// role when it was looked up for that, twice, and just before the session: the last thing that was done for this client
/// is such a look-up, too. The conversation is one that the server made, and the table that is looked at is that of the
/// place of this conversation, whichever of several it is. The conversation had said the challenge of that exchange
/// first, with what was drawn for it. While the client is there, its conversation stands as that one does now.
///
/// `wanted`: so it is of each session that a client wanted which came in these turns, in the order of what was done for
/// it, and of one that it wants next. `opened`: so it is of each session that it has after them and had not before: it
/// was opened in them, under a number that was free, was let in by its place, was answered as opened, and has been open
/// since. `answered`: so it is of each session of which it is told an answer in them, and which was opened
/// before that answer.
///
/// A password that changes after that last look-up counts for the sessions that are wanted later, and one that is open
/// goes on. That what is drawn for an exchange is not foretold, and does not repeat, is trusted.
pub fn sessions_are_of_who_showed_the_password<
    S: Store,
    X: EventHandler,
    T: Talk,
    C: ServedClients<PasswordTalk<T>>,
>()
    ensures wanted { sessions_are_wanted_as_entitled PasswordPlace S X (ThePasswordTalk T) C X.Reads S.state ⟦<PasswordTalk<T> as Talk>⟧ C.ServedClients
        (λ talk. talk.login.place) (λ talk. talk.login.drawn) (ShowedPassword S.state) }
    ensures opened { sessions_are_opened_as_entitled PasswordPlace S X (ThePasswordTalk T) C X.Reads S.state ⟦<PasswordTalk<T> as Talk>⟧ C.ServedClients
        (λ talk. talk.login.place) (λ talk. talk.login.drawn) (ShowedPassword S.state) }
    ensures answered { sessions_are_answered_as_entitled PasswordPlace S X (ThePasswordTalk T) C X.Reads S.state ⟦<PasswordTalk<T> as Talk>⟧ C.ServedClients
        (λ talk. talk.login.place) (λ talk. talk.login.drawn) (ShowedPassword S.state) }
{}

/// The same of clients of PostgreSQL's protocol: each session is for the role that the StartupMessage of the client
/// named, and whose password its next two messages showed.
pub fn postgres_sessions_are_of_who_showed_the_password<
    S: Store,
    X: EventHandler,
    T: Talk,
    C: ServedClients<PostgresLoginTalk<T>>,
>()
    ensures wanted { sessions_are_wanted_as_entitled PasswordPlace S X (TheLoginTalk T) C X.Reads S.state ⟦<PostgresLoginTalk<T> as Talk>⟧ C.ServedClients
        (λ talk. talk.login.place) (λ talk. talk.login.drawn) (ShowedPasswordInMessages S.state) }
    ensures opened { sessions_are_opened_as_entitled PasswordPlace S X (TheLoginTalk T) C X.Reads S.state ⟦<PostgresLoginTalk<T> as Talk>⟧ C.ServedClients
        (λ talk. talk.login.place) (λ talk. talk.login.drawn) (ShowedPasswordInMessages S.state) }
    ensures answered { sessions_are_answered_as_entitled PasswordPlace S X (TheLoginTalk T) C X.Reads S.state ⟦<PostgresLoginTalk<T> as Talk>⟧ C.ServedClients
        (λ talk. talk.login.place) (λ talk. talk.login.drawn) (ShowedPasswordInMessages S.state) }
{}

/// At doors each session that the server opened for a client which came is for a role as which one may come in at the
/// door of its conversation.
pub fn sessions_are_of_whom_the_door_admits<
    S: Store,
    X: EventHandler,
    T: Talk,
    C: ServedClients<DoorTalk<T>>,
>()
    ensures wanted { sessions_are_wanted_as_entitled Door S X (TheDoorTalk T) C X.Reads S.state ⟦<DoorTalk<T> as Talk>⟧ C.ServedClients
        (λ talk. talk.door) (λ talk. []) MayComeIn }
    ensures opened { sessions_are_opened_as_entitled Door S X (TheDoorTalk T) C X.Reads S.state ⟦<DoorTalk<T> as Talk>⟧ C.ServedClients
        (λ talk. talk.door) (λ talk. []) MayComeIn }
    ensures answered { sessions_are_answered_as_entitled Door S X (TheDoorTalk T) C X.Reads S.state ⟦<DoorTalk<T> as Talk>⟧ C.ServedClients
        (λ talk. talk.door) (λ talk. []) MayComeIn }
{}

/// So it is at several places of all these kinds, some of which may admit no superuser: whoever has a session was
/// entitled to it at the place of its conversation, by the kind of that place. At a door that is whom the door admits;
/// at a place that asks for passwords it is who has shown that of the role, in frames or in PostgreSQL's messages.
///
/// `barred`: where the conversation is of a place that admits no superuser, each session that it wanted was wanted with
/// an entry that says so. `superusers`: so each role that was let in there may not become a superuser, by the database
/// that was committed where the server stood then.
pub fn sessions_at_several_places_are_of_entitled_clients<
    S: Store,
    X: EventHandler,
    F: Talk,
    P: Talk,
    V: Talk,
    W: Talk,
    C: ServedClients<
        EntryTalk<PlacedTalk<DoorTalk<F>, DoorTalk<P>, PasswordTalk<V>, PostgresLoginTalk<W>>>,
    >,
>()
    ensures wanted { sessions_are_wanted_as_entitled SomePlace S X (TheEntryTalk (ThePlacedTalk (TheDoorTalk F) (TheDoorTalk P) (ThePasswordTalk V) (TheLoginTalk W)) ⟦<PlacedTalk<DoorTalk<F>, DoorTalk<P>, PasswordTalk<V>, PostgresLoginTalk<W>> as Talk>⟧)
        C X.Reads S.state ⟦<EntryTalk<PlacedTalk<DoorTalk<F>, DoorTalk<P>, PasswordTalk<V>, PostgresLoginTalk<W>>> as Talk>⟧ C.ServedClients
        (λ talk. place_of talk.talk) (λ talk. drawn_of talk.talk) (EntitledAt S.state) }
    ensures opened { sessions_are_opened_as_entitled SomePlace S X (TheEntryTalk (ThePlacedTalk (TheDoorTalk F) (TheDoorTalk P) (ThePasswordTalk V) (TheLoginTalk W)) ⟦<PlacedTalk<DoorTalk<F>, DoorTalk<P>, PasswordTalk<V>, PostgresLoginTalk<W>> as Talk>⟧)
        C X.Reads S.state ⟦<EntryTalk<PlacedTalk<DoorTalk<F>, DoorTalk<P>, PasswordTalk<V>, PostgresLoginTalk<W>>> as Talk>⟧ C.ServedClients
        (λ talk. place_of talk.talk) (λ talk. drawn_of talk.talk) (EntitledAt S.state) }
    ensures answered { sessions_are_answered_as_entitled SomePlace S X (TheEntryTalk (ThePlacedTalk (TheDoorTalk F) (TheDoorTalk P) (ThePasswordTalk V) (TheLoginTalk W)) ⟦<PlacedTalk<DoorTalk<F>, DoorTalk<P>, PasswordTalk<V>, PostgresLoginTalk<W>> as Talk>⟧)
        C X.Reads S.state ⟦<EntryTalk<PlacedTalk<DoorTalk<F>, DoorTalk<P>, PasswordTalk<V>, PostgresLoginTalk<W>>> as Talk>⟧ C.ServedClients
        (λ talk. place_of talk.talk) (λ talk. drawn_of talk.talk) (EntitledAt S.state) }
    ensures barred { superusers_are_barred SomePlace S X (TheEntryTalk (ThePlacedTalk (TheDoorTalk F) (TheDoorTalk P) (ThePasswordTalk V) (TheLoginTalk W)) ⟦<PlacedTalk<DoorTalk<F>, DoorTalk<P>, PasswordTalk<V>, PostgresLoginTalk<W>> as Talk>⟧)
        C X.Reads S.state ⟦<EntryTalk<PlacedTalk<DoorTalk<F>, DoorTalk<P>, PasswordTalk<V>, PostgresLoginTalk<W>>> as Talk>⟧ C.ServedClients
        (λ talk. place_of talk.talk) (λ talk. drawn_of talk.talk) (EntitledAt S.state) (λ talk. talk.no_superuser) }
    ensures superusers { superusers_are_not_let_in SomePlace S X (TheEntryTalk (ThePlacedTalk (TheDoorTalk F) (TheDoorTalk P) (ThePasswordTalk V) (TheLoginTalk W)) ⟦<PlacedTalk<DoorTalk<F>, DoorTalk<P>, PasswordTalk<V>, PostgresLoginTalk<W>> as Talk>⟧)
        C X.Reads S.state ⟦<EntryTalk<PlacedTalk<DoorTalk<F>, DoorTalk<P>, PasswordTalk<V>, PostgresLoginTalk<W>>> as Talk>⟧ C.ServedClients
        (λ talk. place_of talk.talk) (λ talk. drawn_of talk.talk) (EntitledAt S.state) (λ talk. talk.no_superuser) }
{}

/// An answer of a session goes to the client for which that session was opened, and to no other.
///
/// `made`: each thing that the turns of clients hold was done by the server from where it stood. That an answer is that
/// of this session, and of no other, is `made`. `learnt`: what a client learns is what was told of the things that were
/// done for it alone. `answers`: what was done in an open session was done for its client. Either the session has been
/// open since before these turns, or it was opened in them for this client, under a number that was free, was let in by
/// its place, was answered as opened, and has been open since.
pub fn answers_go_to_who_opened_the_session<
    S: Store,
    X: EventHandler,
    T: Talk,
    C: ServedClients<T>,
>()
    ensures made { all_was_done S X T C X.Reads S.state T.Talk C.ServedClients }
    ensures learnt { clients_learn_their_own S X T C X.Reads S.state T.Talk C.ServedClients }
    ensures answers { answers_are_of_own_sessions S X T C X.Reads S.state T.Talk C.ServedClients }
{}

/// What entitles can be met, and what entitles nobody. `met`, `postgres_met`: a client that shows its password, for
/// which what is kept is found each time, is entitled to its session. `others`, `postgres_others`: look-ups of other
/// clients entitle nobody. `texts`: the text that is found last is the one whose password was shown, and is kept then.
/// `recorded`, `postgres_recorded`: where what was drawn for a conversation was not said by it, no bytes that its
/// client sends entitle it.
pub fn who_shows_a_password_is_entitled<S: Store, X: EventHandler>()
    ensures met { who_shows_and_is_found_is_entitled S X S.state }
    ensures postgres_met { who_authenticates_and_is_found_is_entitled S X S.state }
    ensures others { look_ups_of_others_entitle_nobody S X S.state (ShowedPassword S.state) }
    ensures postgres_others { look_ups_of_others_entitle_nobody S X S.state (ShowedPasswordInMessages S.state) }
    ensures texts { other_texts_entitle_nobody S X S.state }
    ensures recorded { recorded_exchanges_entitle_nobody S X S.state (ShowedPassword S.state) }
    ensures postgres_recorded { recorded_exchanges_entitle_nobody S X S.state (ShowedPasswordInMessages S.state) }
{}
