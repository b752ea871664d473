//! Laws of what two servers of many clients say to each client of a tenant.

ghost use Rattle.std.specs.Prelude.{◌≡◌};
ghost use Rattle.doors.specs.declared.door_talk.DoorTalk.{DoorTalk as TheDoorTalk};
ghost use Rattle.doors.specs.declared.entry_talk.EntryTalk.{EntryTalk as TheEntryTalk};
ghost use Rattle.frame_talks.specs.declared.frame_talk.FrameTalk.{FrameTalk as TheFrameTalk};
ghost use Rattle.password_talks.specs.declared.password_talk.PasswordTalk.{PasswordTalk as ThePasswordTalk};
ghost use Rattle.postgres_logins.specs.declared.postgres_login_talk.PostgresLoginTalk.{PostgresLoginTalk as TheLoginTalk};
ghost use Rattle.postgres_talks.specs.declared.postgres_talk.PostgresTalk.{PostgresTalk as TheTalk};
ghost use Rattle.served_tenants.specs.Saying.{SpeaksOnce};
ghost use Rattle.protocol_laws.specs.Alike.{DrewTheSame, DrewTheSameThere, HaveOneProcess};
ghost use Rattle.protocol_laws.specs.Begun.{ServeAlikeAsBegun};
ghost use Rattle.protocol_laws.specs.Places.{AtOneDoor, AtOnePlace, BehindOneDraw, AskingTalk as TheAskingTalk, MayBothAsk, PlaceTalk as ThePlaceTalk};

use doors::door_talk::DoorTalk;
use doors::entry_talk::EntryTalk;
use frame_talks::frame_talk::FrameTalk;
use heading_talks::heading_talk::HeadingTalk;
use password_talks::password_talk::PasswordTalk;
use placed_talks::placed_talk::PlacedTalk;
use postgres_logins::postgres_login_talk::PostgresLoginTalk;
use postgres_talks::postgres_talk::PostgresTalk;
use served_tenants::saying::Likeness;
use server::decide::EventHandler;
use sql_lexer::laws::one_lexing;
use store::Store;
use talks::clients::ServedClients;
use talks::talk::Talk;

/// A conversation in frames, whose client may ask which columns a statement would answer.
pub type AskingTalk = HeadingTalk<FrameTalk>;

/// A conversation at one of several places, of the kind of that place.
pub type PlaceTalk = PlacedTalk<
    DoorTalk<AskingTalk>,
    DoorTalk<PostgresTalk>,
    PasswordTalk<AskingTalk>,
    PostgresLoginTalk<PostgresTalk>,
>;

/// What two servers have told a tenant alike to the end of one run (`servers_tell_clients_what_they_see` of
/// `served_tenants`), they have said alike to each of its clients, whose own conversations began alike in both, by any
/// protocol whose conversations go alike. Of the same bytes it was said the same, as far as these have come. Where no more
/// is said in both, it was said the same to the last byte. Conversations of other clients may begin otherwise. `says` is
/// this. `asks`: clients that come to both so with the same bytes, and are served in one order, client by client, ask the
/// same for as long as they are told the same, which is a premise of that law of `served_tenants`.
pub fn servers_say_who_began_alike_the_same<
    S: Store,
    Z: Store,
    X: EventHandler,
    Y,
    T: Talk,
    C: ServedClients<T>,
    D: ServedClients<T>,
    A: Likeness<T>,
>()
    ensures { SpeaksOnce T.Talk A.Alike → ServeAlikeAsBegun S Z X Y T C D X.Reads S.state Z.state T.Talk C.ServedClients D.ServedClients A.Alike }
{}

/// So it is of a client of Guarddb's frames, whose conversations are at one door.
pub fn clients_of_frames_are_said_the_same<
    S: Store,
    Z: Store,
    X: EventHandler,
    Y,
    C: ServedClients<DoorTalk<FrameTalk>>,
    D: ServedClients<DoorTalk<FrameTalk>>,
>()
    ensures { ServeAlikeAsBegun S Z X Y (TheDoorTalk TheFrameTalk) C D X.Reads S.state Z.state ⟦<DoorTalk<FrameTalk> as Talk>⟧ C.ServedClients D.ServedClients
        (λ t u. t.door ≡ u.door) }
{}

/// So it is of a client of PostgreSQL's protocol, whose conversations are at one door, and which is told one number of a
/// process in both.
pub fn clients_of_postgres_are_said_the_same<
    S: Store,
    Z: Store,
    X: EventHandler,
    Y,
    C: ServedClients<DoorTalk<PostgresTalk>>,
    D: ServedClients<DoorTalk<PostgresTalk>>,
>()
    ensures { ServeAlikeAsBegun S Z X Y (TheDoorTalk TheTalk) C D X.Reads S.state Z.state ⟦<DoorTalk<PostgresTalk> as Talk>⟧ C.ServedClients D.ServedClients
        (λ t u. (t.door ≡ u.door) × HaveOneProcess t.talk u.talk) }
{
    // For the proof: a text has one list of tokens.
    one_lexing();
}

/// So it is of a client that shows a password in frames, at one place, where the same bytes were drawn for both of its
/// exchanges. The verifiers that were looked up for it are the same in both, that of the mock's role among them: where
/// one is not, the runs part.
pub fn clients_with_passwords_are_said_the_same<
    S: Store,
    Z: Store,
    X: EventHandler,
    Y,
    C: ServedClients<PasswordTalk<FrameTalk>>,
    D: ServedClients<PasswordTalk<FrameTalk>>,
>()
    ensures { ServeAlikeAsBegun S Z X Y (ThePasswordTalk TheFrameTalk) C D X.Reads S.state Z.state ⟦<PasswordTalk<FrameTalk> as Talk>⟧ C.ServedClients D.ServedClients
        DrewTheSame }
{}

/// So it is of a client of PostgreSQL's protocol that shows a password, at one place, where the same bytes were drawn for
/// both of its exchanges, and which is told one number of a process.
pub fn clients_of_postgres_with_passwords_are_said_the_same<
    S: Store,
    Z: Store,
    X: EventHandler,
    Y,
    C: ServedClients<PostgresLoginTalk<PostgresTalk>>,
    D: ServedClients<PostgresLoginTalk<PostgresTalk>>,
>()
    ensures { ServeAlikeAsBegun S Z X Y (TheLoginTalk TheTalk) C D X.Reads S.state Z.state ⟦<PostgresLoginTalk<PostgresTalk> as Talk>⟧ C.ServedClients D.ServedClients
        (λ t u. DrewTheSameThere t u × HaveOneProcess t.talk u.talk) }
{
    // For the proof: a text has one list of tokens.
    one_lexing();
}

/// So it is of a client of Guarddb's frames at one door, which may ask which columns a statement would answer in both, or
/// in none: what it asks so is answered alike, too.
pub fn clients_of_headings_are_said_the_same<
    S: Store,
    Z: Store,
    X: EventHandler,
    Y,
    C: ServedClients<DoorTalk<AskingTalk>>,
    D: ServedClients<DoorTalk<AskingTalk>>,
>()
    ensures { ServeAlikeAsBegun S Z X Y (TheDoorTalk TheAskingTalk) C D X.Reads S.state Z.state ⟦<DoorTalk<AskingTalk> as Talk>⟧ C.ServedClients D.ServedClients
        (AtOneDoor MayBothAsk) }
{}

/// So it is of such a client that shows a password, at one place, where the same bytes were drawn for both of its
/// exchanges.
pub fn clients_of_headings_with_passwords_are_said_the_same<
    S: Store,
    Z: Store,
    X: EventHandler,
    Y,
    C: ServedClients<PasswordTalk<AskingTalk>>,
    D: ServedClients<PasswordTalk<AskingTalk>>,
>()
    ensures { ServeAlikeAsBegun S Z X Y (ThePasswordTalk TheAskingTalk) C D X.Reads S.state Z.state ⟦<PasswordTalk<AskingTalk> as Talk>⟧ C.ServedClients D.ServedClients
        (BehindOneDraw MayBothAsk) }
{}

/// So it is of a client of a server with several places, some of which may admit no superuser: it comes to places of one
/// kind, which both admit superusers or none, and its conversations there begin alike, as those of that kind do. Other
/// clients may come to places of other kinds.
pub fn clients_of_places_are_said_the_same<
    S: Store,
    Z: Store,
    X: EventHandler,
    Y,
    C: ServedClients<EntryTalk<PlaceTalk>>,
    D: ServedClients<EntryTalk<PlaceTalk>>,
>()
    ensures { ServeAlikeAsBegun S Z X Y (TheEntryTalk ThePlaceTalk ⟦<PlaceTalk as Talk>⟧) C D X.Reads S.state Z.state ⟦<EntryTalk<PlaceTalk> as Talk>⟧ C.ServedClients D.ServedClients
        AtOnePlace }
{
    // For the proof: a text has one list of tokens.
    one_lexing();
}
