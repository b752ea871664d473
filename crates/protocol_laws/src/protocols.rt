//! Laws of protocols whose conversations go alike.

ghost use Rattle.std.specs.Prelude.{◌≡◌};
ghost use Rattle.password_talks.specs.declared.password_talk.PasswordTalk.{PasswordTalk as ThePasswordTalk};
ghost use Rattle.postgres_logins.specs.declared.postgres_login_talk.PostgresLoginTalk.{PostgresLoginTalk as TheLoginTalk};
ghost use Rattle.postgres_talks.specs.declared.postgres_talk.PostgresTalk.{PostgresTalk as TheTalk};
ghost use Rattle.served_tenants.specs.Saying.{SpeaksOnce};
ghost use Rattle.protocol_laws.specs.Alike.{AreLoginTalksAlike, ArePasswordTalksAlike, DrewTheSame, DrewTheSameThere, HaveOneProcess, StandAtOneMoment};
ghost use Rattle.protocol_laws.specs.Places.{AreOfOneKind};

use doors::entry_talk::EntryTalk;
use password_talks::password_talk::PasswordTalk;
use placed_talks::placed_talk::PlacedTalk;
use postgres_logins::postgres_login_talk::PostgresLoginTalk;
use postgres_talks::postgres_talk::PostgresTalk;
use served_tenants::saying::Likeness;
use sql_lexer::laws::one_lexing;
use talks::talk::Talk;

/// PostgreSQL's protocol: conversations that stand at one moment go alike, whatever its clients send and whatever they
/// learn. `begin`: two stand so that have heard nothing, where their clients are told one number of a process.
pub fn postgres_is_said_once()
    ensures once { SpeaksOnce ⟦<PostgresTalk as Talk>⟧ StandAtOneMoment }
    ensures begin { (t u : TheTalk) → ⟦<PostgresTalk as Talk>⟧.starts t → ⟦<PostgresTalk as Talk>⟧.starts u → HaveOneProcess t u → StandAtOneMoment t u }
{
    // For the proof: a text has one list of tokens.
    one_lexing();
}

/// At a place that asks for passwords conversations go alike where those inside do. `begin`: two that have heard nothing
/// stand alike, where they are at one place, the same bytes were drawn for both, and so do the conversations inside.
/// Which verifiers are found is learnt: of the same verifiers, the mock's among them, the same is said.
pub fn passwords_change_nothing_of_that<T: Talk, A: Likeness<T>>()
    ensures once { SpeaksOnce T.Talk A.Alike → SpeaksOnce ⟦<PasswordTalk<T> as Talk>⟧ (ArePasswordTalksAlike A.Alike) }
    ensures begin { (t u : ThePasswordTalk T) → ⟦<PasswordTalk<T> as Talk>⟧.starts t → ⟦<PasswordTalk<T> as Talk>⟧.starts u → DrewTheSame t u
        → A.Alike t.talk u.talk → ArePasswordTalksAlike A.Alike t u }
{}

/// The same in PostgreSQL's messages.
pub fn postgres_logins_change_nothing_of_that<T: Talk, A: Likeness<T>>()
    ensures once { SpeaksOnce T.Talk A.Alike → SpeaksOnce ⟦<PostgresLoginTalk<T> as Talk>⟧ (AreLoginTalksAlike A.Alike) }
    ensures begin { (t u : TheLoginTalk T) → ⟦<PostgresLoginTalk<T> as Talk>⟧.starts t → ⟦<PostgresLoginTalk<T> as Talk>⟧.starts u → DrewTheSameThere t u
        → A.Alike t.talk u.talk → AreLoginTalksAlike A.Alike t u }
{}

/// Where conversations of a protocol go alike, they do at places that admit no superuser, and at places that do.
pub fn entries_change_nothing_of_that<T: Talk, A: Likeness<T>>()
    ensures { SpeaksOnce T.Talk A.Alike → SpeaksOnce ⟦<EntryTalk<T> as Talk>⟧ (λ t u. (t.no_superuser ≡ u.no_superuser) × A.Alike t.talk u.talk) }
{}

/// Where conversations of each kind go alike, those of one kind do at one of several places.
pub fn kinds_change_nothing_of_that<
    F: Talk,
    P: Talk,
    V: Talk,
    W: Talk,
    A: Likeness<F>,
    B: Likeness<P>,
    C: Likeness<V>,
    D: Likeness<W>,
>()
    ensures { SpeaksOnce F.Talk A.Alike → SpeaksOnce P.Talk B.Alike → SpeaksOnce V.Talk C.Alike → SpeaksOnce W.Talk D.Alike
        → SpeaksOnce ⟦<PlacedTalk<F, P, V, W> as Talk>⟧ (AreOfOneKind A.Alike B.Alike C.Alike D.Alike) }
{}
