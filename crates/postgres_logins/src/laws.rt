//! Laws of conversations with clients that show a password first.

ghost use Rattle.std.specs.Prelude.{◌≡◌, ◌≢◌, ◌++◌, ℕ, List, [], Some, Ok, false, true};
ghost use Rattle.talks.specs.Wants.{Learnt};
ghost use Rattle.talks.specs.Conversations.{ClientState, Heard, IsAwaited, Passes};
ghost use Rattle.talks.specs.declared.want.Want.{Want as TheWant};
ghost use Rattle.talks.specs.declared.want.Reply.{Reply as TheReply};
ghost use Rattle.talks.specs.declared.want.SessionEntry.{SessionEntry};
ghost use Rattle.password_talks.specs.Insides.{LearntInside};
ghost use Rattle.password_talks.specs.declared.login.PasswordPlace.{PasswordPlace};
ghost use Rattle.postgres_logins.specs.declared.postgres_login_talk.PostgresLoginTalk.{PostgresLoginTalk as TheTalk};
ghost use Rattle.postgres_logins.specs.declared.stage.SaslStage.TheVariants.{Admitted, Ended};
ghost use Rattle.postgres_logins.specs.declared.stage.Newcomer.{Newcomer};
ghost use Rattle.postgres_logins.specs.Courses.{MayBeWanted, MightAllBeWanted, RefusedFor, WereAllShown};
ghost use Rattle.postgres_logins.specs.Insides.{IsLoggedInAs};
ghost use Rattle.postgres_logins.specs.LettingIn.{AuthenticatesNow, found_for, said_for};
ghost use Rattle.postgres_logins.specs.Logins.{is_admitted};
ghost use Rattle.postgres_logins.specs.PostgresLoginTalks.{HearsStart};

use crate::postgres_login_talk::PostgresLoginTalk;
use talks::talk::Talk;

/// Whatever comes of a client's bytes, in whatever pieces, and whatever is answered: each session that its
/// conversation ever wants is for the role that its StartupMessage named and whose password its next two messages showed, and
/// the verifier that was looked up just before that is the one whose password it is.
pub fn sessions_are_for_who_showed_the_password<T: Talk>()
    ensures { (t u : TheTalk T) (bytes said rest : List ℕ) (xs : List Learnt)
        → ⟦<PostgresLoginTalk<T> as Talk>⟧.starts t
        → Heard ⟦<PostgresLoginTalk<T> as Talk>⟧ t bytes xs said rest u
        → MightAllBeWanted t.login.place t.login.drawn bytes [] xs
        × MayBeWanted t.login.place t.login.drawn bytes xs (⟦<PostgresLoginTalk<T> as Talk>⟧.wants u) }
{}

/// Of a client that comes where each conversation goes by the verifiers of this place: each session that it
/// ever wanted, until it has gone, was for a role whose password it had shown.
pub fn who_comes_has_shown_the_password<T: Talk>()
    ensures { (place : PasswordPlace) (old new : ClientState (TheTalk T)) (xs : List Learnt) → IsAwaited old
        → Passes ⟦<PostgresLoginTalk<T> as Talk>⟧ (λ talk. talk.login.place ≡ place) old xs new → WereAllShown place xs }
{}

/// A client that was refused once it has named a role has sent no more than that, and was told no more than that: an exchange that
/// shows nothing is answered the same, but for the challenge, whether the role has no verifier or the proof is wrong.
pub fn who_is_refused_is_told_no_more<T: Talk>()
    ensures { (t u : TheTalk T) (bytes said rest : List ℕ) (xs : List Learnt)
        → ⟦<PostgresLoginTalk<T> as Talk>⟧.starts t
        → Heard ⟦<PostgresLoginTalk<T> as Talk>⟧ t bytes xs said rest u
        → u.login.stage ≡ Ended → ⟦<PostgresLoginTalk<T> as Talk>⟧.wants u ≡ TheWant.End true
        → RefusedFor t.login.place t.login.drawn bytes xs said }
{}

/// Whoever shows the password of the verifier that is found for a role is let in as that role, and is told the offer and the
/// two messages of the server, and then what the conversation inside says to its StartupMessage.
pub fn who_shows_the_password_is_let_in<T: Talk>()
    ensures { (t : TheTalk T) (v : T) (bytes rest text mock_text inner : List ℕ) (n : Newcomer)
        → ⟦<PostgresLoginTalk<T> as Talk>⟧.starts t → HearsStart T.Talk n.start t.talk inner v
        → (shows : AuthenticatesNow t.login.drawn bytes n text mock_text rest)
        → (u : TheTalk T) × IsLoggedInAs u n text × (u.talk ≡ v)
        × Heard ⟦<PostgresLoginTalk<T> as Talk>⟧ t bytes (found_for t.login.place n.role text mock_text) (said_for shows ++ inner) rest u }
{}

/// Once a client is let in, a session for its role is wanted as soon as the same verifier is found again.
pub fn who_is_let_in_opens_sessions<T: Talk>()
    ensures { (t : TheTalk T) (n : Newcomer) (text : List ℕ) (session : ℕ) (entry : SessionEntry)
        → t.login.stage ≡ Admitted n text → t.is_found ≡ false → T.wants t.talk ≡ TheWant.Open session n.role entry
        → (u : TheTalk T) × ⟦<PostgresLoginTalk<T> as Talk>⟧.learns t (TheReply.Verifier (Ok (Some text))) [] u
        × (u.talk ≡ t.talk) × (⟦<PostgresLoginTalk<T> as Talk>⟧.wants u ≡ TheWant.Open session n.role entry) }
{}

/// Nothing that comes before a client is let in reaches the conversation inside.
pub fn nothing_reaches_inside_before<T: Talk>()
    ensures { (t u : TheTalk T) (bytes said rest : List ℕ) (xs : List Learnt)
        → ⟦<PostgresLoginTalk<T> as Talk>⟧.starts t
        → Heard ⟦<PostgresLoginTalk<T> as Talk>⟧ t bytes xs said rest u
        → is_admitted u.login.stage ≡ false → ⟦<PostgresLoginTalk<T> as Talk>⟧.wants u ≢ TheWant.OutOfMemory
        → u.talk ≡ t.talk }
{}

/// From then on all that comes is heard by the conversation inside, and all that is said is what it says. It
/// learns what it wanted, but that the verifier is looked up before each session.
pub fn all_that_comes_then_is_heard_inside<T: Talk>()
    ensures { (t u : TheTalk T) (n : Newcomer) (text bytes said rest : List ℕ) (xs : List Learnt) → IsLoggedInAs t n text
        → Heard ⟦<PostgresLoginTalk<T> as Talk>⟧ t bytes xs said rest u
        → ⟦<PostgresLoginTalk<T> as Talk>⟧.wants u ≢ TheWant.OutOfMemory
        → (ys : List Learnt) × LearntInside t.login.place.table n.role text xs ys
        × Heard T.Talk t.talk bytes ys said rest u.talk }
{}
