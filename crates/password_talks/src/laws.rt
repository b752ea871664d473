//! Laws of conversations with clients that show a password first.

ghost use Rattle.std.specs.Prelude.{◌≡◌, ◌≢◌, ℕ, List, [], Some, Ok, false, true};
ghost use Rattle.talks.specs.Wants.{Learnt};
ghost use Rattle.talks.specs.Conversations.{ClientState, Heard, IsAwaited, Passes};
ghost use Rattle.talks.specs.declared.want.Want.{Want as TheWant};
ghost use Rattle.talks.specs.declared.want.Reply.{Reply as TheReply};
ghost use Rattle.talks.specs.declared.want.SessionEntry.{SessionEntry};
ghost use Rattle.password_talks.specs.declared.login.PasswordPlace.{PasswordPlace};
ghost use Rattle.password_talks.specs.declared.password_talk.PasswordTalk.{PasswordTalk as TheTalk};
ghost use Rattle.password_talks.specs.declared.stage.LoginStage.TheVariants.{Admitted, Ended};
ghost use Rattle.password_talks.specs.Courses.{MayWant, MightBeWanted, WasRefused, WasShownAll};
ghost use Rattle.password_talks.specs.Insides.{IsLetInAs, LearntInside};
ghost use Rattle.password_talks.specs.Logins.{is_admitted};
ghost use Rattle.password_talks.specs.LettingIn.{ShowsPasswordNow, found_for, said_for};

use crate::password_talk::PasswordTalk;
use talks::talk::Talk;

/// Whatever comes of a client's bytes, in whatever pieces, and whatever is answered: each session that its
/// conversation ever wants is for the role whose password its first two frames showed, and the verifier that
/// was looked up just before that is the one whose password it is.
pub fn sessions_are_for_who_showed_the_password<T: Talk>()
    ensures { (t u : TheTalk T) (bytes said rest : List ℕ) (xs : List Learnt)
        → ⟦<PasswordTalk<T> as Talk>⟧.starts t
        → Heard ⟦<PasswordTalk<T> as Talk>⟧ t bytes xs said rest u
        → MightBeWanted t.login.place t.login.drawn bytes [] xs
        × MayWant t.login.place t.login.drawn bytes xs (⟦<PasswordTalk<T> as Talk>⟧.wants u) }
{}

/// Of a client that comes where each conversation goes by the verifiers of this place: each session that it
/// ever wanted, until it has gone, was for a role whose password it had shown.
pub fn who_comes_has_shown_the_password<T: Talk>()
    ensures { (place : PasswordPlace) (old new : ClientState (TheTalk T)) (xs : List Learnt) → IsAwaited old
        → Passes ⟦<PasswordTalk<T> as Talk>⟧ (λ talk. talk.login.place ≡ place) old xs new → WasShownAll place xs }
{}

/// A client that is refused has sent no more than that, and was told no more than that: an exchange that
/// shows nothing is answered the same, but for the challenge, whether the role has no verifier or the proof is wrong.
pub fn who_is_refused_is_told_no_more<T: Talk>()
    ensures { (t u : TheTalk T) (bytes said rest : List ℕ) (xs : List Learnt)
        → ⟦<PasswordTalk<T> as Talk>⟧.starts t
        → Heard ⟦<PasswordTalk<T> as Talk>⟧ t bytes xs said rest u
        → u.login.stage ≡ Ended → ⟦<PasswordTalk<T> as Talk>⟧.wants u ≡ TheWant.End true
        → WasRefused t.login.place t.login.drawn bytes xs said }
{}

/// Whoever shows the password of the verifier that is found for a role is let in as that role, and is told the
/// two messages of the server. The conversation inside stands as it did.
pub fn who_shows_the_password_is_let_in<T: Talk>()
    ensures { (t : TheTalk T) (bytes rest role text mock_text : List ℕ) (label : ℕ)
        → ⟦<PasswordTalk<T> as Talk>⟧.starts t
        → (shows : ShowsPasswordNow t.login.drawn bytes label role text mock_text rest)
        → (u : TheTalk T) × IsLetInAs u role text × (u.talk ≡ t.talk)
        × Heard ⟦<PasswordTalk<T> as Talk>⟧ t bytes (found_for t.login.place role text mock_text) (said_for shows) rest u }
{}

/// Once a client is let in, a session for its role is wanted as soon as the same verifier is found again.
pub fn who_is_let_in_opens_sessions<T: Talk>()
    ensures { (t : TheTalk T) (role text : List ℕ) (session : ℕ) (entry : SessionEntry)
        → t.login.stage ≡ Admitted role text → t.is_found ≡ false → T.wants t.talk ≡ TheWant.Open session role entry
        → (u : TheTalk T) × ⟦<PasswordTalk<T> as Talk>⟧.learns t (TheReply.Verifier (Ok (Some text))) [] u
        × (u.talk ≡ t.talk) × (⟦<PasswordTalk<T> as Talk>⟧.wants u ≡ TheWant.Open session role entry) }
{}

/// Nothing that comes before a client is let in reaches the conversation inside.
pub fn nothing_reaches_inside_before<T: Talk>()
    ensures { (t u : TheTalk T) (bytes said rest : List ℕ) (xs : List Learnt)
        → ⟦<PasswordTalk<T> as Talk>⟧.starts t
        → Heard ⟦<PasswordTalk<T> as Talk>⟧ t bytes xs said rest u
        → is_admitted u.login.stage ≡ false → ⟦<PasswordTalk<T> as Talk>⟧.wants u ≢ TheWant.OutOfMemory
        → u.talk ≡ t.talk }
{}

/// From then on all that comes is heard by the conversation inside, and all that is said is what it says. It
/// learns what it wanted, but that the verifier is looked up before each session.
pub fn all_that_comes_then_is_heard_inside<T: Talk>()
    ensures { (t u : TheTalk T) (role text bytes said rest : List ℕ) (xs : List Learnt) → IsLetInAs t role text
        → Heard ⟦<PasswordTalk<T> as Talk>⟧ t bytes xs said rest u
        → ⟦<PasswordTalk<T> as Talk>⟧.wants u ≢ TheWant.OutOfMemory
        → (ys : List Learnt) × LearntInside t.login.place.table role text xs ys
        × Heard T.Talk t.talk bytes ys said rest u.talk }
{}
