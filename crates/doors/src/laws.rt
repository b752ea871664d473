//! Laws of conversations at a door.

ghost use Rattle.std.specs.Prelude.{◌≡◌, ℕ, List, true};
ghost use Rattle.talks.specs.Wants.{Learnt};
ghost use Rattle.talks.specs.Conversations.{ClientState, Heard, IsAwaited, Passes};
ghost use Rattle.doors.specs.declared.door.Door.{Door};
ghost use Rattle.doors.specs.declared.door.Door.TheVariants.{Anyone};
ghost use Rattle.doors.specs.declared.door_talk.DoorTalk.{DoorTalk as TheTalk};
ghost use Rattle.doors.specs.declared.entry_talk.EntryTalk.{EntryTalk as TheEntryTalk};
ghost use Rattle.talks.specs.declared.want.SessionEntry.{SessionEntry};
ghost use Rattle.talks.specs.declared.want.Want.{Want as TheWant};
ghost use Rattle.doors.specs.Doors.{opens_only};
ghost use Rattle.doors.specs.DoorTalks.{AreAdmitted};

use crate::door_talk::DoorTalk;
use crate::entry_talk::EntryTalk;
use talks::talk::Talk;

/// Whatever comes of a client's bytes, and whatever is answered: each session that its conversation ever
/// wants is for a role as which one may come in at its door.
pub fn sessions_are_for_whom_the_door_admits<T: Talk>()
    ensures { (t u : TheTalk T) (bytes said rest : List ℕ) (xs : List Learnt)
        → Heard ⟦<DoorTalk<T> as Talk>⟧ t bytes xs said rest u
        → AreAdmitted t.door xs
        × (opens_only u.door (⟦<DoorTalk<T> as Talk>⟧.wants u) ≡ true) }
{}

/// At a door for anyone a conversation hears, learns and says what it does without a door.
pub fn an_open_door_changes_nothing<T: Talk>()
    ensures { (t u : TheTalk T) (bytes said rest : List ℕ) (xs : List Learnt) → t.door ≡ Anyone → u.door ≡ Anyone
        → Heard ⟦<DoorTalk<T> as Talk>⟧ t bytes xs said rest u
        → Heard T.Talk t.talk bytes xs said rest u.talk }
{}

/// Of a client that comes where each conversation stands at this door: each session that it ever wanted, until it
/// has gone, is for a role as which one may come in there.
pub fn who_comes_is_whom_the_door_admits<T: Talk>()
    ensures { (door : Door) (old new : ClientState (TheTalk T)) (xs : List Learnt) → IsAwaited old
        → Passes ⟦<DoorTalk<T> as Talk>⟧ (λ talk. talk.door ≡ door) old xs new → AreAdmitted door xs }
{}

/// At a place that admits no superuser, each session that a conversation wants is wanted with an entry that says so,
/// and at every place it wants the sessions that it would want at another, for the same roles, and all else as there.
pub fn no_superuser_is_asked_for<T: Talk>()
    ensures barred { (t : TheEntryTalk T T.Talk) (session : ℕ) (login : List ℕ) (entry : SessionEntry) → t.no_superuser ≡ true
        → ⟦<EntryTalk<T> as Talk>⟧.wants t ≡ TheWant.Open session login entry → entry.no_superuser ≡ true }
    ensures same { (t : TheEntryTalk T T.Talk) (session : ℕ) (login : List ℕ) (entry : SessionEntry)
        → ⟦<EntryTalk<T> as Talk>⟧.wants t ≡ TheWant.Open session login entry
        → (asked : SessionEntry) × (T.wants t.talk ≡ TheWant.Open session login asked) × (entry.way ≡ asked.way) × (entry.shown ≡ asked.shown) }
{}
