//! Laws of conversations of one of four kinds.

ghost use Rattle.std.specs.Prelude.{◌≡◌, ◌⊎◌, ℕ, List};
ghost use Rattle.talks.specs.Wants.{Learnt};
ghost use Rattle.talks.specs.Conversations.{Heard};
ghost use Rattle.talks.specs.declared.want.Want.{Want as TheWant};
ghost use Rattle.placed_talks.specs.declared.placed_talk.PlacedTalk.{PlacedTalk as TheTalk};
ghost use Rattle.placed_talks.specs.declared.placed_talk.PlacedTalk.TheVariants as kind;

use crate::placed_talk::PlacedTalk;
use talks::talk::Talk;

/// Whatever comes of a client's bytes, and whatever is answered: a conversation of a kind hears, learns and says what
/// one of that kind does by itself.
pub fn a_conversation_is_one_of_its_kind<F: Talk, P: Talk, V: Talk, W: Talk>()
    ensures in_frames { (t u : F) (bytes said rest : List ℕ) (xs : List Learnt)
        → Heard ⟦<PlacedTalk<F, P, V, W> as Talk>⟧ (kind.Frames t) bytes xs said rest (kind.Frames u) → Heard F.Talk t bytes xs said rest u }
    ensures by_postgres { (t u : P) (bytes said rest : List ℕ) (xs : List Learnt)
        → Heard ⟦<PlacedTalk<F, P, V, W> as Talk>⟧ (kind.Postgres t) bytes xs said rest (kind.Postgres u) → Heard P.Talk t bytes xs said rest u }
    ensures frames_with_password { (t u : V) (bytes said rest : List ℕ) (xs : List Learnt)
        → Heard ⟦<PlacedTalk<F, P, V, W> as Talk>⟧ (kind.FramesWithPassword t) bytes xs said rest (kind.FramesWithPassword u) → Heard V.Talk t bytes xs said rest u }
    ensures postgres_with_password { (t u : W) (bytes said rest : List ℕ) (xs : List Learnt)
        → Heard ⟦<PlacedTalk<F, P, V, W> as Talk>⟧ (kind.PostgresWithPassword t) bytes xs said rest (kind.PostgresWithPassword u) → Heard W.Talk t bytes xs said rest u }
{}

/// And it stays one of that kind, but once an allocation has failed: then nothing more is heard, learnt or said.
pub fn a_conversation_stays_of_its_kind<F: Talk, P: Talk, V: Talk, W: Talk>()
    ensures in_frames { (t : F) (u : TheTalk F P V W) (bytes said rest : List ℕ) (xs : List Learnt)
        → Heard ⟦<PlacedTalk<F, P, V, W> as Talk>⟧ (kind.Frames t) bytes xs said rest u
        → ((v : F) × (u ≡ kind.Frames v)) ⊎ (⟦<PlacedTalk<F, P, V, W> as Talk>⟧.wants u ≡ TheWant.OutOfMemory) }
    ensures by_postgres { (t : P) (u : TheTalk F P V W) (bytes said rest : List ℕ) (xs : List Learnt)
        → Heard ⟦<PlacedTalk<F, P, V, W> as Talk>⟧ (kind.Postgres t) bytes xs said rest u
        → ((v : P) × (u ≡ kind.Postgres v)) ⊎ (⟦<PlacedTalk<F, P, V, W> as Talk>⟧.wants u ≡ TheWant.OutOfMemory) }
    ensures frames_with_password { (t : V) (u : TheTalk F P V W) (bytes said rest : List ℕ) (xs : List Learnt)
        → Heard ⟦<PlacedTalk<F, P, V, W> as Talk>⟧ (kind.FramesWithPassword t) bytes xs said rest u
        → ((v : V) × (u ≡ kind.FramesWithPassword v)) ⊎ (⟦<PlacedTalk<F, P, V, W> as Talk>⟧.wants u ≡ TheWant.OutOfMemory) }
    ensures postgres_with_password { (t : W) (u : TheTalk F P V W) (bytes said rest : List ℕ) (xs : List Learnt)
        → Heard ⟦<PlacedTalk<F, P, V, W> as Talk>⟧ (kind.PostgresWithPassword t) bytes xs said rest u
        → ((v : W) × (u ≡ kind.PostgresWithPassword v)) ⊎ (⟦<PlacedTalk<F, P, V, W> as Talk>⟧.wants u ≡ TheWant.OutOfMemory) }
{}
