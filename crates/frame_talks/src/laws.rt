//! What a conversation in frames makes of a client's bytes.

ghost use Rattle.std.specs.Prelude.{◌≡◌, ℕ, Bool, true, false, List};
ghost use Rattle.talks.specs.Wants.{Learnt};
ghost use Rattle.talks.specs.Conversations.{Heard};
ghost use Rattle.talks.specs.declared.talk.MessageFront.{MessageFront as TheFront};
ghost use Rattle.talks.specs.declared.want.Want.{Want as TheWant};
ghost use Rattle.frame_talks.specs.declared.frame_talk.FrameTalk.{FrameTalk as TheTalk};
ghost use Rattle.frame_talks.specs.Served.{AnswersFrames, StandsOrGaveUp};
ghost use Rattle.frame_talks.specs.Example.{sent, was_learnt, was_said, bad_length};

use crate::frame_talk::FrameTalk;
use talks::talk::Talk;

/// What a conversation in frames hears of some bytes, in whatever pieces they come: the events that
/// they spell are wanted, each as it is and in their order, and what is said is the frames of their
/// answers, and nothing besides, but for a bad frame, which is answered once and last.
///
/// `served`: no whole frame is left. `refused`: a bad frame has come. `stands`: at any moment. The
/// `example` is in `docs/protocol.md`.
pub fn frames_alone()
    ensures served { (t u : TheTalk) (bytes said rest : List ℕ) (xs : List Learnt)
        → ⟦<FrameTalk as Talk>⟧.starts t → Heard ⟦<FrameTalk as Talk>⟧ t bytes xs said rest u
        → ⟦<FrameTalk as Talk>⟧.wants u ≡ TheWant.Message → ⟦<FrameTalk as Talk>⟧.front u rest ≡ TheFront.Nothing
        → AnswersFrames bytes xs said false rest }
    ensures refused { (t u : TheTalk) (bytes said rest : List ℕ) (xs : List Learnt) (late : Bool)
        → ⟦<FrameTalk as Talk>⟧.starts t → Heard ⟦<FrameTalk as Talk>⟧ t bytes xs said rest u
        → ⟦<FrameTalk as Talk>⟧.wants u ≡ TheWant.End late
        → AnswersFrames bytes xs said true rest }
    ensures stands { (t u : TheTalk) (bytes said rest : List ℕ) (xs : List Learnt)
        → ⟦<FrameTalk as Talk>⟧.starts t → Heard ⟦<FrameTalk as Talk>⟧ t bytes xs said rest u
        → StandsOrGaveUp bytes xs said rest (⟦<FrameTalk as Talk>⟧.wants u) }
    ensures example { (t : TheTalk) → ⟦<FrameTalk as Talk>⟧.starts t
        → (u : TheTalk) × (⟦<FrameTalk as Talk>⟧.wants u ≡ TheWant.End false)
        × Heard ⟦<FrameTalk as Talk>⟧ t sent was_learnt was_said bad_length u }
{}
