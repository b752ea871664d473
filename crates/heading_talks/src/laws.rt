//! Laws of conversations whose client may ask what a statement would answer.

ghost use Rattle.std.specs.Prelude.{◌≡◌, ◌⊎◌, ◌∷◌, ◌++◌, ℕ, List, [], drop, true, false};
ghost use Rattle.sql_ast.specs.declared.description.StatementDescription.{StatementDescription};
ghost use Rattle.talks.specs.Wants.{Learnt, learnt};
ghost use Rattle.talks.specs.Conversations.{Heard};
ghost use Rattle.talks.specs.declared.want.Want.{Want as TheWant};
ghost use Rattle.talks.specs.declared.want.Reply.{Reply as TheReply};
ghost use Rattle.wire.specs.AnswerFrames.{answer_frames};
ghost use Rattle.wire.specs.AnswerText.{answer_text};
ghost use Rattle.wire.specs.Frame.{bad, next_frame};
ghost use Rattle.heading_talks.specs.Courses.{ReachesQuestion};
ghost use Rattle.heading_talks.specs.HeadingFrames.{asks, next_heading};
ghost use Rattle.heading_talks.specs.Headings.{heading_answer};
ghost use Rattle.heading_talks.specs.declared.heading_talk.HeadingTalk.{HeadingTalk as TheTalk};

use crate::heading_talk::HeadingTalk;
use talks::talk::Talk;

/// Of a conversation of which nothing was asked: whatever comes of its client's bytes, the conversation inside
/// alone hears, learns and says the same of them; or it comes to a frame that asks, having heard all before it.
/// Where a client may not ask it is the same always.
pub fn who_asks_nothing_meets_nothing<T: Talk>()
    ensures asks { (t u : TheTalk T) (bytes said rest : List ℕ) (xs : List Learnt) → t.question ≡ TheWant.Message
        → Heard ⟦<HeadingTalk<T> as Talk>⟧ t bytes xs said rest u
        → Heard T.Talk t.talk bytes xs said rest u.talk ⊎ ReachesQuestion T.Talk t.talk bytes }
    ensures may_not { (t u : TheTalk T) (bytes said rest : List ℕ) (xs : List Learnt) → t.question ≡ TheWant.Message → t.may_ask ≡ false
        → Heard ⟦<HeadingTalk<T> as Talk>⟧ t bytes xs said rest u
        → Heard T.Talk t.talk bytes xs said rest u.talk }
{}

/// A frame that asks is a bad one to a conversation that takes no questions. So a client whose frames are all good by
/// `docs/protocol.md` without them never asks.
pub fn who_asks_sends_what_was_bad()
    ensures { (bytes text : List ℕ) (session size : ℕ) → next_heading bytes ≡ asks session text size → next_frame bytes ≡ bad }
{}

/// A frame that asks is answered with the columns of its statement, and the conversation inside stands as before.
pub fn who_asks_is_told_the_columns<T: Talk>()
    ensures { (t : TheTalk T) (bytes text : List ℕ) (session size : ℕ) (d : StatementDescription) → t.question ≡ TheWant.Message → t.may_ask ≡ true
        → T.wants t.talk ≡ TheWant.Message → next_heading bytes ≡ asks session text size
        → (u : TheTalk T) × (u.question ≡ TheWant.Message) × (u.talk ≡ t.talk)
        × Heard ⟦<HeadingTalk<T> as Talk>⟧ t bytes (learnt (TheWant.Description session text) (TheReply.Description d) ∷ [])
        (answer_frames session (answer_text (heading_answer d))) (drop size bytes) u }
{}
