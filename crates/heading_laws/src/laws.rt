//! Laws of conversations that go alike where clients may ask what a statement would answer.

ghost use Rattle.std.specs.Prelude.{◌≡◌};
ghost use Rattle.frame_talks.specs.declared.frame_talk.FrameTalk.{FrameTalk as TheFrameTalk};
ghost use Rattle.heading_talks.specs.declared.heading_talk.HeadingTalk.{HeadingTalk as TheTalk};
ghost use Rattle.served_tenants.specs.Saying.{SpeaksOnce};

use frame_talks::frame_talk::FrameTalk;
use heading_talks::heading_talk::HeadingTalk;
use served_tenants::saying::Likeness;
use talks::talk::Talk;

/// Where conversations of a protocol go alike, they do where a client may ask what a statement would answer.
pub fn questions_change_nothing_of_that<T: Talk, A: Likeness<T>>()
    ensures { SpeaksOnce T.Talk A.Alike
        → SpeaksOnce ⟦<HeadingTalk<T> as Talk>⟧ (λ t u. (t.may_ask ≡ u.may_ask) × (t.question ≡ u.question) × A.Alike t.talk u.talk) }
{}

/// Guarddb's own frames with such questions: conversations that want the same go alike, and all begin so where both
/// clients may ask, or none.
pub fn frames_with_questions_are_said_once()
    ensures once { SpeaksOnce ⟦<HeadingTalk<FrameTalk> as Talk>⟧
        (λ t u. (t.may_ask ≡ u.may_ask) × (t.question ≡ u.question) × (t.talk.want ≡ u.talk.want)) }
    ensures begin { (t u : TheTalk TheFrameTalk) → ⟦<HeadingTalk<FrameTalk> as Talk>⟧.starts t → ⟦<HeadingTalk<FrameTalk> as Talk>⟧.starts u
        → t.may_ask ≡ u.may_ask → (t.question ≡ u.question) × (t.talk.want ≡ u.talk.want) }
{}
