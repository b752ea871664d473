//! Laws of protocols whose conversations go alike.

ghost use Rattle.std.specs.Prelude.{◌≡◌};
ghost use Rattle.frame_talks.specs.declared.frame_talk.FrameTalk.{FrameTalk as TheTalk};
ghost use Rattle.served_tenants.specs.Saying.{SpeaksOnce};

use crate::saying::Likeness;
use doors::door_talk::DoorTalk;
use frame_talks::frame_talk::FrameTalk;
use talks::talk::Talk;

/// Guarddb's own frames: conversations that want the same go alike, and all begin so.
pub fn frames_are_said_once()
    ensures once { SpeaksOnce ⟦<FrameTalk as Talk>⟧ (λ t u. t.want ≡ u.want) }
    ensures begin { (t u : TheTalk) → ⟦<FrameTalk as Talk>⟧.starts t → ⟦<FrameTalk as Talk>⟧.starts u → t.want ≡ u.want }
{}

/// Where conversations of a protocol go alike, they do at one door.
pub fn doors_change_nothing_of_that<T: Talk, A: Likeness<T>>()
    ensures { SpeaksOnce T.Talk A.Alike → SpeaksOnce ⟦<DoorTalk<T> as Talk>⟧ (λ t u. (t.door ≡ u.door) × A.Alike t.talk u.talk) }
{}
