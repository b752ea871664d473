//! What a client may send before it is admitted, read in place: no memory is allocated.

ghost use Rattle.std.specs.Prelude.{◌≡◌, ◌≢◌, ◌++◌, ◌∷◌, true, false, All, MatchOption};
ghost use Rattle.std.specs.Str.{is_utf8};
ghost use Rattle.password_talks.specs.EarlyFrames.{early_front, early_frame, frame_of_kind, frame_of_beginning};
ghost use Rattle.password_talks.specs.Views.{viewed_frame};

use std::str::from_utf8;
use talks::talk::MessageFront;

/// The least length that a frame may name, in bytes.
const MIN_LENGTH: usize = 5;

/// The greatest length that a frame may name before its client is admitted, in bytes.
const MAX_EARLY_LENGTH: usize = 1_100;

/// A frame that a client sends before it is admitted.
#[derive(Clone, Copy)]
pub enum EarlyFrame<'a> {
    /// Of kind 5: an exchange begins, under this label, with the role that is named so, by this
    /// first message.
    Begins {
        label: u32,
        role: &'a str,
        first: &'a [u8],
    },
    /// Of kind 7: the last message of the exchange under this label.
    Ends {
        label: u32,
        last: &'a [u8],
    },
    /// Of kinds 1 to 3: an event of a session, which is not taken yet.
    Event {
        session: u32,
    },
    /// None of these.
    Bad,
}

/// What stands at the front of the bytes of a client that is not admitted: a frame is a message as
/// soon as it is there to its end, and bad as soon as it names a length out of range.
#[tactic(auto, unfolding(crate::specs::EarlyFrames::early_front))]
pub fn early_front(bytes: &[u8]) -> MessageFront
    ensures { result ≡ early_front bytes.now }
{
    if bytes.len() < 4 {
        return MessageFront::Nothing;
    }
    let length = u32::from_be_bytes([bytes[0], bytes[1], bytes[2], bytes[3]]) as usize;
    if length < MIN_LENGTH || length > MAX_EARLY_LENGTH {
        return MessageFront::Bad;
    }
    let size = 4 + length;
    if bytes.len() < size {
        MessageFront::Nothing
    } else {
        MessageFront::Whole(size)
    }
}

/// The frame that a message is.
#[tactic(auto, unfolding(crate::specs::EarlyFrames::early_frame))]
pub fn early_frame(message: &[u8]) -> EarlyFrame<'_>
    ensures { viewed_frame result ≡ early_frame message.now }
{
    if message.len() < 9 {
        return EarlyFrame::Bad;
    }
    let label = u32::from_be_bytes([message[5], message[6], message[7], message[8]]);
    frame_of_kind(message[4], label, &message[9..])
}

// A frame, by its kind.
fn frame_of_kind(kind: u8, label: u32, payload: &[u8]) -> EarlyFrame<'_>
    ensures { viewed_frame result ≡ frame_of_kind kind label payload.now }
{
    match kind {
        5 => beginning(label, payload),
        7 => EarlyFrame::Ends {
            label,
            last: payload,
        },
        1 | 2 | 3 => EarlyFrame::Event { session: label },
        _ => EarlyFrame::Bad,
    }
}

// A frame of kind 5: the name of a role, a zero byte, and the first message.
#[tactic(auto, using(crate::proofs::Beginnings::cut_there, crate::proofs::Beginnings::cut_nowhere))]
fn beginning(label: u32, payload: &[u8]) -> EarlyFrame<'_>
    ensures { viewed_frame result ≡ frame_of_beginning label payload.now }
{
    let Some((name, first)) = cut_at_zero(payload) else {
        return EarlyFrame::Bad;
    };
    match text_of(name) {
        Some(role) => EarlyFrame::Begins { label, role, first },
        None => EarlyFrame::Bad,
    }
}

// What stands in front of the first zero byte, and what stands behind it.
fn cut_at_zero(bytes: &[u8]) -> Option<(&[u8], &[u8])>
    ensures { MatchOption result (All (λ byte. byte ≢ 0) bytes.now)
        (λ parts. (bytes.now ≡ parts.0.now ++ 0 ∷ parts.1.now)
        × All (λ byte. byte ≢ 0) parts.0.now) }
{
    for (i, byte) in bytes.iter().enumerate() {
        if *byte == 0 {
            return Some((&bytes[..i], &bytes[i + 1..]));
        }
    }
    None
}

// The text that bytes spell, if they are UTF-8.
fn text_of(bytes: &[u8]) -> Option<&str>
    ensures { MatchOption result (is_utf8 bytes.now ≡ false) (λ text. (text.now ≡ bytes.now) × (is_utf8 bytes.now ≡ true)) }
{
    match from_utf8(bytes) {
        Ok(text) => Some(text),
        Err(_) => None,
    }
}
