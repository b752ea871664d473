//! The frame by which a client asks what a statement would answer, read in place: no memory is allocated.

ghost use Rattle.std.specs.Prelude.{◌≡◌, true, false, MatchOption};
ghost use Rattle.std.specs.Str.{is_utf8};
ghost use Rattle.heading_talks.specs.HeadingFrames.{next_heading, asked_if, taken_if};
ghost use Rattle.heading_talks.specs.HeadingViews.{viewed_heading};

use std::str::from_utf8;

/// The least length that a frame may name, in bytes.
const MIN_LENGTH: usize = 5;

/// The greatest length that a frame may name, in bytes.
const MAX_LENGTH: usize = 131_072;

/// The kind of such a frame.
const QUESTION: u8 = 8;

/// What stands at the front of a stream, as far as that is such a frame.
#[derive(Clone, Copy)]
pub enum HeadingView<'a> {
    /// Too few bytes to tell, or a part of such a frame.
    Part,
    /// The whole frame, of so many bytes: what the statement of this text would answer in the session.
    Asks {
        session: u32,
        text: &'a str,
        size: usize,
    },
    /// No such frame.
    Other,
}

/// What stands at the front of a stream.
#[tactic(auto, unfolding(crate::specs::HeadingFrames::next_heading))]
pub fn next_heading(bytes: &[u8]) -> HeadingView<'_>
    ensures { viewed_heading result ≡ next_heading bytes.now }
{
    if bytes.len() < 4 {
        return HeadingView::Part;
    }
    let length = u32::from_be_bytes([bytes[0], bytes[1], bytes[2], bytes[3]]) as usize;
    if length < MIN_LENGTH || length > MAX_LENGTH {
        return HeadingView::Other;
    }
    if bytes.len() < 5 {
        return HeadingView::Part;
    }
    if bytes[4] != QUESTION {
        return HeadingView::Other;
    }
    let size = 4 + length;
    if bytes.len() < size {
        return HeadingView::Part;
    }
    let session = u32::from_be_bytes([bytes[5], bytes[6], bytes[7], bytes[8]]);
    asked_if(session, &bytes[9..size], size)
}

/// What stands at the front of a stream where a client may ask, or may not: then none is such a frame.
pub fn heading_if(may_ask: bool, bytes: &[u8]) -> HeadingView<'_>
    ensures { viewed_heading result ≡ taken_if may_ask (next_heading bytes.now) }
{
    if may_ask {
        next_heading(bytes)
    } else {
        HeadingView::Other
    }
}

// The question in a frame that is there to its end, unless its text is not UTF-8.
fn asked_if(session: u32, payload: &[u8], size: usize) -> HeadingView<'_>
    ensures { viewed_heading result ≡ asked_if (is_utf8 payload.now) session payload.now size }
{
    match text_of(payload) {
        Some(text) => HeadingView::Asks {
            session,
            text,
            size,
        },
        None => HeadingView::Other,
    }
}

// The text that bytes spell, if they are UTF-8.
fn text_of(bytes: &[u8]) -> Option<&str>
    ensures { MatchOption result (is_utf8 bytes.now ≡ false) (λ text. (text.now ≡ bytes.now) × (is_utf8 bytes.now ≡ true)) }
{
    match from_utf8(bytes) {
        Ok(text) => Some(text),
        Err(_) => None,
    }
}
