//! What stands at the front of a stream, read in place: no memory is allocated.

ghost use Rattle.std.specs.Prelude.{◌≡◌, true, false, IfOk, MatchOption};
ghost use Rattle.std.specs.Str.{is_utf8};
ghost use Rattle.wire.specs.Frame.{next_frame, frame_of_kind};
ghost use Rattle.wire.specs.Views.{viewed_event, viewed_frame};

use sql_types::event::Event;
use sql_types::text::Text;
use std::alloc::{AllocError, Global};
use std::str::from_utf8;

/// The least length that a frame may name, in bytes.
const MIN_LENGTH: usize = 5;

/// The greatest length that a frame may name, in bytes.
const MAX_LENGTH: usize = 131_072;

/// An event whose texts are lent by its frame.
#[derive(Clone, Copy)]
pub enum EventView<'a> {
    Open { session: u32, login: &'a str },
    Statement { session: u32, text: &'a str },
    Close { session: u32 },
}

/// What stands at the front of a stream.
#[derive(Clone, Copy)]
pub enum FrameView<'a> {
    /// Less than a frame, good so far.
    Incomplete,
    /// A bad frame.
    Bad,
    /// The whole frame of an event, of so many bytes.
    Whole { event: EventView<'a>, size: usize },
}

/// What stands at the front of a stream.
#[tactic(auto, unfolding(crate::specs::Frame::next_frame))]
pub fn next_frame(bytes: &[u8]) -> FrameView<'_>
    ensures { viewed_frame result ≡ next_frame bytes.now }
{
    if bytes.len() < 4 {
        return FrameView::Incomplete;
    }
    let length = u32::from_be_bytes([bytes[0], bytes[1], bytes[2], bytes[3]]) as usize;
    if length < MIN_LENGTH || length > MAX_LENGTH {
        return FrameView::Bad;
    }
    let size = 4 + length;
    if bytes.len() < size {
        return FrameView::Incomplete;
    }
    let session = u32::from_be_bytes([bytes[5], bytes[6], bytes[7], bytes[8]]);
    frame_of_kind(bytes[4], session, &bytes[9..size], size)
}

// A frame that is there to its end, by its kind.
fn frame_of_kind(kind: u8, session: u32, payload: &[u8], size: usize) -> FrameView<'_>
    ensures { viewed_frame result ≡ frame_of_kind kind session payload.now size }
{
    match kind {
        1 => match text_of(payload) {
            Some(login) => FrameView::Whole {
                event: EventView::Open { session, login },
                size,
            },
            None => FrameView::Bad,
        },
        2 => match text_of(payload) {
            Some(text) => FrameView::Whole {
                event: EventView::Statement { session, text },
                size,
            },
            None => FrameView::Bad,
        },
        3 if payload.is_empty() => FrameView::Whole {
            event: EventView::Close { session },
            size,
        },
        _ => FrameView::Bad,
    }
}

// The text that bytes spell, if they are UTF-8.
fn text_of(bytes: &[u8]) -> Option<&str>
    ensures { MatchOption result (is_utf8 bytes.now ≡ false) (λ text. (text.now ≡ bytes.now) × (is_utf8 bytes.now ≡ true)) }
{
    match from_utf8(bytes) {
        Ok(text) => Some(text),
        Err(_) => None,
    }
}

impl EventView<'_> {
    /// The event, with texts of its own. The only error is that an allocation failed.
    pub fn to_event(self, alloc: Global) -> Result<Event, AllocError>
        ensures { IfOk result (λ event. event ≡ viewed_event self.entry) }
    {
        match self {
            EventView::Open { session, login } => {
                let login = Text::from_str(alloc, login)?;
                Ok(Event::Open { session, login })
            }
            EventView::Statement { session, text } => {
                let text = Text::from_str(alloc, text)?;
                Ok(Event::Statement { session, text })
            }
            EventView::Close { session } => Ok(Event::Close { session }),
        }
    }
}
