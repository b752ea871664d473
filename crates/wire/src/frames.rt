//! The events of a stream of frames that comes in pieces.

ghost use Rattle.std.specs.Prelude.{◌≡◌, ◌≢◌, ◌≤◌, ◌++◌, ℕ, Bool, true, false, List, [], length, drop, IfOk, OnOk, OnErr};
ghost use Rattle.sql_types.specs.declared.event.Event.{Event as AnEvent};
ghost use Rattle.wire.specs.Frame.{next_frame, bad as bad_frame};
ghost use Rattle.wire.specs.Stream.{Spells, IsStream, IsFed};
ghost use Rattle.wire.specs.Views.{viewed_frame};

use crate::frame_view::{FrameView, next_frame};
use sql_types::event::Event;
use std::alloc::{AllocError, Global};
use std::marker::Model;

/// What a piece of a stream completed: events, and whether a bad frame follows them.
#[derive(Drop)]
pub struct Fed {
    pub events: Vec<Event>,
    pub bad: bool,
}

/// The frames of a stream that comes in pieces.
///
/// A contract sees the bytes that are held back: a frame that is not there to its end, or the bad
/// frame at which the stream ended, with the bytes of its last piece.
#[derive(Drop)]
pub struct Frames {
    held: Vec<u8>,
    alloc: Global,
}

impl Model for Frames {
    ghost use Rattle.std.specs.Prelude.{List, ℕ};

    ghost Value = { List ℕ };

    ghost view = { λ f. f.held.items };
}

impl Frames {
    /// No byte has come.
    pub fn new(alloc: Global) -> Frames
        ensures empty { result ≡ [] }
        ensures stream { IsStream [] [] false result }
    {
        Frames {
            held: Vec::new(alloc),
            alloc,
        }
    }

    /// Takes the next piece of the stream and gives the events whose frames it completes.
    ///
    /// The events of all pieces are those that the joined bytes spell, however they are cut. After
    /// a bad frame nothing more is read, and each later piece is answered `bad` again. Between
    /// pieces at most 131,075 bytes of a stream without a bad frame are held back.
    ///
    /// An error says that an allocation failed; nothing has changed, and the piece can be fed again.
    pub fn feed(&mut self, piece: &[u8]) -> Result<Fed, AllocError>
        ensures stream { (bytes : List ℕ) (events : List AnEvent) (is_bad : Bool)
            → IsStream bytes events is_bad self.old
            → IfOk result (λ fed. IsStream (bytes ++ piece.now) (events ++ fed.events.items) fed.bad self.new) }
        ensures fed { IfOk result (λ fed. IsFed self.old piece.now fed.events.items fed.bad self.new) }
        ensures held { IfOk result (λ fed. fed.bad ≡ false → length self.new ≤ 131075) }
        ensures err { OnErr result (self.new ≡ self.old) }
    {
        if self.has_ended() {
            return Ok(Fed {
                events: Vec::new(self.alloc),
                bad: true,
            });
        }
        let before = self.held.len();
        self.push(piece)?;
        match read_events(self.alloc, &self.held) {
            Ok(FrameEvents { events, bad, end }) => {
                self.pass(end);
                Ok(Fed { events, bad })
            }
            Err(refused) => {
                self.held.truncate(before);
                Err(refused)
            }
        }
    }

    /// Takes the next piece of the stream, behind what is held back.
    ///
    /// An error says that an allocation failed; nothing has changed, and the piece can be taken again.
    pub fn push(&mut self, piece: &[u8]) -> Result<(), AllocError>
        ensures ok { OnOk result (self.new ≡ self.old ++ piece.now) }
        ensures err { OnErr result (self.new ≡ self.old) }
    {
        self.held.extend_from_slice(piece)?;
        Ok(())
    }

    /// What stands at the front of what is held back, read in place: a whole frame, a bad one, or less
    /// than a frame.
    pub fn front(&self) -> FrameView<'_>
        ensures { viewed_frame result ≡ next_frame self.now }
    {
        next_frame(&self.held)
    }

    /// Drops so many bytes at the front of what is held back, as those of a frame that was taken.
    pub fn pass(&mut self, size: usize)
        requires { size ≤ length self.old }
        ensures { self.new ≡ drop size self.old }
    {
        self.held.drain(..size);
    }

    // Whether the stream has ended at a bad frame.
    fn has_ended(&self) -> bool
        ensures ended { result ≡ true → next_frame self.now ≡ bad_frame }
        ensures goes_on { result ≡ false → next_frame self.now ≢ bad_frame }
    {
        matches!(self.front(), FrameView::Bad)
    }
}

// The events at the front of bytes, and where what follows them begins.
#[derive(Drop)]
struct FrameEvents {
    events: Vec<Event>,
    bad: bool,
    end: usize,
}

// Reads the events at the front of bytes.
fn read_events(alloc: Global, bytes: &[u8]) -> Result<FrameEvents, AllocError>
    ensures spelled { IfOk result (λ b. Spells bytes.now b.events.items b.bad (drop b.end bytes.now)) }
    ensures inside { IfOk result (λ b. b.end ≤ length bytes.now) }
{
    let mut events = Vec::new(alloc);
    let mut end = 0;
    loop {
        match next_frame(&bytes[end..]) {
            FrameView::Incomplete => {
                return Ok(FrameEvents {
                    events,
                    bad: false,
                    end,
                });
            }
            FrameView::Bad => {
                return Ok(FrameEvents {
                    events,
                    bad: true,
                    end,
                });
            }
            FrameView::Whole { event, size } => {
                events.push(event.to_event(alloc)?)?;
                end += size;
            }
        }
    }
}
