//! Where something was tried.

use crate::stops::choices::Choice;

/// A step to the place where something was tried.
#[derive(Clone, Copy, Debug)]
pub enum PlaceStep {
    /// So many events were answered before the one under way.
    Events(usize),
    /// The device was hindered after so many writes or calls.
    Count(u64),
    /// The device was started again by a choice.
    Restart(Choice),
    /// This bad frame was sent.
    Frame(usize),
}
