//! When the limits of those who are there are looked at. Nothing is promised of that.

use crate::times::{earlier, is_past};
use std::time::Duration;

/// So many rounds pass between the moment with which limits are looked at and the look, since one
/// wait may not name all who have sent something.
const ROUNDS: u32 = 8;

/// How many milliseconds there are between two looks at all, at least.
const PAUSE_MILLIS: u64 = 100;

/// How far it is to a look at all who are there.
#[derive(Clone, Copy)]
enum LookStage {
    /// It is not time.
    Later,
    /// So many rounds are to pass.
    Soon(u32),
    /// The client of this index is next.
    Now(usize),
}

/// Looks at the limits of all who are there.
///
/// Who is silent is judged by the moment at which it was asked who had sent something, and only once
/// all who had were read. So a statement that takes long, or a clock that stood still, ends nobody.
#[derive(Clone, Copy)]
pub struct Looks {
    // When it is time for the next, if ever.
    at: Option<Duration>,
    asked: Duration,
    stage: LookStage,
}

impl Looks {
    /// None is to come.
    pub(crate) fn new() -> Looks {
        Looks {
            at: None,
            asked: Duration::ZERO,
            stage: LookStage::Later,
        }
    }

    /// One is to come then, or earlier, but not at once.
    pub fn note(&mut self, until: Duration, now: Duration) {
        let soonest = now.saturating_add(Duration::from_millis(PAUSE_MILLIS));
        self.at = earlier(self.at, Some(until.max(soonest)));
    }

    /// It is asked now who has sent something: a round begins then.
    pub fn note_asked(&mut self, now: Duration) {
        self.stage = match self.stage {
            LookStage::Later => {
                if !is_past(self.at, now) {
                    return;
                }
                self.at = None;
                self.asked = now;
                LookStage::Soon(ROUNDS)
            }
            LookStage::Soon(rounds) => LookStage::Soon(rounds.saturating_sub(1)),
            LookStage::Now(index) => LookStage::Now(index),
        };
    }

    /// When it is time for the next, if ever: at once, where one is near.
    pub fn at(&self) -> Option<Duration> {
        match self.stage {
            LookStage::Soon(_) => Some(Duration::ZERO),
            _ => self.at,
        }
    }

    /// The moment by which it is judged who is silent.
    pub fn asked(&self) -> Duration {
        self.asked
    }

    /// Whether one begins, at the end of a round.
    pub fn begin(&mut self) -> bool {
        if matches!(self.stage, LookStage::Soon(0)) {
            self.stage = LookStage::Now(0);
            return true;
        }
        false
    }

    /// The index of the next client, of so many, while a look lasts.
    pub fn next(&mut self, count: usize) -> Option<usize> {
        let LookStage::Now(index) = self.stage else {
            return None;
        };
        if index >= count {
            self.stage = LookStage::Later;
            return None;
        }
        self.stage = LookStage::Now(index + 1);
        Some(index)
    }
}
