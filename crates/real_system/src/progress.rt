//! Lines on standard error that tell how far a copy is.

use sector_device::CopyProgress;
use std::time::{Clock, Duration, Instant};

/// For how many seconds a copy goes on before a line is told, and from one line to the next, at least.
const PAUSE: u64 = 2;

/// Tells on standard error how far a copy is that takes more than two seconds: a line now and then, as `guarddb: copied 48 MiB`.
/// Where a line is not written, or the system does not give the time, the copy goes on untold.
#[derive(Drop)]
pub struct PrintedProgress<'r, R> {
    rt: &'r R,
    // When the last line was told, or the copy began. `None`: the system did not give the time.
    last: Option<Instant>,
}

impl<'r, R: Eprint + Clock> PrintedProgress<'r, R> {
    /// The progress of a copy that begins now.
    pub(crate) fn begin(rt: &'r R) -> PrintedProgress<'r, R> {
        PrintedProgress {
            rt,
            last: Instant::now(rt).ok(),
        }
    }
}

impl<R: Eprint + Clock> CopyProgress for PrintedProgress<'_, R> {
    fn tell(&mut self, bytes: u64) {
        let (Some(last), Ok(now)) = (self.last, Instant::now(self.rt)) else {
            return;
        };
        if now.duration_since(last) >= Duration::from_secs(PAUSE) {
            self.last = Some(now);
            // A copy goes on where its progress is not taken.
            let _ = eprintln!(self.rt; "guarddb: copied {} MiB", bytes >> 20);
        }
    }
}
