//! The kinds of tests.

use sector_device::MemDevice;

/// The kinds of tests, each of which hinders a device after a count of writes or calls.
#[derive(Clone, Copy)]
pub enum Kind {
    /// Stops of commits and of migrations.
    Stops,
    /// Stops of one more commit or migration, on a device that was started again after a stop.
    SecondStops,
    /// Calls that fail while events are answered.
    Failures,
    /// Calls of openings that fail.
    Openings,
    /// Calls of openings that fail, and are carried out all the same.
    LateOpenings,
    /// Stops of copies.
    Copies,
    /// Bad frames. No device is hindered.
    Frames,
}

impl Kind {
    /// Hinders a device: it stops after so many writes, or the next call after so many fails.
    pub fn hinder(self, device: &MemDevice, count: u64) {
        match self {
            Kind::Stops | Kind::SecondStops | Kind::Copies => device.stop_after(count),
            Kind::Failures | Kind::Openings => device.fail_call(count),
            Kind::LateOpenings => device.fail_call_late(count),
            Kind::Frames => {}
        }
    }

    /// Whether one call fails, and no later one.
    pub fn fails_once(self) -> bool {
        matches!(self, Kind::Failures | Kind::Openings | Kind::LateOpenings)
    }
}
