//! Devices with room for a journal.
ghost use Rattle.std.specs.Prelude.{ℕ};
ghost use Rattle.sector_device.specs.Device.{IsBehindRoots};

use sector_device::{Device, ProtectedSectors, WriteProtected};

/// A device that keeps all six sectors behind the root sectors beside.
pub trait JournalDevice: ProtectedSectors {
    /// Each of them is kept beside.
    ghost all_beside: { (device : Self) (s : ℕ) → IsBehindRoots s → (Self.state device).beside s };
}

impl<D: Device> JournalDevice for WriteProtected<D> {
    ghost all_beside = { λ device s behind. behind };
}
