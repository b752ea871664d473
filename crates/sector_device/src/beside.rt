//! Devices that keep sectors beside.
ghost use Rattle.std.specs.Prelude.{◌≡◌, ◌≤◌, ◌<◌, ◌+◌, [], ℕ, length, get_or, OnOk, OnErr};
ghost use Rattle.sector_device.specs.Device.{KeepsSize, HasFailed, IsSynced};
ghost use Rattle.sector_device.specs.Sectors.{WritesSectors, HoldsSectors};

use crate::{Device, DeviceFault, SECTOR_SIZE, SECTORS_PER_PAGE};

/// A device that keeps sectors beside, which are written by this call alone.
pub trait ProtectedSectors: Device {
    /// Writes sectors beside one after the other, from `first` on, and makes them last with one
    /// sync. A stop during the call or after it leaves in each of them, by itself, what it might
    /// have left before or the bytes written to it; after `Ok` these alone. Every other sector is
    /// left alone.
    fn write_protected(
        &mut self,
        first: u32,
        sectors: &[[u8; SECTOR_SIZE]],
    ) -> Result<(), DeviceFault>
        requires room { SECTORS_PER_PAGE ≤ (Self.state self.old).sectors }
        requires beside { (i : ℕ) → i < length sectors.now
            → (Self.state self.old).beside (first + i) }
        ensures size { KeepsSize (Self.state self.old) (Self.state self.new) }
        ensures writes { (Self.state self.old).faithful
            → WritesSectors first sectors.now (Self.state self.old) (Self.state self.new) }
        ensures written { (Self.state self.old).faithful
            → OnOk result (HoldsSectors first sectors.now (Self.state self.new).content) }
        ensures synced { (Self.state self.old).faithful
            → OnOk result (IsSynced (Self.state self.new)) }
        ensures cause { OnErr result (HasFailed (Self.state self.old) (Self.state self.new)) };
}
