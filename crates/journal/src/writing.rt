//! How a record is appended.
ghost use Rattle.std.specs.Prelude.{◌≤◌, ◌<◌, ◌+◌, ℕ, length};
ghost use Rattle.journal.specs.Appends.{Appends};

use sector_device::{Device, DeviceFault, SECTOR_SIZE, write_and_sync};

/// Writes the sectors of a record from `first` on, and brings them to the disk with one sync. A stop
/// during the call or after it leaves the records that were there, or these and the new one whole,
/// whatever it leaves in each sector; after `Ok` it leaves the new one too. Every other sector is left
/// alone.
///
/// After an error a stop may leave either, so the caller makes no further call before the device is
/// opened again.
pub fn append<D: Device>(
    device: &mut D,
    first: u32,
    sectors: &[[u8; SECTOR_SIZE]],
) -> Result<(), DeviceFault>
    requires inside { first + length sectors.now ≤ (D.state device.old).sectors }
    requires not_beside { (i : ℕ) → i < length sectors.now
        → (D.state device.old).beside (first + i) → ⊥ }
    ensures { Appends first sectors.now result (D.state device.old) (D.state device.new) }
{
    write_and_sync(device, first, sectors)
}
