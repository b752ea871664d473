//! Sectors that are written one after the other.
ghost use Rattle.std.specs.Prelude.{◌≡◌, ◌≤◌, ◌<◌, ◌+◌, [], ℕ, length, get_or, OnOk, OnErr};
ghost use Rattle.sector_device.specs.Device.{KeepsHistory, HasFailed, IsSynced};
ghost use Rattle.sector_device.specs.Sectors.{WritesSectors, HoldsSectors};

use crate::{Device, DeviceFault, SECTOR_SIZE};

// Writes sectors, one after the other, from `first` on.
fn write_each<D: Device>(
    device: &mut D,
    first: u32,
    sectors: &[[u8; SECTOR_SIZE]],
) -> Result<(), DeviceFault>
    requires inside { first + length sectors.now ≤ (D.state device.old).sectors }
    requires not_beside { (i : ℕ) → i < length sectors.now
        → (D.state device.old).beside (first + i) → ⊥ }
    ensures history { KeepsHistory (D.state device.old) (D.state device.new) }
    ensures writes { (D.state device.old).faithful
        → WritesSectors first sectors.now (D.state device.old) (D.state device.new) }
    ensures written { (D.state device.old).faithful
        → OnOk result (HoldsSectors first sectors.now (D.state device.new).content) }
    ensures cause { OnErr result (HasFailed (D.state device.old) (D.state device.new)) }
{
    // For the proof: the number of sectors stays.
    let _count = device.sectors();
    for index in 0..sectors.len() {
        device.write(first + index as u32, &sectors[index])?;
    }
    Ok(())
}

/// Writes sectors one after the other, from `first` on, and makes them last with one sync. A stop
/// during the call or after it leaves in each of them, by itself, what it might have left before or
/// the bytes written to it; after `Ok` these alone. Every other sector is left alone.
pub fn write_and_sync<D: Device>(
    device: &mut D,
    first: u32,
    sectors: &[[u8; SECTOR_SIZE]],
) -> Result<(), DeviceFault>
    requires inside { first + length sectors.now ≤ (D.state device.old).sectors }
    requires not_beside { (i : ℕ) → i < length sectors.now
        → (D.state device.old).beside (first + i) → ⊥ }
    ensures history { KeepsHistory (D.state device.old) (D.state device.new) }
    ensures writes { (D.state device.old).faithful
        → WritesSectors first sectors.now (D.state device.old) (D.state device.new) }
    ensures written { (D.state device.old).faithful
        → OnOk result (HoldsSectors first sectors.now (D.state device.new).content) }
    ensures synced { (D.state device.old).faithful → OnOk result (IsSynced (D.state device.new)) }
    ensures cause { OnErr result (HasFailed (D.state device.old) (D.state device.new)) }
{
    write_each(device, first, sectors)?;
    device.sync()?;
    Ok(())
}
