//! Sectors of the first page, brought to the medium by one write of the page.
ghost use Rattle.std.specs.Prelude.{◌≡◌, ◌≤◌, ◌<◌, ◌+◌, [], ℕ, length, get_or, OnOk, OnErr};
ghost use Rattle.sector_device.specs.Device.{KeepsHistory, HasFailed, IsSynced};
ghost use Rattle.sector_device.specs.FileState.{sector_of};
ghost use Rattle.sector_device.specs.Page.{IsOutside};
ghost use Rattle.sector_device.specs.Sectors.{WritesSectors, HoldsSectors};

use crate::bytes::put_bytes;
use crate::{Device, DeviceFault, SECTOR_SIZE};
use storage_sizes::{PAGE_SIZE, SECTORS_PER_PAGE};

// Puts sectors into a page, one after the other, from `first` on.
fn put_sectors(bytes: &mut [u8; PAGE_SIZE], first: u32, sectors: &[[u8; SECTOR_SIZE]])
    requires inside { (i : ℕ) → i < length sectors.now → first + i < SECTORS_PER_PAGE }
    ensures others { (k : ℕ) → IsOutside first (length sectors.now) k
        → sector_of k bytes.new ≡ sector_of k bytes.old }
    ensures written { (i : ℕ) → i < length sectors.now
        → sector_of (first + i) bytes.new ≡ get_or sectors.now i [] }
{
    for index in 0..sectors.len() {
        put_bytes(
            bytes,
            SECTOR_SIZE * (first as usize + index),
            &sectors[index],
        );
    }
}

/// Writes sectors of the first page, from `first` on, by one write of the page, and makes them last
/// with one sync. A stop during the call or after it leaves in each of them, by itself, what it might
/// have left before or the bytes written to it; after `Ok` these alone. Every other sector is left
/// alone. It is for a device that keeps no sectors beside.
pub fn write_in_first_page<D: Device>(
    device: &mut D,
    first: u32,
    sectors: &[[u8; SECTOR_SIZE]],
) -> Result<(), DeviceFault>
    requires inside { (i : ℕ) → i < length sectors.now → first + i < SECTORS_PER_PAGE }
    requires room { SECTORS_PER_PAGE ≤ (D.state device.old).sectors }
    requires plain { (s : ℕ) → (D.state device.old).beside s → ⊥ }
    ensures history { KeepsHistory (D.state device.old) (D.state device.new) }
    ensures writes { (D.state device.old).faithful
        → WritesSectors first sectors.now (D.state device.old) (D.state device.new) }
    ensures written { (D.state device.old).faithful
        → OnOk result (HoldsSectors first sectors.now (D.state device.new).content) }
    ensures synced { (D.state device.old).faithful → OnOk result (IsSynced (D.state device.new)) }
    ensures cause { OnErr result (HasFailed (D.state device.old) (D.state device.new)) }
{
    // For the proof: the number of sectors stays.
    let _sectors = device.sectors();
    let mut bytes = [0; PAGE_SIZE];
    device.read_page(0, &mut bytes)?;
    put_sectors(&mut bytes, first, sectors);
    device.write_page(0, &bytes)?;
    device.sync()?;
    Ok(())
}
