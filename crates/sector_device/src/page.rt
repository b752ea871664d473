//! Pages of eight sectors.
ghost use Rattle.std.specs.Prelude.{◌≡◌, ◌<◌, ◌≤◌, ◌+◌, ℕ, OnOk, OnErr};
ghost use Rattle.sector_device.specs.Timeline.{LeavesOnly};
ghost use Rattle.sector_device.specs.Device.{timeline, KeepsHistory, HasFailed, IsLeft};
ghost use Rattle.sector_device.specs.FileState.{sector_of};
ghost use Rattle.sector_device.specs.Page.{page_at, IsAlone, IsOutside, AgreesOutside};

use crate::{Device, DeviceFault};
use storage_sizes::{PAGE_SIZE, SECTORS_PER_PAGE};

/// Writes the eight sectors from `first` on, of which the device keeps none beside. A stop during the
/// call or after it leaves every other sector as it might have been left before.
pub fn write_page<D: Device>(
    device: &mut D,
    first: u32,
    bytes: &[u8; PAGE_SIZE],
) -> Result<(), DeviceFault>
    requires inside { first + SECTORS_PER_PAGE ≤ (D.state device.old).sectors }
    requires not_beside { (k : ℕ) → k < SECTORS_PER_PAGE
        → (D.state device.old).beside (first + k) → ⊥ }
    ensures history { KeepsHistory (D.state device.old) (D.state device.new) }
    ensures any_moment { (D.state device.old).faithful
        → LeavesOnly (AgreesOutside first SECTORS_PER_PAGE (D.state device.old))
        (timeline (D.state device.old)) (timeline (D.state device.new)) }
    ensures alone { (D.state device.old).faithful → (s : ℕ) → IsOutside first SECTORS_PER_PAGE s
        → IsAlone (D.state device.old) (D.state device.new) s }
    ensures written { (D.state device.old).faithful
        → OnOk result ((k : ℕ) → k < SECTORS_PER_PAGE
        → (D.state device.new).content (first + k) ≡ sector_of k bytes.now) }
    ensures page { (D.state device.old).faithful
        → OnOk result (page_at (D.state device.new).content first ≡ bytes.now) }
    ensures cause { OnErr result (HasFailed (D.state device.old) (D.state device.new)) }
{
    device.write_page(first, bytes)
}

/// Reads the eight sectors from `first` on. No sector changes. After an error nothing is
/// promised of `bytes`.
pub fn read_page<D: Device>(
    device: &mut D,
    first: u32,
    bytes: &mut [u8; PAGE_SIZE],
) -> Result<(), DeviceFault>
    requires { first + SECTORS_PER_PAGE ≤ (D.state device.old).sectors }
    ensures history { KeepsHistory (D.state device.old) (D.state device.new) }
    ensures any_moment { (D.state device.old).faithful
        → LeavesOnly (IsLeft (D.state device.old))
        (timeline (D.state device.old)) (timeline (D.state device.new)) }
    ensures alone { (D.state device.old).faithful → (s : ℕ)
        → IsAlone (D.state device.old) (D.state device.new) s }
    ensures bytes { (D.state device.old).faithful
        → OnOk result ((k : ℕ) → k < SECTORS_PER_PAGE
        → sector_of k bytes.new ≡ (D.state device.old).content (first + k)) }
    ensures page { (D.state device.old).faithful
        → OnOk result (bytes.new ≡ page_at (D.state device.old).content first) }
    ensures cause { OnErr result (HasFailed (D.state device.old) (D.state device.new)) }
{
    device.read_page(first, bytes)
}
