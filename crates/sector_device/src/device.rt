//! Devices of sectors, as the code above them sees them.
ghost use Rattle.std.specs.Prelude.{◌≡◌, ◌<◌, ◌≤◌, ◌+◌, ℕ, List, OnOk, OnErr};
ghost use Rattle.sector_device.specs.Timeline.{IsPresent, LeavesOnly};
ghost use Rattle.sector_device.specs.Device.{DeviceState, timeline, KeepsHistory, OnlyReads, Writes, HasFailed, IsLeft, IsSynced, IsBehindRoots};
ghost use Rattle.sector_device.specs.Page.{HoldsPage, ReadsPage, WritesPage};

use crate::bytes::put_bytes;
use storage_sizes::{PAGE_SIZE, SECTOR_SIZE, SECTORS_PER_PAGE};
use thiserror::Error;

/// A call of a device has failed.
#[derive(Clone, Copy, Debug, PartialEq, Eq, Error)]
#[error("the device failed")]
pub struct DeviceFault;

/// Storage: an array of sectors of 512 bytes each, which may stop at any moment.
///
/// After a stop each sector holds what it held at the last sync that succeeded, or one of the
/// contents written since, independently of the others and never a mixture. All of it is promised
/// of a faithful device, and no call makes a device faithful or unfaithful. What no call changes,
/// and that an error is counted, is promised of any device.
///
/// A device may keep sectors beside, of those of the first page behind the two root sectors. Its
/// callers write none of them by these calls, so that every call leaves them alone.
pub trait Device {
    /// What the device is at one moment.
    ghost state: { Self → DeviceState };

    /// How many sectors there are. No call changes it.
    fn sectors(&self) -> u32
        ensures { result ≡ (state self.now).sectors };

    /// How often a call has failed, up to `u64::MAX`.
    fn failures(&self) -> u64
        ensures { result ≡ (state self.now).failures };

    /// Reads the content that was written last. After an error nothing is promised of `bytes`.
    fn read(&mut self, sector: u32, bytes: &mut [u8; SECTOR_SIZE]) -> Result<(), DeviceFault>
        requires { sector < (state self.old).sectors }
        ensures history { KeepsHistory (state self.old) (state self.new) }
        ensures only_reads { (state self.old).faithful
            → OnlyReads (state self.old) (state self.new) }
        ensures bytes { (state self.old).faithful
            → OnOk result (bytes.new ≡ (state self.old).content sector) }
        ensures cause { OnErr result (HasFailed (state self.old) (state self.new)) };

    /// Writes a sector. Until a sync succeeds, a stop may leave the old content or this one; after
    /// an error a read may give either, too.
    fn write(&mut self, sector: u32, bytes: &[u8; SECTOR_SIZE]) -> Result<(), DeviceFault>
        requires inside { sector < (state self.old).sectors }
        requires not_beside { (state self.old).beside sector → ⊥ }
        ensures history { KeepsHistory (state self.old) (state self.new) }
        ensures writes { (state self.old).faithful
            → Writes sector bytes.now (state self.old) (state self.new) }
        ensures written { (state self.old).faithful
            → OnOk result ((state self.new).content sector ≡ bytes.now) }
        ensures cause { OnErr result (HasFailed (state self.old) (state self.new)) };

    /// Reads the eight sectors from `first` on, as so many reads would. After an error nothing is
    /// promised of `bytes`.
    fn read_page(&mut self, first: u32, bytes: &mut [u8; PAGE_SIZE]) -> Result<(), DeviceFault>
        requires { first + SECTORS_PER_PAGE ≤ (state self.old).sectors }
        ensures history { KeepsHistory (state self.old) (state self.new) }
        ensures only_reads { (state self.old).faithful
            → ReadsPage (state self.old) (state self.new) }
        ensures bytes { (state self.old).faithful
            → OnOk result (HoldsPage first bytes.new (state self.old).content) }
        ensures cause { OnErr result (HasFailed (state self.old) (state self.new)) }
    {
        // For the proof: the number of sectors stays.
        let _sectors = self.sectors();
        for part in 0..SECTORS_PER_PAGE {
            let mut sector = [0; SECTOR_SIZE];
            self.read(first + part, &mut sector)?;
            put_bytes(bytes, SECTOR_SIZE * part as usize, &sector);
        }
        Ok(())
    }

    /// Writes the eight sectors from `first` on, as so many writes would: a stop during the call
    /// leaves in each of them, by itself, what it might have left before or the part of `bytes`.
    fn write_page(&mut self, first: u32, bytes: &[u8; PAGE_SIZE]) -> Result<(), DeviceFault>
        requires inside { first + SECTORS_PER_PAGE ≤ (state self.old).sectors }
        requires not_beside { (k : ℕ) → k < SECTORS_PER_PAGE
            → (state self.old).beside (first + k) → ⊥ }
        ensures history { KeepsHistory (state self.old) (state self.new) }
        ensures writes { (state self.old).faithful
            → WritesPage first bytes.now (state self.old) (state self.new) }
        ensures written { (state self.old).faithful
            → OnOk result (HoldsPage first bytes.now (state self.new).content) }
        ensures cause { OnErr result (HasFailed (state self.old) (state self.new)) }
    {
        // For the proof: the number of sectors stays.
        let _sectors = self.sectors();
        for part in 0..SECTORS_PER_PAGE {
            let mut sector = [0; SECTOR_SIZE];
            let start = SECTOR_SIZE * part as usize;
            sector.copy_from_slice(&bytes[start..start + SECTOR_SIZE]);
            self.write(first + part, &sector)?;
        }
        Ok(())
    }

    /// Makes what was written last. After an error nothing counts as synced.
    fn sync(&mut self) -> Result<(), DeviceFault>
        ensures history { KeepsHistory (state self.old) (state self.new) }
        ensures only_reads { (state self.old).faithful
            → OnlyReads (state self.old) (state self.new) }
        ensures synced { (state self.old).faithful → OnOk result (IsSynced (state self.new)) }
        ensures cause { OnErr result (HasFailed (state self.old) (state self.new)) };

    /// A stop may leave what is there.
    ghost content_left: { (device : Self) (s : ℕ) → (state device).faithful
        → s < (state device).sectors → (state device).left s ((state device).content s) };

    /// Only sectors behind the root sectors are kept beside.
    ghost beside_behind: { (device : Self) (s : ℕ) → (state device).beside s → IsBehindRoots s };

    /// A stop at the present moment leaves what a stop now may leave.
    ghost only_now: { (device : Self) → (state device).faithful
        → IsPresent (timeline (state device)) };
}

/// What every call leaves alone, two calls leave alone.
pub fn calls_join<D: Device>(old: &D, mid: &D, new: &D)
    ensures { KeepsHistory (D.state old.now) (D.state mid.now)
        → KeepsHistory (D.state mid.now) (D.state new.now)
        → KeepsHistory (D.state old.now) (D.state new.now) }
{}

/// A stop during a call that writes nothing, or after it, leaves what it might have left before.
pub fn read_leaves<D: Device>(old: &D, new: &D)
    ensures { (D.state old.now).faithful → KeepsHistory (D.state old.now) (D.state new.now)
        → OnlyReads (D.state old.now) (D.state new.now)
        → LeavesOnly (IsLeft (D.state old.now))
        (timeline (D.state old.now)) (timeline (D.state new.now)) }
{}
