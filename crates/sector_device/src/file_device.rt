//! A device over a file of bytes.
ghost use Rattle.std.specs.Prelude.{◌≡◌, ◌≤◌, ◌*◌, false, length};
ghost use Rattle.std.proofs.Common.{refl};
ghost use Rattle.sector_device.specs.FileState.{file_device};

use crate::{Device, DeviceFault, RawFile, SystemFile};
use storage_sizes::{MAX_PAGES, PAGE_SIZE, SECTOR_SIZE, SECTORS_PER_PAGE};

/// A device over a file: sector `s` is the 512 bytes from `512 * s` on. It is faithful where the
/// file is. A page is read and written by one call of the file.
///
/// After a sync that failed, a system may take bytes for written that are not on the disk, and then
/// the next sync succeeds. So once a sync has failed, every call fails and makes no call of the
/// file, until the file is opened again.
#[derive(Drop)]
pub struct FileDevice<F: RawFile = SystemFile> {
    file: F,
    sectors: u32,
    failures: u64,
    has_failed_sync: bool,
    ghost inside: { F.faithful file → 512 * sectors ≤ length (F.state file).bytes },
    ghost works: { F.faithful file → has_failed_sync ≡ false → (F.state file).has_failed_sync ≡ false },
}

impl<F: RawFile> FileDevice<F> {
    ghost use Rattle.sector_device.specs.FileState.{sectors_in};
    ghost use Rattle.sector_device.specs.FileDevice.{file_of, file_device_state, has_failed_sync};

    /// A device over this file, which has so many bytes and none of whose syncs has failed: of no
    /// sectors unless these are whole pages, 65,536 at most.
    pub(crate) fn over(file: F, bytes: u64) -> FileDevice<F>
        requires length { F.faithful file → bytes ≡ length (F.state file).bytes }
        requires works { F.faithful file → (F.state file).has_failed_sync ≡ false }
        ensures sectors { (file_device_state result).sectors ≡ sectors_in bytes }
        ensures failures { (file_device_state result).failures ≡ 0 }
        ensures file { file_of result ≡ file }
        ensures has_failed_sync { has_failed_sync result ≡ false }
    {
        let pages = bytes / PAGE_SIZE as u64;
        let sectors = if bytes % PAGE_SIZE as u64 == 0 && pages <= MAX_PAGES as u64 {
            (bytes / SECTOR_SIZE as u64) as u32
        } else {
            0
        };
        FileDevice {
            file,
            sectors,
            failures: 0,
            has_failed_sync: false,
        }
    }

    /// The file below.
    pub fn file(&self) -> &F
        ensures { result.now ≡ file_of self.now }
    {
        &self.file
    }
}

impl<F: RawFile> Device for FileDevice<F> {
    ghost use Rattle.std.specs.Prelude.{◌≡◌, ◌<◌, ◌+◌, true, false, OnOk, OnErr, IsErr};
    ghost use Rattle.sector_device.specs.Device.{KeepsHistory, OnlyReads, Writes, HasFailed, IsSynced};
    ghost use Rattle.sector_device.specs.Page.{HoldsPage, ReadsPage, WritesPage};
    ghost use Rattle.sector_device.specs.FileDevice.{file_of, file_device_state, has_failed_sync};

    ghost state = { λ d. file_device (F.faithful d.file) (F.state d.file) d.sectors d.failures };

    ghost content_left = { λ d s faithful inside.
        ((F.state d.file).bytes, F.bytes_left d.file faithful, refl) };

    ghost beside_behind = { λ d s none. absurd none };

    ghost only_now = { λ d faithful image stop s inside.
        (stop.0, F.only_now d.file faithful stop.0 stop.1, stop.2 s inside) };

    fn sectors(&self) -> u32 {
        self.sectors
    }

    fn failures(&self) -> u64 {
        self.failures
    }

    // Each call has the clauses of the trait. Once a sync has failed, it fails.
    fn read(&mut self, sector: u32, bytes: &mut [u8; SECTOR_SIZE]) -> Result<(), DeviceFault>
        requires { sector < (file_device_state self.old).sectors }
        ensures history { KeepsHistory (file_device_state self.old) (file_device_state self.new) }
        ensures only_reads { (file_device_state self.old).faithful
            → OnlyReads (file_device_state self.old) (file_device_state self.new) }
        ensures bytes { (file_device_state self.old).faithful
            → OnOk result (bytes.new ≡ (file_device_state self.old).content sector) }
        ensures cause { OnErr result
            (HasFailed (file_device_state self.old) (file_device_state self.new)) }
        ensures closed { has_failed_sync self.old ≡ true
            → IsErr result × (file_of self.new ≡ file_of self.old) }
        ensures has_failed_sync { has_failed_sync self.new ≡ has_failed_sync self.old }
    {
        if self.has_failed_sync {
            self.failures = self.failures.saturating_add(1);
            return Err(DeviceFault);
        }
        match self.file.read_at(SECTOR_SIZE as u64 * sector as u64, bytes) {
            Ok(()) => Ok(()),
            Err(_) => {
                self.failures = self.failures.saturating_add(1);
                Err(DeviceFault)
            }
        }
    }

    fn write(&mut self, sector: u32, bytes: &[u8; SECTOR_SIZE]) -> Result<(), DeviceFault>
        requires { sector < (file_device_state self.old).sectors }
        ensures history { KeepsHistory (file_device_state self.old) (file_device_state self.new) }
        ensures writes { (file_device_state self.old).faithful
            → Writes sector bytes.now (file_device_state self.old) (file_device_state self.new) }
        ensures written { (file_device_state self.old).faithful
            → OnOk result ((file_device_state self.new).content sector ≡ bytes.now) }
        ensures cause { OnErr result
            (HasFailed (file_device_state self.old) (file_device_state self.new)) }
        ensures closed { has_failed_sync self.old ≡ true
            → IsErr result × (file_of self.new ≡ file_of self.old) }
        ensures has_failed_sync { has_failed_sync self.new ≡ has_failed_sync self.old }
    {
        if self.has_failed_sync {
            self.failures = self.failures.saturating_add(1);
            return Err(DeviceFault);
        }
        match self
            .file
            .write_at(SECTOR_SIZE as u64 * sector as u64, bytes)
        {
            Ok(()) => Ok(()),
            Err(_) => {
                self.failures = self.failures.saturating_add(1);
                Err(DeviceFault)
            }
        }
    }

    fn read_page(&mut self, first: u32, bytes: &mut [u8; PAGE_SIZE]) -> Result<(), DeviceFault>
        requires { first + SECTORS_PER_PAGE ≤ (file_device_state self.old).sectors }
        ensures history { KeepsHistory (file_device_state self.old) (file_device_state self.new) }
        ensures only_reads { (file_device_state self.old).faithful
            → ReadsPage (file_device_state self.old) (file_device_state self.new) }
        ensures bytes { (file_device_state self.old).faithful
            → OnOk result (HoldsPage first bytes.new (file_device_state self.old).content) }
        ensures cause { OnErr result
            (HasFailed (file_device_state self.old) (file_device_state self.new)) }
        ensures closed { has_failed_sync self.old ≡ true
            → IsErr result × (file_of self.new ≡ file_of self.old) }
        ensures has_failed_sync { has_failed_sync self.new ≡ has_failed_sync self.old }
    {
        if self.has_failed_sync {
            self.failures = self.failures.saturating_add(1);
            return Err(DeviceFault);
        }
        match self
            .file
            .read_page_at(SECTOR_SIZE as u64 * first as u64, bytes)
        {
            Ok(()) => Ok(()),
            Err(_) => {
                self.failures = self.failures.saturating_add(1);
                Err(DeviceFault)
            }
        }
    }

    fn write_page(&mut self, first: u32, bytes: &[u8; PAGE_SIZE]) -> Result<(), DeviceFault>
        requires { first + SECTORS_PER_PAGE ≤ (file_device_state self.old).sectors }
        ensures history { KeepsHistory (file_device_state self.old) (file_device_state self.new) }
        ensures writes { (file_device_state self.old).faithful
            → WritesPage first bytes.now (file_device_state self.old) (file_device_state self.new) }
        ensures written { (file_device_state self.old).faithful
            → OnOk result (HoldsPage first bytes.now (file_device_state self.new).content) }
        ensures cause { OnErr result
            (HasFailed (file_device_state self.old) (file_device_state self.new)) }
        ensures closed { has_failed_sync self.old ≡ true
            → IsErr result × (file_of self.new ≡ file_of self.old) }
        ensures has_failed_sync { has_failed_sync self.new ≡ has_failed_sync self.old }
    {
        if self.has_failed_sync {
            self.failures = self.failures.saturating_add(1);
            return Err(DeviceFault);
        }
        match self
            .file
            .write_page_at(SECTOR_SIZE as u64 * first as u64, bytes)
        {
            Ok(()) => Ok(()),
            Err(_) => {
                self.failures = self.failures.saturating_add(1);
                Err(DeviceFault)
            }
        }
    }

    fn sync(&mut self) -> Result<(), DeviceFault>
        ensures history { KeepsHistory (file_device_state self.old) (file_device_state self.new) }
        ensures only_reads { (file_device_state self.old).faithful
            → OnlyReads (file_device_state self.old) (file_device_state self.new) }
        ensures synced { (file_device_state self.old).faithful
            → OnOk result (IsSynced (file_device_state self.new)) }
        ensures cause { OnErr result
            (HasFailed (file_device_state self.old) (file_device_state self.new)) }
        ensures closed { has_failed_sync self.old ≡ true
            → IsErr result × (file_of self.new ≡ file_of self.old) }
        ensures remembered { OnErr result (has_failed_sync self.new ≡ true) }
        ensures has_not_failed { OnOk result (has_failed_sync self.new ≡ false) }
    {
        if self.has_failed_sync {
            self.failures = self.failures.saturating_add(1);
            return Err(DeviceFault);
        }
        match self.file.sync() {
            Ok(()) => Ok(()),
            Err(_) => {
                self.has_failed_sync = true;
                self.failures = self.failures.saturating_add(1);
                Err(DeviceFault)
            }
        }
    }
}
