//! A device in memory that keeps its history.
ghost use Rattle.std.specs.Prelude.{◌≡◌, ◌<◌, ℕ, length, get_or, [], IfOk};
ghost use Rattle.sector_device.specs.History.{after, history_state};
ghost use Rattle.sector_device.specs.HistoryLaws.{content_left, only_now};

use crate::call::Call;
use crate::memory::MAX_MEMORY_PAGES;
use crate::zeros::zero_sectors;
use crate::{Device, DeviceFault, SECTOR_SIZE, SECTORS_PER_PAGE};
use std::alloc::{AllocError, Global};

/// A device in memory that keeps its history: its clock moves at every call that it notes, and of
/// each moment so far its state says what a stop may leave. A call fails where an allocation for
/// its note does.
#[derive(Drop)]
pub struct HistoryDevice {
    last: Vec<[u8; SECTOR_SIZE]>,
    calls: Vec<Call>,
    sectors: u32,
    failures: u64,
    ghost count: { length last.items ≡ sectors },
    ghost holds: { (s : ℕ) → s < sectors → get_or last.items s [] ≡ (after calls.items).content s },
}

impl HistoryDevice {
    ghost use Rattle.std.specs.Prelude.{◌≤◌, ◌*◌};
    ghost use Rattle.sector_device.specs.HistoryDevice.{calls_of, history_device_state};

    /// A device of so many pages of zeros, of which no call was made.
    pub fn new(alloc: Global, pages: u32) -> Result<HistoryDevice, AllocError>
        requires { pages ≤ MAX_MEMORY_PAGES }
        ensures sectors { IfOk result
            (λ d. (history_device_state d).sectors ≡ SECTORS_PER_PAGE * pages) }
        ensures calls { IfOk result (λ d. calls_of d ≡ []) }
        ensures failures { IfOk result (λ d. (history_device_state d).failures ≡ 0) }
    {
        let sectors = SECTORS_PER_PAGE * pages;
        let last = zero_sectors(alloc, sectors)?;
        Ok(HistoryDevice {
            last,
            calls: Vec::new(alloc),
            sectors,
            failures: 0,
        })
    }

    /// Its calls so far.
    pub fn calls(&self) -> &[Call]
        ensures { result.now ≡ calls_of self.now }
    {
        self.calls.as_slice()
    }
}

impl Device for HistoryDevice {
    ghost use Rattle.std.specs.Prelude.{OnOk, OnErr};
    ghost use Rattle.sector_device.specs.Device.{KeepsHistory, OnlyReads, Writes, HasFailed, IsSynced};
    ghost use Rattle.sector_device.specs.HistoryDevice.{history_device_state, IsNoted};

    ghost state = { λ d. history_state d.sectors d.calls.items d.failures };

    ghost content_left = { λ d s faithful inside. content_left d.calls.items s };

    ghost beside_behind = { λ d s none. absurd none };

    ghost only_now = { λ d faithful. only_now d.sectors d.calls.items d.failures };

    fn sectors(&self) -> u32 {
        self.sectors
    }

    fn failures(&self) -> u64 {
        self.failures
    }

    // Each call has the clauses of the trait, and notes itself.
    fn read(&mut self, sector: u32, bytes: &mut [u8; SECTOR_SIZE]) -> Result<(), DeviceFault>
        requires { sector < (history_device_state self.old).sectors }
        ensures history { KeepsHistory
            (history_device_state self.old) (history_device_state self.new) }
        ensures only_reads { OnlyReads
            (history_device_state self.old) (history_device_state self.new) }
        ensures bytes { OnOk result (bytes.new ≡ (history_device_state self.old).content sector) }
        ensures cause { OnErr result
            (HasFailed (history_device_state self.old) (history_device_state self.new)) }
        ensures noted { IsNoted result Call.Read self.old self.new }
    {
        match self.calls.push(Call::Read) {
            Ok(()) => {
                *bytes = self.last[sector as usize];
                Ok(())
            }
            Err(_) => {
                self.failures = self.failures.saturating_add(1);
                Err(DeviceFault)
            }
        }
    }

    fn write(&mut self, sector: u32, bytes: &[u8; SECTOR_SIZE]) -> Result<(), DeviceFault>
        requires { sector < (history_device_state self.old).sectors }
        ensures history { KeepsHistory
            (history_device_state self.old) (history_device_state self.new) }
        ensures writes { Writes sector bytes.now
            (history_device_state self.old) (history_device_state self.new) }
        ensures written { OnOk result
            ((history_device_state self.new).content sector ≡ bytes.now) }
        ensures cause { OnErr result
            (HasFailed (history_device_state self.old) (history_device_state self.new)) }
        ensures noted { IsNoted result (Call.Write sector bytes.now) self.old self.new }
    {
        match self.calls.push(Call::Write(sector, *bytes)) {
            Ok(()) => {
                self.last[sector as usize] = *bytes;
                Ok(())
            }
            Err(_) => {
                self.failures = self.failures.saturating_add(1);
                Err(DeviceFault)
            }
        }
    }

    fn sync(&mut self) -> Result<(), DeviceFault>
        ensures history { KeepsHistory
            (history_device_state self.old) (history_device_state self.new) }
        ensures only_reads { OnlyReads
            (history_device_state self.old) (history_device_state self.new) }
        ensures synced { OnOk result (IsSynced (history_device_state self.new)) }
        ensures cause { OnErr result
            (HasFailed (history_device_state self.old) (history_device_state self.new)) }
        ensures noted { IsNoted result Call.Sync self.old self.new }
    {
        match self.calls.push(Call::Sync) {
            Ok(()) => Ok(()),
            Err(_) => {
                self.failures = self.failures.saturating_add(1);
                Err(DeviceFault)
            }
        }
    }
}
