//! A device in memory. Its memory is taken when it is made.
ghost use Rattle.std.specs.Prelude.{◌≡◌, ℕ, length, get_or, [], IfOk};
ghost use Rattle.std.proofs.Common.{inl, refl};
ghost use Rattle.sector_device.specs.Memory.{memory_state};

use crate::zeros::zero_sectors;
use crate::{Device, DeviceFault, SECTOR_SIZE, SECTORS_PER_PAGE};
use std::alloc::{AllocError, Global};
use std::cell::Cell;

/// The most pages of a device in memory: one more than a database may have.
pub const MAX_MEMORY_PAGES: u32 = 65_537;

// How a call ends.
#[derive(Clone, Copy, PartialEq, Eq)]
enum CallEnd {
    // It is carried out.
    Passes,
    // It does nothing and fails.
    Fails,
    // It is carried out, and fails all the same.
    FailsLate,
}

/// A device in memory, for tests: it can be made to stop, to fail a call, and to start again as
/// after a stop.
pub struct MemDevice {
    last: Vec<[u8; SECTOR_SIZE]>,
    synced: Vec<[u8; SECTOR_SIZE]>,
    sectors: u32,
    failures: u64,
    reads: u64,
    writes_left: Cell<Option<u64>>,
    calls_left: Cell<Option<u64>>,
    // Whether the call that fails is carried out first.
    is_late: Cell<bool>,
    ghost last_count: { length last.items ≡ sectors },
    ghost synced_count: { length synced.items ≡ sectors },
}

// Written and not derived: where a value is dropped this is one call, and not its parts one by one.
impl Drop for MemDevice {
    fn drop(self) {
        let MemDevice {
            last: _,
            synced: _,
            sectors: _,
            failures: _,
            reads: _,
            writes_left: _,
            calls_left: _,
            is_late: _,
        } = self;
    }
}

impl MemDevice {
    ghost use Rattle.std.specs.Prelude.{◌<◌, ◌≤◌, ◌*◌, replicate, if◌then◌else◌, false};
    ghost use Rattle.sector_device.specs.Device.{KeepsHistory, IsLeft, IsSynced};
    ghost use Rattle.sector_device.specs.MemoryDevice.{memory_device_state, synced_content, reads_of};

    /// A device of so many pages of zeros, synced.
    pub fn new(alloc: Global, pages: u32) -> Result<MemDevice, AllocError>
        requires { pages ≤ MAX_MEMORY_PAGES }
        ensures sectors { IfOk result
            (λ d. (memory_device_state d).sectors ≡ SECTORS_PER_PAGE * pages) }
        ensures zeros { IfOk result (λ d. (s : ℕ) → s < SECTORS_PER_PAGE * pages
            → (memory_device_state d).content s ≡ replicate SECTOR_SIZE 0) }
        ensures synced { IfOk result (λ d. IsSynced (memory_device_state d)) }
        ensures failures { IfOk result (λ d. (memory_device_state d).failures ≡ 0) }
    {
        let sectors = SECTORS_PER_PAGE * pages;
        let last = zero_sectors(alloc, sectors)?;
        let synced = zero_sectors(alloc, sectors)?;
        Ok(MemDevice {
            last,
            synced,
            sectors,
            failures: 0,
            reads: 0,
            writes_left: Cell::new(None),
            calls_left: Cell::new(None),
            is_late: Cell::new(false),
        })
    }

    /// How many sectors were read, up to `u64::MAX`.
    pub fn reads(&self) -> u64
        ensures { result ≡ reads_of self.now }
    {
        self.reads
    }

    /// Lets so many writes pass, and from then on every call fails. No contract says so.
    pub fn stop_after(&self, writes: u64) {
        self.writes_left.set(Some(writes));
    }

    /// Lets so many calls pass, and then one fails, which does nothing. No contract says so.
    pub fn fail_call(&self, calls: u64) {
        self.calls_left.set(Some(calls));
        self.is_late.set(false);
    }

    /// Lets so many calls pass, and then one fails that has been carried out, as a write that came
    /// to the disk and was never acknowledged. No contract says so.
    pub fn fail_call_late(&self, calls: u64) {
        self.calls_left.set(Some(calls));
        self.is_late.set(true);
    }

    /// Starts again after a stop: each sector with its last content where `new` says so, and with
    /// its synced one elsewhere. That content is synced. No call is made to fail any more: a call
    /// after it passes, which no contract says either.
    pub fn restart(&mut self, new: &[bool])
        requires { length new.now ≡ (memory_device_state self.old).sectors }
        ensures history { KeepsHistory
            (memory_device_state self.old) (memory_device_state self.new) }
        ensures failures { (memory_device_state self.new).failures
            ≡ (memory_device_state self.old).failures }
        ensures left { IsLeft (memory_device_state self.old)
            (memory_device_state self.new).content }
        ensures synced { IsSynced (memory_device_state self.new) }
        ensures chosen { (s : ℕ) → s < length new.now
            → (memory_device_state self.new).content s
            ≡ (if get_or new.now s false
            then (memory_device_state self.old).content s
            else synced_content self.old s) }
    {
        for (sector, is_new) in new.iter().enumerate() {
            if *is_new {
                self.synced[sector] = self.last[sector];
            } else {
                self.last[sector] = self.synced[sector];
            }
        }
        self.writes_left.set(None);
        self.calls_left.set(None);
    }

    // How this call ends.
    fn next_end(&self, writes: bool) -> CallEnd {
        let writes_left = self.writes_left.get();
        if writes_left == Some(0) {
            return CallEnd::Fails;
        }
        let calls_left = self.calls_left.get();
        if calls_left == Some(0) {
            self.calls_left.set(None);
            return if self.is_late.get() {
                CallEnd::FailsLate
            } else {
                CallEnd::Fails
            };
        }
        self.calls_left
            .set(calls_left.map(|left| left.saturating_sub(1)));
        if writes {
            self.writes_left
                .set(writes_left.map(|left| left.saturating_sub(1)));
        }
        CallEnd::Passes
    }
}

impl Device for MemDevice {
    ghost state = { λ d. memory_state d.sectors d.last.items d.synced.items d.failures };

    ghost content_left = { λ d s faithful inside. inl refl };

    ghost beside_behind = { λ d s none. absurd none };

    ghost only_now = { λ d faithful image none. absurd none };

    fn sectors(&self) -> u32 {
        self.sectors
    }

    fn failures(&self) -> u64 {
        self.failures
    }

    fn read(&mut self, sector: u32, bytes: &mut [u8; SECTOR_SIZE]) -> Result<(), DeviceFault> {
        if self.next_end(false) != CallEnd::Passes {
            self.failures = self.failures.saturating_add(1);
            return Err(DeviceFault);
        }
        *bytes = self.last[sector as usize];
        self.reads = self.reads.saturating_add(1);
        Ok(())
    }

    fn write(&mut self, sector: u32, bytes: &[u8; SECTOR_SIZE]) -> Result<(), DeviceFault> {
        let end = self.next_end(true);
        if end != CallEnd::Fails {
            self.last[sector as usize] = *bytes;
        }
        if end != CallEnd::Passes {
            self.failures = self.failures.saturating_add(1);
            return Err(DeviceFault);
        }
        Ok(())
    }

    fn sync(&mut self) -> Result<(), DeviceFault> {
        let end = self.next_end(false);
        if end != CallEnd::Fails {
            self.synced.copy_from_slice(&self.last);
        }
        if end != CallEnd::Passes {
            self.failures = self.failures.saturating_add(1);
            return Err(DeviceFault);
        }
        Ok(())
    }
}
