//! Files of bytes, as the device over one sees it.
ghost use Rattle.std.specs.Prelude.{◌≡◌, false, ◌↔◌, ℕ, List, length, OnOk, IfOk};
ghost use Rattle.sector_device.specs.Timeline.{IsPresent};
ghost use Rattle.sector_device.specs.RawFile.{FileState, FileOnlyReads, FileWrites, IsSectorAt, IsFileSynced, bytes_at, put};
ghost use Rattle.sector_device.specs.FilePage.{IsPageAt, FileWritesPage, page_bytes_at};

use crate::{PAGE_SIZE, SECTOR_SIZE};
use std::io;

/// A file of bytes that may stop at any moment, below a `FileDevice`. All of it is promised of a
/// faithful file, and no call makes a file faithful or unfaithful.
pub trait RawFile {
    /// It does what is said here. No call changes it.
    ghost faithful: { Self → Type 0 };

    /// What the file is at one moment.
    ghost state: { Self → FileState };

    /// How many bytes the file has.
    fn length(&self) -> io::Result<u64>
        ensures { faithful self.now → IfOk result (λ n. n ≡ length (state self.now).bytes) };

    /// Reads the bytes from `offset` on. After an error nothing is promised of `bytes`.
    fn read_at(&mut self, offset: u64, bytes: &mut [u8; SECTOR_SIZE]) -> io::Result<()>
        ensures history { faithful self.old ↔ faithful self.new }
        ensures works { faithful self.old
            → (state self.new).has_failed_sync ≡ (state self.old).has_failed_sync }
        ensures only_reads { faithful self.old → FileOnlyReads (state self.old) (state self.new) }
        ensures bytes { faithful self.old
            → OnOk result (bytes.new ≡ bytes_at offset (state self.old).bytes) };

    /// Writes the bytes from `offset` on. Where a whole sector of the file begins there, they are
    /// written whole or not at all, whenever the file stops.
    fn write_at(&mut self, offset: u64, bytes: &[u8; SECTOR_SIZE]) -> io::Result<()>
        ensures history { faithful self.old ↔ faithful self.new }
        ensures works { faithful self.old
            → (state self.new).has_failed_sync ≡ (state self.old).has_failed_sync }
        ensures writes { faithful self.old → IsSectorAt offset (state self.old)
            → FileWrites offset bytes.now (state self.old) (state self.new) }
        ensures written { faithful self.old → IsSectorAt offset (state self.old)
            → OnOk result ((state self.new).bytes ≡ put offset bytes.now (state self.old).bytes) };

    /// Reads a page's bytes from `offset` on. After an error nothing is promised of `bytes`.
    fn read_page_at(&mut self, offset: u64, bytes: &mut [u8; PAGE_SIZE]) -> io::Result<()>
        ensures history { faithful self.old ↔ faithful self.new }
        ensures works { faithful self.old
            → (state self.new).has_failed_sync ≡ (state self.old).has_failed_sync }
        ensures only_reads { faithful self.old → FileOnlyReads (state self.old) (state self.new) }
        ensures bytes { faithful self.old
            → OnOk result (bytes.new ≡ page_bytes_at offset (state self.old).bytes) };

    /// Writes a page's bytes from `offset` on. Where whole sectors of the file begin there, each of
    /// them, by itself, is written whole or not at all, whenever the file stops.
    fn write_page_at(&mut self, offset: u64, bytes: &[u8; PAGE_SIZE]) -> io::Result<()>
        ensures history { faithful self.old ↔ faithful self.new }
        ensures works { faithful self.old
            → (state self.new).has_failed_sync ≡ (state self.old).has_failed_sync }
        ensures writes { faithful self.old → (first : ℕ) → IsPageAt first offset (state self.old)
            → FileWritesPage first bytes.now (state self.old) (state self.new) }
        ensures written { faithful self.old → (first : ℕ) → IsPageAt first offset (state self.old)
            → OnOk result ((state self.new).bytes ≡ put offset bytes.now (state self.old).bytes) };

    /// Makes what was written last. After an error nothing counts as synced. Once it has failed no later
    /// `Ok` says anything, until the file is opened again: a system may count as written what is not on
    /// the disk.
    fn sync(&mut self) -> io::Result<()>
        ensures history { faithful self.old ↔ faithful self.new }
        ensures only_reads { faithful self.old → FileOnlyReads (state self.old) (state self.new) }
        ensures works { faithful self.old → OnOk result
            ((state self.new).has_failed_sync ≡ (state self.old).has_failed_sync) }
        ensures synced { faithful self.old → (state self.old).has_failed_sync ≡ false
            → OnOk result (IsFileSynced (state self.new)) };

    /// A stop may leave the bytes that are there.
    ghost bytes_left: { (file : Self) → faithful file → (state file).time.left (state file).bytes };

    /// A stop leaves no more and no fewer bytes.
    ghost keeps_length: { (file : Self) (x : List ℕ) → faithful file → (state file).time.left x
        → length x ≡ length (state file).bytes };

    /// A stop at the present moment leaves what a stop now may leave.
    ghost only_now: { (file : Self) → faithful file → IsPresent (state file).time };
}
