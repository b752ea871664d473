//! A file in memory.
ghost use Rattle.std.specs.Prelude.{◌≡◌, length, IfOk};
ghost use Rattle.std.proofs.Common.{inl, refl};
ghost use Rattle.sector_device.specs.MemoryFile.{file_in_memory, keeps_length};

use crate::bytes::put_bytes;
use crate::{PAGE_SIZE, RawFile, SECTOR_SIZE};
use std::alloc::{AllocError, Global};
use std::io;

/// A file in memory, for tests of the device over a file. It allocates when it is made alone.
#[derive(Drop)]
pub struct MemFile {
    bytes: Vec<u8>,
    synced: Vec<u8>,
    ghost same_length: { length synced.items ≡ length bytes.items },
}

impl MemFile {
    ghost use Rattle.std.specs.Prelude.{◌+◌, ◌≤◌, ◌<◌, ◌^◌, OnOk, IsOk};
    ghost use Rattle.sector_device.specs.RawFile.{IsFileSynced};
    ghost use Rattle.sector_device.specs.MemFileState.{mem_file_state};

    /// A file of these bytes, synced.
    pub fn new(alloc: Global, bytes: &[u8]) -> Result<MemFile, AllocError>
        ensures bytes { IfOk result (λ f. (mem_file_state f).bytes ≡ bytes.now) }
        ensures synced { IfOk result (λ f. IsFileSynced (mem_file_state f)) }
    {
        let synced = Vec::from_slice(alloc, bytes)?;
        let bytes = Vec::from_slice(alloc, bytes)?;
        Ok(MemFile { bytes, synced })
    }

    /// Its bytes.
    pub fn bytes(&self) -> &[u8]
        ensures { result.now ≡ (mem_file_state self.now).bytes }
    {
        self.bytes.as_slice()
    }

    // The index of the first of so many bytes from `offset` on, where the file has them.
    fn start_of(&self, offset: u64, size: usize) -> io::Result<usize>
        ensures start { IfOk result (λ start. start ≡ offset) }
        ensures succeeds { offset + size ≤ length self.now.bytes.items → IsOk result }
        ensures inside { OnOk result (offset + size ≤ length self.now.bytes.items) }
        ensures fits { OnOk result (offset + size < 2 ^ 64) }
    {
        if self.bytes.len() < size || offset > (self.bytes.len() - size) as u64 {
            return Err(io::ErrorKind::UnexpectedEof.into());
        }
        Ok(offset as usize)
    }
}

impl RawFile for MemFile {
    ghost use Rattle.std.specs.Prelude.{◌+◌, ◌≤◌, ℕ, Ok, IsOk, OnOk};
    ghost use Rattle.sector_device.specs.FilePage.{IsPageAt, FileWritesPage, page_bytes_at};
    ghost use Rattle.sector_device.specs.RawFile.{FileOnlyReads, FileWrites, IsSectorAt, IsFileSynced, bytes_at, put};
    ghost use Rattle.sector_device.specs.MemFileState.{mem_file_state};

    ghost faithful = { λ _. Unit {0} };

    ghost state = { λ f. file_in_memory f.bytes.items f.synced.items };

    ghost bytes_left = { λ f faithful. inl refl };

    ghost keeps_length = { λ f x faithful. keeps_length f.bytes.items f.synced.items x f.same_length };

    ghost only_now = { λ f faithful x none. absurd none };

    fn length(&self) -> io::Result<u64>
        ensures { result ≡ Ok (length (mem_file_state self.now).bytes) }
    {
        Ok(self.bytes.len() as u64)
    }

    // The others have the clauses of the trait, and succeed within the file.
    fn read_at(&mut self, offset: u64, bytes: &mut [u8; SECTOR_SIZE]) -> io::Result<()>
        ensures only_reads { FileOnlyReads (mem_file_state self.old) (mem_file_state self.new) }
        ensures bytes { OnOk result (bytes.new ≡ bytes_at offset (mem_file_state self.old).bytes) }
        ensures succeeds { offset + SECTOR_SIZE ≤ length (mem_file_state self.old).bytes
            → IsOk result }
    {
        let start = self.start_of(offset, SECTOR_SIZE)?;
        bytes.copy_from_slice(&self.bytes[start..start + SECTOR_SIZE]);
        Ok(())
    }

    fn write_at(&mut self, offset: u64, bytes: &[u8; SECTOR_SIZE]) -> io::Result<()>
        ensures writes { IsSectorAt offset (mem_file_state self.old)
            → FileWrites offset bytes.now (mem_file_state self.old) (mem_file_state self.new) }
        ensures written { OnOk result ((mem_file_state self.new).bytes
            ≡ put offset bytes.now (mem_file_state self.old).bytes) }
        ensures succeeds { offset + SECTOR_SIZE ≤ length (mem_file_state self.old).bytes
            → IsOk result }
    {
        let start = self.start_of(offset, SECTOR_SIZE)?;
        put_bytes(&mut self.bytes, start, bytes);
        Ok(())
    }

    fn read_page_at(&mut self, offset: u64, bytes: &mut [u8; PAGE_SIZE]) -> io::Result<()>
        ensures only_reads { FileOnlyReads (mem_file_state self.old) (mem_file_state self.new) }
        ensures bytes { OnOk result
            (bytes.new ≡ page_bytes_at offset (mem_file_state self.old).bytes) }
        ensures succeeds { offset + PAGE_SIZE ≤ length (mem_file_state self.old).bytes
            → IsOk result }
    {
        let start = self.start_of(offset, PAGE_SIZE)?;
        bytes.copy_from_slice(&self.bytes[start..start + PAGE_SIZE]);
        Ok(())
    }

    fn write_page_at(&mut self, offset: u64, bytes: &[u8; PAGE_SIZE]) -> io::Result<()>
        ensures writes { (first : ℕ) → IsPageAt first offset (mem_file_state self.old)
            → FileWritesPage first bytes.now
            (mem_file_state self.old) (mem_file_state self.new) }
        ensures written { OnOk result ((mem_file_state self.new).bytes
            ≡ put offset bytes.now (mem_file_state self.old).bytes) }
        ensures succeeds { offset + PAGE_SIZE ≤ length (mem_file_state self.old).bytes
            → IsOk result }
    {
        let start = self.start_of(offset, PAGE_SIZE)?;
        put_bytes(&mut self.bytes, start, bytes);
        Ok(())
    }

    fn sync(&mut self) -> io::Result<()>
        ensures only_reads { FileOnlyReads (mem_file_state self.old) (mem_file_state self.new) }
        ensures synced { IsFileSynced (mem_file_state self.new) }
        ensures succeeds { IsOk result }
    {
        self.synced.copy_from_slice(&self.bytes);
        Ok(())
    }
}
