//! A file of the system.
use crate::{PAGE_SIZE, RawFile, SECTOR_SIZE};
use std::fs::File;
use std::io;
use std::os::unix::fs::FileExt;

/// A file of the system, below the device of a real file. No contract can know what the system
/// does, so none promises anything here: `faithful` is met by no file of the system. What
/// `FileDevice` does is proved over every raw file, and a file in memory meets `RawFile`. That the
/// system's file does what `RawFile` says is the premise of all promises over a real file. Each
/// call makes one call of the system, but for the first writes to a file that was there.
#[derive(Drop)]
pub struct SystemFile {
    file: File,
    first_page: FirstPage,
}

// What is known of the first page of a file.
#[derive(Clone, Copy, PartialEq, Eq, Drop)]
enum FirstPage {
    // It may be in the system's memory alone.
    InMemory,
    // It was written again as it is read, and no sync has followed.
    Rewritten,
    // It is on the disk as it is read, but for what was written since.
    OnDisk,
}

impl SystemFile {
    /// The raw file of a file that was there when it was opened.
    ///
    /// A system whose sync failed may count as written what is not on the disk, and give it to whoever
    /// opens the file again. Were a root such bytes, a commit would write over pages that the root
    /// on the disk needs. So before the first write the first page, where the roots are, is written
    /// again as it is read, and brought to the disk. All other pages that a root reaches came to the
    /// disk by a sync that succeeded, before the root was written. Where that first write is itself one
    /// of the first page as it is read, nothing is written twice.
    pub fn opened(file: File) -> SystemFile {
        SystemFile {
            file,
            first_page: FirstPage::InMemory,
        }
    }

    /// The raw file of a new file, all of whose bytes are on the disk.
    pub fn made(file: File) -> SystemFile {
        SystemFile {
            file,
            first_page: FirstPage::OnDisk,
        }
    }

    // Writes the first page again as it is read, and brings it to the disk.
    fn renew(&mut self) -> io::Result<()> {
        if self.first_page == FirstPage::OnDisk {
            return Ok(());
        }
        let bytes = self.first_page()?;
        self.file.write_all_at(&bytes, 0)?;
        self.file.sync_data()?;
        self.first_page = FirstPage::OnDisk;
        Ok(())
    }

    // Whether a write of this page is one of the first page as it is read, before it is known to be on
    // the disk.
    fn is_rewrite(&self, offset: u64, bytes: &[u8; PAGE_SIZE]) -> io::Result<bool> {
        if offset != 0 || self.first_page == FirstPage::OnDisk {
            return Ok(false);
        }
        Ok(self.first_page()? == *bytes)
    }

    // The first page as it is read.
    fn first_page(&self) -> io::Result<[u8; PAGE_SIZE]> {
        let mut bytes = [0; PAGE_SIZE];
        self.file.read_exact_at(&mut bytes, 0)?;
        Ok(bytes)
    }
}

impl RawFile for SystemFile {
    ghost use Rattle.sector_device.specs.SystemFile.{unsaid};

    ghost faithful = { λ file. ⊥ };

    ghost state = { λ file. unsaid };

    ghost bytes_left = { λ file never. absurd never };

    ghost keeps_length = { λ file x never. absurd never };

    ghost only_now = { λ file never. absurd never };

    fn length(&self) -> io::Result<u64> {
        Ok(self.file.metadata()?.len())
    }

    fn read_at(&mut self, offset: u64, bytes: &mut [u8; SECTOR_SIZE]) -> io::Result<()> {
        self.file.read_exact_at(bytes, offset)
    }

    fn write_at(&mut self, offset: u64, bytes: &[u8; SECTOR_SIZE]) -> io::Result<()> {
        self.renew()?;
        self.file.write_all_at(bytes, offset)
    }

    fn read_page_at(&mut self, offset: u64, bytes: &mut [u8; PAGE_SIZE]) -> io::Result<()> {
        self.file.read_exact_at(bytes, offset)
    }

    fn write_page_at(&mut self, offset: u64, bytes: &[u8; PAGE_SIZE]) -> io::Result<()> {
        if self.is_rewrite(offset, bytes)? {
            self.file.write_all_at(bytes, offset)?;
            self.first_page = FirstPage::Rewritten;
            return Ok(());
        }
        self.renew()?;
        self.file.write_all_at(bytes, offset)
    }

    // The file's length was made durable when it was made and never changes, so its bytes are all
    // that is left to bring to the disk.
    fn sync(&mut self) -> io::Result<()> {
        self.file.sync_data()?;
        if self.first_page == FirstPage::Rewritten {
            self.first_page = FirstPage::OnDisk;
        }
        Ok(())
    }
}
