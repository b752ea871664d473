//! What devices hold after a stop.

use crate::stops::choices::{CHOICES, Choice};
use crate::stops::fault::TestFault;
use crate::stores::SMALL_PAGES;
use sector_device::{Device, MemDevice, SECTOR_SIZE};
use std::alloc::{AllocError, Global};

/// How many sectors a device of 64 pages has.
const SECTORS: u32 = 512;

/// The content of a sector.
type Sector = [u8; SECTOR_SIZE];

/// What a device holds after a stop: the content of each sector at the last sync, and the last one.
pub struct Image {
    synced: Vec<Sector>,
    last: Vec<Sector>,
}

// Written and not derived: where a value is dropped this is one call, and not its parts one by one.
impl Drop for Image {
    fn drop(self) {
        let Image { synced: _, last: _ } = self;
    }
}

impl Image {
    /// What a device holds that has these bytes, and zeros behind them, all of it synced.
    pub fn of_bytes(alloc: Global, bytes: &[u8]) -> Result<Image, AllocError> {
        let synced = sectors_of(alloc, bytes)?;
        let last = sectors_of(alloc, bytes)?;
        Ok(Image { synced, last })
    }

    /// What a device holds, which is started again for it.
    pub fn of(alloc: Global, device: MemDevice) -> Result<Image, TestFault> {
        let mut device = device;
        // calls pass again, also where one that was to fail did not come
        device.stop_after(u64::MAX);
        device.fail_call(u64::MAX);
        let last = contents(alloc, &mut device)?;
        restart(&mut device, Choice::Old)?;
        let synced = contents(alloc, &mut device)?;
        Ok(Image { synced, last })
    }

    /// The choices of what a stop leaves of it. Where no sector is unsynced, all choices are one.
    pub fn choices(&self, alloc: Global) -> Result<Vec<Choice>, AllocError> {
        let mut choices = Vec::from_slice(alloc, &CHOICES)?;
        for sector in 0..SECTORS {
            if self.synced.get(sector as usize) != self.last.get(sector as usize) {
                choices.push(Choice::Single(sector))?;
            }
        }
        if choices.len() == CHOICES.len() {
            choices.truncate(1);
        }
        Ok(choices)
    }

    /// Whether each sector was last given the same content as in another image.
    pub fn has_content_of(&self, other: &Image) -> bool {
        self.last.as_slice() == other.last.as_slice()
    }

    /// The device as it is, where it was not started again: what is unsynced is unsynced still.
    pub fn running(&self, alloc: Global) -> Result<MemDevice, TestFault> {
        let mut device = MemDevice::new(alloc, SMALL_PAGES)?;
        write_all(&mut device, self.synced.as_slice())?;
        device.sync()?;
        write_all(&mut device, self.last.as_slice())?;
        Ok(device)
    }

    /// The device, started again.
    pub fn restarted(&self, alloc: Global, choice: Choice) -> Result<MemDevice, TestFault> {
        let mut device = self.running(alloc)?;
        restart(&mut device, choice)?;
        Ok(device)
    }
}

/// The content of each sector of a device that has these bytes, and zeros behind them.
fn sectors_of(alloc: Global, bytes: &[u8]) -> Result<Vec<Sector>, AllocError> {
    let mut sectors = Vec::new(alloc);
    for sector in 0..SECTORS {
        let start = (sector as usize).saturating_mul(SECTOR_SIZE);
        sectors.push(sector_of(bytes.get(start..).unwrap_or(&[])))?;
    }
    Ok(sectors)
}

/// A sector that begins with these bytes, as many as it has, and zeros behind them.
fn sector_of(bytes: &[u8]) -> Sector {
    let mut sector = [0; SECTOR_SIZE];
    for at in 0..bytes.len().min(SECTOR_SIZE) {
        sector[at] = bytes[at];
    }
    sector
}

/// The content of each sector.
fn contents(alloc: Global, device: &mut MemDevice) -> Result<Vec<Sector>, TestFault> {
    let mut contents = Vec::new(alloc);
    for sector in 0..device.sectors() {
        contents.push(content(device, sector)?)?;
    }
    Ok(contents)
}

/// The content of a sector.
fn content(device: &mut MemDevice, sector: u32) -> Result<Sector, TestFault> {
    let mut bytes = [0; SECTOR_SIZE];
    if sector >= device.sectors() {
        return Err(TestFault::AnotherSize);
    }
    device.read(sector, &mut bytes)?;
    Ok(bytes)
}

/// Writes the sectors from the first on.
fn write_all(device: &mut MemDevice, contents: &[Sector]) -> Result<(), TestFault> {
    let mut sector = 0u32;
    for bytes in contents {
        if sector >= device.sectors() {
            return Err(TestFault::AnotherSize);
        }
        device.write(sector, bytes)?;
        sector = sector.saturating_add(1);
    }
    Ok(())
}

/// Starts a device again by a choice.
fn restart(device: &mut MemDevice, choice: Choice) -> Result<(), TestFault> {
    if device.sectors() != SECTORS {
        return Err(TestFault::AnotherSize);
    }
    device.restart(&choice.sectors());
    Ok(())
}
