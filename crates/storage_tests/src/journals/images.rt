//! What devices of a test hold.

use crate::journals::devices::{PAGES, TestDevice};
use crate::journals::logged::SECTORS;
use crate::sectors::{content_of, put};
use anyhow::{Result, bail};
use sector_device::{Device, DeviceFault, MemDevice, SECTOR_SIZE};
use std::alloc::{AllocError, Global};

/// Which unsynced sectors have their last content after a stop: none, all, those of even or of odd number, or a single one.
#[derive(Clone, Copy)]
pub enum SectorChoice {
    Old,
    New,
    Even,
    Odd,
    Single(u32),
}

impl SectorChoice {
    /// Whether a sector has its last content.
    pub fn is_new(self, sector: u32) -> bool {
        match self {
            SectorChoice::Old => false,
            SectorChoice::New => true,
            SectorChoice::Even => sector % 2 == 0,
            SectorChoice::Odd => sector % 2 == 1,
            SectorChoice::Single(number) => sector == number,
        }
    }
}

/// A sector that is not zero, or was written since the last sync: its number, its content at the last sync, and its last one.
#[derive(Clone, Copy)]
struct HeldSector {
    number: u32,
    is_unsynced: bool,
    synced: [u8; SECTOR_SIZE],
    last: [u8; SECTOR_SIZE],
}

/// What a device holds.
pub struct TestImage {
    alloc: Global,
    sectors: Vec<HeldSector>,
}

// Written and not derived: where a value is dropped this is one call, and not its parts one by one.
impl Drop for TestImage {
    fn drop(self) {
        let TestImage {
            alloc: _,
            sectors: _,
        } = self;
    }
}

impl TestImage {
    /// What a device holds. It is started again for that.
    pub fn of(alloc: Global, device: TestDevice) -> Result<TestImage> {
        let logged = device.into_guarded().into_device();
        let unsynced = logged.unsynced;
        let mut device = logged.into_device();
        // calls pass again
        device.stop_after(u64::MAX);
        let mut sectors = Vec::new(alloc);
        take_sectors(&mut device, &unsynced, &mut sectors)?;
        Ok(TestImage { alloc, sectors })
    }

    /// Which choices there are of the unsynced sectors. Where none is unsynced, all choices are one.
    pub fn choices(&self) -> Result<Vec<SectorChoice>, AllocError> {
        let mut choices = Vec::from_slice(
            self.alloc,
            &[
                SectorChoice::Old,
                SectorChoice::New,
                SectorChoice::Even,
                SectorChoice::Odd,
            ],
        )?;
        for held in &self.sectors {
            if held.is_unsynced {
                choices.push(SectorChoice::Single(held.number))?;
            }
        }
        if choices.len() == 4 {
            choices.truncate(1);
        }
        Ok(choices)
    }

    /// What the device holds after a stop.
    pub fn restarted(&self, choice: SectorChoice) -> Result<TestImage, AllocError> {
        let mut sectors = self.sectors.clone()?;
        for held in sectors.iter_mut() {
            if choice.is_new(held.number) {
                held.synced = held.last;
            } else {
                held.last = held.synced;
            }
            held.is_unsynced = false;
        }
        Ok(TestImage {
            alloc: self.alloc,
            sectors,
        })
    }

    /// What a sector was given last.
    pub fn last_content(&self, sector: u32) -> [u8; SECTOR_SIZE] {
        for held in &self.sectors {
            if held.number == sector {
                return held.last;
            }
        }
        [0; SECTOR_SIZE]
    }

    /// A device that holds this: what is unsynced is unsynced still.
    pub fn device(&self) -> Result<TestDevice> {
        let mut device = MemDevice::new(self.alloc, PAGES)?;
        self.put_on(&mut device)?;
        Ok(TestDevice::new(device))
    }

    /// Writes the contents at the last sync to a device, syncs it, and writes the last ones.
    fn put_on(&self, device: &mut MemDevice) -> Result<(), DeviceFault> {
        for held in &self.sectors {
            put(device, held.number, &held.synced)?;
        }
        device.sync()?;
        for held in &self.sectors {
            put(device, held.number, &held.last)?;
        }
        Ok(())
    }
}

impl HeldSector {
    /// Whether it says nothing: it is zero, after a stop too, and was not written since the last sync.
    fn is_idle(&self) -> bool {
        !self.is_unsynced && self.synced == [0; SECTOR_SIZE] && self.last == [0; SECTOR_SIZE]
    }
}

/// Takes the sectors of a device that say something, of which these were written since the last sync.
fn take_sectors(
    device: &mut MemDevice,
    unsynced: &[bool],
    sectors: &mut Vec<HeldSector>,
) -> Result<()> {
    for number in 0..SECTORS {
        let last = content_of(device, number)?;
        sectors.push(HeldSector {
            number,
            is_unsynced: unsynced.get(number as usize).copied().unwrap_or(false),
            synced: last,
            last,
        })?;
    }
    take_synced(device, sectors)
}

/// Starts a device again with all sectors as they were at the last sync, and takes the contents that they had there.
fn take_synced(device: &mut MemDevice, sectors: &mut Vec<HeldSector>) -> Result<()> {
    if device.sectors() != SECTORS {
        bail!("a device of another size");
    }
    device.restart(&[false; SECTORS as usize]);
    for held in sectors.iter_mut() {
        held.synced = content_of(device, held.number)?;
    }
    sectors.retain(|held| !held.is_idle());
    Ok(())
}
