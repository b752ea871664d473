//! A device that knows what was written since the last sync.

use sector_device::{Device, DeviceFault, SECTOR_SIZE};

/// How many sectors the devices have.
pub const SECTORS: u32 = 512;

/// A device of so many sectors, how many sectors were written and how many syncs made, and which sectors were written since the last one.
pub struct LoggedDevice<D: Device> {
    pub device: D,
    pub writes: u64,
    pub syncs: u64,
    pub unsynced: [bool; SECTORS as usize],
}

// Written and not derived: where a value is dropped this is one call, and not its parts one by one.
impl<D: Device + Drop> Drop for LoggedDevice<D> {
    fn drop(self) {
        let LoggedDevice {
            device: _,
            writes: _,
            syncs: _,
            unsynced: _,
        } = self;
    }
}

impl<D: Device> LoggedDevice<D> {
    /// A device of which nothing was written.
    pub fn new(device: D) -> LoggedDevice<D> {
        LoggedDevice {
            device,
            writes: 0,
            syncs: 0,
            unsynced: [false; SECTORS as usize],
        }
    }

    /// The device below.
    pub fn into_device(self) -> D {
        let LoggedDevice {
            device,
            writes: _,
            syncs: _,
            unsynced: _,
        } = self;
        device
    }
}

impl<D: Device> Device for LoggedDevice<D> {
    ghost state = { λ d. D.state d.device };

    ghost content_left = { λ d s faithful inside. D.content_left d.device s faithful inside };

    ghost beside_behind = { λ d s none. D.beside_behind d.device s none };

    ghost only_now = { λ d faithful. D.only_now d.device faithful };

    fn sectors(&self) -> u32 {
        self.device.sectors()
    }

    fn failures(&self) -> u64 {
        self.device.failures()
    }

    fn read(&mut self, sector: u32, bytes: &mut [u8; SECTOR_SIZE]) -> Result<(), DeviceFault> {
        self.device.read(sector, bytes)
    }

    fn write(&mut self, sector: u32, bytes: &[u8; SECTOR_SIZE]) -> Result<(), DeviceFault> {
        self.device.write(sector, bytes)?;
        self.writes = self.writes.wrapping_add(1);
        if let Some(is_unsynced) = self.unsynced.get_mut(sector as usize) {
            *is_unsynced = true;
        }
        Ok(())
    }

    fn sync(&mut self) -> Result<(), DeviceFault> {
        self.device.sync()?;
        self.syncs = self.syncs.wrapping_add(1);
        self.unsynced = [false; SECTORS as usize];
        Ok(())
    }
}
