//! A device that keeps sectors beside, over one that keeps none.
ghost use Rattle.std.specs.Prelude.{◌≡◌, ℕ};
ghost use Rattle.sector_device.specs.Beside.{guarded_state};

use crate::first_page::write_in_first_page;
use crate::{Device, DeviceFault, PAGE_SIZE, ProtectedSectors, SECTOR_SIZE};

/// The device below, of which the six sectors behind the two root sectors are kept beside: no call of
/// `Device` writes them, and `write_protected` alone does, by one write of the first page. Its failures
/// are those of the device below.
#[derive(Drop)]
pub struct WriteProtected<D: Device> {
    device: D,
    ghost plain: { (s : ℕ) → (D.state device).beside s → ⊥ },
}

impl<D: Device> WriteProtected<D> {
    ghost use Rattle.sector_device.specs.WriteProtected.{device_in};

    /// The device, with these sectors beside.
    pub fn new(device: D) -> WriteProtected<D>
        requires plain { (s : ℕ) → (D.state device).beside s → ⊥ }
        ensures { device_in result ≡ device }
    {
        WriteProtected { device }
    }

    /// The device below.
    pub fn device(&self) -> &D
        ensures { result.now ≡ device_in self.now }
    {
        &self.device
    }

    /// Gives the device below back, as it is.
    pub fn into_device(self) -> D
        ensures device { result ≡ device_in self }
        ensures plain { (s : ℕ) → (D.state result).beside s → ⊥ }
    {
        let WriteProtected { device } = self;
        device
    }
}

impl<D: Device> Device for WriteProtected<D> {
    ghost state = { λ g. guarded_state (D.state g.device) };

    ghost content_left = { λ g s faithful inside. D.content_left g.device s faithful inside };

    ghost beside_behind = { λ g s behind. behind };

    ghost only_now = { λ g faithful. D.only_now g.device faithful };

    fn sectors(&self) -> u32 {
        self.device.sectors()
    }

    fn failures(&self) -> u64 {
        self.device.failures()
    }

    fn read(&mut self, sector: u32, bytes: &mut [u8; SECTOR_SIZE]) -> Result<(), DeviceFault> {
        self.device.read(sector, bytes)
    }

    fn write(&mut self, sector: u32, bytes: &[u8; SECTOR_SIZE]) -> Result<(), DeviceFault> {
        self.device.write(sector, bytes)
    }

    fn read_page(&mut self, first: u32, bytes: &mut [u8; PAGE_SIZE]) -> Result<(), DeviceFault> {
        self.device.read_page(first, bytes)
    }

    fn write_page(&mut self, first: u32, bytes: &[u8; PAGE_SIZE]) -> Result<(), DeviceFault> {
        self.device.write_page(first, bytes)
    }

    fn sync(&mut self) -> Result<(), DeviceFault> {
        self.device.sync()
    }
}

impl<D: Device> ProtectedSectors for WriteProtected<D> {
    fn write_protected(
        &mut self,
        first: u32,
        sectors: &[[u8; SECTOR_SIZE]],
    ) -> Result<(), DeviceFault> {
        write_in_first_page(&mut self.device, first, sectors)
    }
}
