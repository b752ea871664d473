//! Sectors of devices, where the devices have them.

use sector_device::{Device, DeviceFault, MemDevice, SECTOR_SIZE};

/// The content of a sector, where the device has it.
pub fn content_of<D: Device>(
    device: &mut D,
    sector: u32,
) -> Result<[u8; SECTOR_SIZE], DeviceFault> {
    let mut bytes = [0; SECTOR_SIZE];
    if sector >= device.sectors() {
        return Err(DeviceFault);
    }
    device.read(sector, &mut bytes)?;
    Ok(bytes)
}

/// Writes a sector of a device in memory, where the device has it.
pub fn put(
    device: &mut MemDevice,
    sector: u32,
    bytes: &[u8; SECTOR_SIZE],
) -> Result<(), DeviceFault> {
    if sector >= device.sectors() {
        return Err(DeviceFault);
    }
    device.write(sector, bytes)
}
