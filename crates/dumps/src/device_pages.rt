//! Pages of a device, read and written one after the other.
ghost use Rattle.std.specs.Prelude.{◌≡◌, ◌≤◌, ◌<◌, ◌+◌, ◌*◌, ◌/◌, ◌%◌, ℕ, length, take, drop, IfOk, IfErr, OnOk, OnErr};
ghost use Rattle.sector_device.specs.Device.{KeepsHistory, HasFailed};
ghost use Rattle.sector_device.specs.Page.{IsOutside};
ghost use Rattle.cow_pages.specs.Held.{KeepsContent};
ghost use Rattle.dumps.specs.OnDevice.{bytes_from};

use sector_device::{Device, DeviceFault, read_page, write_page};
use std::alloc::Global;
use storage_sizes::{PAGE_SIZE, SECTORS_PER_PAGE};
use store::Fault;

/// The bytes of so many pages from one on. The device is only read.
///
/// Device: the device failed. Damaged never comes.
pub(crate) fn read_pages<D: Device>(
    alloc: Global,
    device: &mut D,
    page: u32,
    count: u32,
) -> Result<Vec<u8>, Fault>
    requires { 8 * (page + count) ≤ (D.state device.old).sectors }
    ensures history { KeepsHistory (D.state device.old) (D.state device.new) }
    ensures content { (D.state device.old).faithful
        → KeepsContent (D.state device.old) (D.state device.new) }
    ensures bytes { (D.state device.old).faithful
        → IfOk result (λ bytes. bytes.items ≡ bytes_from (D.state device.old).content (8 * page) (8 * count)) }
    ensures count { IfOk result (λ bytes. length bytes.items ≡ 4096 * count) }
    ensures cause { IfErr result (λ fault. fault ≡ Fault.Device
        → HasFailed (D.state device.old) (D.state device.new)) }
    ensures undamaged { IfErr result (λ fault. fault ≡ Fault.Damaged → ⊥) }
{
    // For the proof: the number of sectors stays.
    let _sectors = device.sectors();
    let mut bytes = Vec::new(alloc);
    for index in 0..count {
        let mut read = [0; PAGE_SIZE];
        match read_page(device, SECTORS_PER_PAGE * (page + index), &mut read) {
            Ok(()) => {}
            Err(DeviceFault) => return Err(Fault::Device),
        }
        bytes.extend_from_slice(&read)?;
    }
    Ok(bytes)
}

// The page of this index among bytes.
fn page_of(bytes: &[u8], index: usize) -> [u8; PAGE_SIZE]
    requires { 4096 * index + 4096 ≤ length bytes.now }
    ensures { result ≡ take 4096 (drop (4096 * index) bytes.now) }
{
    let (_, rest) = bytes.split_at(PAGE_SIZE * index);
    let (first, _) = rest.split_at(PAGE_SIZE);
    let mut page = [0; PAGE_SIZE];
    page.copy_from_slice(first);
    page
}

/// Writes whole pages from one on, which is not the first of the device. Every other sector is left alone.
pub(crate) fn write_pages<D: Device>(
    device: &mut D,
    page: u32,
    bytes: &[u8],
) -> Result<(), DeviceFault>
    requires behind { 1 ≤ page }
    requires whole { length bytes.now % 4096 ≡ 0 }
    requires inside { 8 * (page + length bytes.now / 4096) ≤ (D.state device.old).sectors }
    ensures history { KeepsHistory (D.state device.old) (D.state device.new) }
    ensures others { (D.state device.old).faithful → (s : ℕ)
        → IsOutside (8 * page) (8 * (length bytes.now / 4096)) s
        → (D.state device.new).content s ≡ (D.state device.old).content s }
    ensures written { (D.state device.old).faithful
        → OnOk result (bytes_from (D.state device.new).content (8 * page)
        (8 * (length bytes.now / 4096)) ≡ bytes.now) }
    ensures cause { OnErr result (HasFailed (D.state device.old) (D.state device.new)) }
{
    // For the proof: the number of sectors stays.
    let _sectors = device.sectors();
    let count = bytes.len() / PAGE_SIZE;
    for index in 0..count {
        let part = page_of(bytes, index);
        write_page(device, SECTORS_PER_PAGE * (page + index as u32), &part)?;
    }
    Ok(())
}
