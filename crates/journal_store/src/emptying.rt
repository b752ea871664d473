//! The root sector beside that of the root, where it says that there is a journal.
ghost use Rattle.std.specs.Prelude.{◌≡◌, ◌≤◌, ◌+◌, ◌↔◌, IsTrue, OnOk, OnErr};
ghost use Rattle.sector_device.specs.Device.{KeepsHistory, HasFailed};
ghost use Rattle.page_roots.specs.Root.{home};
ghost use Rattle.page_roots.specs.Sector.{root_at};
ghost use Rattle.journal_store.specs.Emptying.{SaysNoJournal, EmptiesSector, IsRid, RidsOfOlder};

use crate::switch_fault::SwitchFault;
use page_roots::{RootSector, empty_sector, read_root};
use sector_device::{Device, DeviceFault, SECTOR_SIZE};
use store::StoreFault;

// Whether a root sector is empty, or its root says that there is no journal.
fn says_no_journal(sector: u32, bytes: &[u8; SECTOR_SIZE]) -> bool
    ensures { IsTrue result ↔ SaysNoJournal (root_at sector bytes.now) }
{
    match read_root(sector, bytes) {
        RootSector::Empty => true,
        RootSector::Found(root) => !root.format().has_journal(),
        RootSector::Malformed => false,
    }
}

// Empties a root sector, 0 or 1, if it says that there is a journal, and makes last what was written last.
fn empty_sector_of_journal<D: Device>(device: &mut D, sector: u32) -> Result<(), DeviceFault>
    requires root { sector ≤ 1 }
    requires room { 2 ≤ (D.state device.old).sectors }
    ensures history { KeepsHistory (D.state device.old) (D.state device.new) }
    ensures empties { (D.state device.old).faithful
        → EmptiesSector sector (D.state device.old) (D.state device.new) }
    ensures rid { (D.state device.old).faithful
        → OnOk result (IsRid sector (D.state device.old) (D.state device.new)) }
    ensures cause { OnErr result (HasFailed (D.state device.old) (D.state device.new)) }
{
    let mut bytes = [0; SECTOR_SIZE];
    device.read(sector, &mut bytes)?;
    if says_no_journal(sector, &bytes) {
        return device.sync();
    }
    device.write(sector, &empty_sector())?;
    device.sync()
}

// The root sector beside that of the root of this number.
fn other_root_sector(number: u64) -> u32
    ensures { result ≡ home (number + 1) }
{
    if number % 2 == 0 { 1 } else { 0 }
}

// Empties the root sector beside that of the root of this number, if it says that there is a journal, and hands the device back.
pub(crate) fn rid_of_older<D: Device>(device: D, number: u64) -> (D, Result<u64, SwitchFault>)
    requires { 2 ≤ (D.state device).sectors }
    ensures { RidsOfOlder number result.1 (D.state device) (D.state result.0) }
{
    let mut device = device;
    let sector = other_root_sector(number);
    match empty_sector_of_journal(&mut device, sector) {
        Ok(()) => (device, Ok(number)),
        Err(_) => (device, Err(SwitchFault::Refused(StoreFault::Device))),
    }
}
