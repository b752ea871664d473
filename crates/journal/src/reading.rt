//! How a journal is read.
ghost use Rattle.std.specs.Prelude.{◌≡◌, ◌≤◌, ◌<◌, ◌+◌, [], ℕ, List, Err, length, get_or, IfOk, OnOk, OnErr};
ghost use Rattle.sector_device.specs.Device.{KeepsHistory, HasFailed, IsSynced};
ghost use Rattle.sector_device.specs.Page.{ReadsPage};
ghost use Rattle.journal.specs.Chain.{Entry};
ghost use Rattle.store.specs.declared.fault.Fault.TheVariants as faults;
ghost use Rattle.journal.specs.Journals.{region_in, HasJournal, HoldsJournal};
ghost use Rattle.journal.specs.Reading.{IsReadAs, entries_of};

use crate::chain::find_journal;
use crate::journal::Journal;
use sector_device::{Device, DeviceFault, SECTOR_SIZE};
use std::alloc::Global;
use store::Fault;

/// Reads sectors, one after the other, from `first` on. After an error nothing is said of `sectors`.
pub fn read_sectors<D: Device>(
    device: &mut D,
    first: u32,
    sectors: &mut [[u8; SECTOR_SIZE]],
) -> Result<(), DeviceFault>
    requires { first + length sectors.old ≤ (D.state device.old).sectors }
    ensures history { KeepsHistory (D.state device.old) (D.state device.new) }
    ensures only_reads { (D.state device.old).faithful
        → ReadsPage (D.state device.old) (D.state device.new) }
    ensures count { length sectors.new ≡ length sectors.old }
    ensures read { (D.state device.old).faithful → OnOk result ((q : ℕ) → q < length sectors.old
        → get_or sectors.new q [] ≡ (D.state device.old).content (first + q)) }
    ensures cause { OnErr result (HasFailed (D.state device.old) (D.state device.new)) }
{
    // For the proof: the number of sectors stays.
    let _sectors = device.sectors();
    for index in 0..sectors.len() {
        let mut sector = [0; SECTOR_SIZE];
        device.read(first + index as u32, &mut sector)?;
        sectors[index] = sector;
    }
    Ok(())
}

/// Reads the journal of a root in so many sectors from `start` on, each of them once. The caller has
/// brought what was written to the disk with a sync, so that a stop leaves these sectors as they were
/// read.
///
/// `Device`: a read failed. `Damaged`: a sector is neither blank nor a part of a record, or one that
/// no stop leaves, so that the sectors are no journal of this root.
pub fn read_journal<D: Device>(
    device: &mut D,
    alloc: Global,
    start: u32,
    room: u16,
    root: u64,
) -> Result<Journal, Fault>
    requires { start + room ≤ (D.state device.old).sectors }
    ensures history { KeepsHistory (D.state device.old) (D.state device.new) }
    ensures only_reads { (D.state device.old).faithful
        → ReadsPage (D.state device.old) (D.state device.new) }
    ensures read { (D.state device.old).faithful → IfOk result (λ journal.
        IsReadAs journal root room (region_in start room (D.state device.old).content)) }
    ensures holds { (D.state device.old).faithful → IsSynced (D.state device.old)
        → IfOk result (λ journal. HoldsJournal start room root journal.top
        (entries_of journal.records.items) (D.state device.new)) }
    ensures damaged { (D.state device.old).faithful → result ≡ Err faults.Damaged
        → (es : List Entry) → HasJournal start room root es (D.state device.old).content → ⊥ }
    ensures cause { result ≡ Err faults.Device → HasFailed (D.state device.old) (D.state device.new) }
{
    let mut sectors = Vec::new(alloc);
    sectors.resize(room as usize, [0; SECTOR_SIZE])?;
    let Ok(()) = read_sectors(device, start, &mut sectors) else {
        return Err(Fault::Device);
    };
    find_journal(alloc, root, room, &sectors)
}
