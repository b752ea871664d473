//! A dump of the records of a map.
ghost use Rattle.std.specs.Prelude.{◌≡◌, ◌≤◌, ◌<◌, ◌*◌, ℕ, List, IfErr, OnOk};
ghost use Rattle.sha2.specs.Hashers.{Holds256};
ghost use Rattle.sector_device.specs.Device.{KeepsHistory as DeviceHistory};
ghost use Rattle.store.specs.Store.{OnlyReads};
ghost use Rattle.store.specs.declared.fault.Fault.{Fault};
ghost use Rattle.copies.specs.RecordCopies.{HasOutsized, behind_mark};
ghost use Rattle.copies.specs.declared.fault.CopyFault.TheVariants.{Read};
ghost use Rattle.dumps.specs.OnDevice.{BeginsWithZeros};
ghost use Rattle.database_dumps.specs.Dumping.{HasDumpCause, HasDumpedRecords, HasRecords};

use copies::{CopyFault, first_place, take_records};
use dumps::{DumpPlace, begin_dump, end_dump, put_list};
use sector_device::Device;
use std::alloc::Global;
use store::{Batch, Fault, Map};

// The lists of a dump, at most: more than any device has room for.
pub(crate) const MOST_LISTS: u64 = 1 << 62;

/// Writes a dump of the records of a map, those behind the mark of a copy, to a device whose first page has zeros alone. The map is
/// only read. After `Ok` the device is the dump, and a stop leaves nothing else.
///
/// `Read`: a read of the map failed, or a record has a size that no store takes, or an allocation failed. `Write`: `Full`: the
/// device has not as many pages as the dump; `Device`: the device failed; `Memory`: an allocation failed.
pub(crate) fn dump_records<M: Map, E: Device>(
    alloc: Global,
    source: &mut M,
    number: u64,
    target: &mut E,
) -> Result<(), CopyFault>
    ensures preserved { M.preserved source.old source.new }
    ensures reads { OnlyReads (M.state source.old) (M.state source.new) }
    ensures history { DeviceHistory (E.state target.old) (E.state target.new) }
    ensures dumped { (M.state source.old).sound → (E.state target.old).faithful
        → BeginsWithZeros (E.state target.old)
        → OnOk result (HasDumpedRecords (M.state source.old).map number (E.state target.new)) }
    ensures cause { IfErr result (λ fault. HasDumpCause fault (M.state source.old)
        (M.state source.new) (E.state target.old) (E.state target.new)) }
    ensures damaged { (M.state source.old).sound → IfErr result (λ fault. fault ≡ Read Fault.Damaged
        → HasOutsized (behind_mark (M.state source.old).map)) }
{
    let mut place = match begin_dump(alloc, target, number) {
        Ok(place) => place,
        Err(fault) => return Err(CopyFault::Write(fault)),
    };
    put_records(alloc, source, target, &mut place)?;
    match end_dump(alloc, target, place) {
        Ok(()) => Ok(()),
        Err(fault) => Err(CopyFault::Write(fault)),
    }
}

// Writes the lists of a dump. What is before the place stays.
fn put_records<M: Map, E: Device>(
    alloc: Global,
    source: &mut M,
    target: &mut E,
    place: &mut DumpPlace,
) -> Result<(), CopyFault>
    ensures preserved { M.preserved source.old source.new }
    ensures reads { OnlyReads (M.state source.old) (M.state source.new) }
    ensures history { DeviceHistory (E.state target.old) (E.state target.new) }
    ensures before { (E.state target.old).faithful → (s : ℕ) → s < 8 * place.old.page
        → (E.state target.new).content s ≡ (E.state target.old).content s }
    ensures put { (M.state source.old).sound → (E.state target.old).faithful → (before : List ℕ)
        → Holds256 place.old.hasher before → 8 * place.old.page ≤ (E.state target.old).sectors
        → OnOk result (HasRecords (E.state target.new).sectors (E.state target.new).content before
        (behind_mark (M.state source.old).map) place.old place.new) }
    ensures cause { IfErr result (λ fault. HasDumpCause fault (M.state source.old)
        (M.state source.new) (E.state target.old) (E.state target.new)) }
    ensures damaged { (M.state source.old).sound → IfErr result (λ fault. fault ≡ Read Fault.Damaged
        → HasOutsized (behind_mark (M.state source.old).map)) }
{
    let mut at = first_place(source)?;
    let mut bytes = 0;
    for _ in 0..MOST_LISTS {
        let mut batch = Batch::new(alloc);
        let more = take_records(source, &mut at, &mut batch, &mut bytes)?;
        put_list(alloc, target, place, &batch)?;
        if !more {
            return Ok(());
        }
    }
    Err(CopyFault::Read(Fault::Memory))
}
