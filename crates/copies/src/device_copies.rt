//! A copy of records to a device.

ghost use Rattle.std.specs.Prelude.{◌≡◌, IfErr};
ghost use Rattle.store.specs.Store.{OnlyReads};
ghost use Rattle.copies.specs.RecordCopies.{HasOutsized, behind_mark};
ghost use Rattle.copies.specs.declared.fault.CopyFault.TheVariants.{Read};
ghost use Rattle.store.specs.declared.fault.Fault.{Fault};
ghost use Rattle.copies.specs.DeviceCopies.{CopiesTo, HasSourceCause, told_of};

use crate::fault::CopyFault;
use crate::marked::marked_store;
use crate::record_copies::copy_records;
use crate::wanted::no_room_fault;
use kv_store::{Fault, Map, StoreFault, sound_images};
use sector_device::{CopyProgress, Device};
use std::alloc::Global;
use storage_sizes::SECTORS_PER_PAGE;

/// Copies the records of a map to a device of 64 to 65,536 whole pages, in the current record format: those
/// behind the mark of a copy, which of a database are all. What was on the device before is lost. The map is only read.
///
/// After `Ok` each image that a stop leaves of the device has exactly these records. On a device that is
/// blank, as a new one of zeros is, a stop at any moment leaves no contents, or records with the mark of a copy, which
/// stand for no database, or all records and no mark; and after each fault but that of the device it leaves no database.
///
/// `Read` with `Device`: a read of the map failed; with `Damaged`: a record of it has a size that no store takes, which no
/// record of a database has. `WrongSize`: the device has another size; nothing was written. `Full`: a commit found no room on
/// the device; it names how many pages a copy wants at least: those of leaves that are full, and never fewer than one more than
/// the device has. The records are read once more for it. `Write` with `Device`: the device failed; with `Memory`: an
/// allocation failed. No other fault comes.
///
/// The progress is told how far a large copy is, as `copy_records` does.
pub fn copy_to_device<M: Map, D: Device, W: CopyProgress>(
    alloc: Global,
    source: &mut M,
    target: D,
    progress: &mut W,
) -> (D, Result<(), CopyFault>)
    ensures preserved { M.preserved source.old source.new }
    ensures reads { OnlyReads (M.state source.old) (M.state source.new) }
    ensures copies { (M.state source.old).sound
        → CopiesTo D.state (M.state source.old).map result.1 target result.0 }
    ensures cause { IfErr result.1 (λ fault. HasSourceCause fault (M.state source.old) (M.state source.new)) }
    ensures damaged { (M.state source.old).sound → IfErr result.1 (λ fault. fault ≡ Read Fault.Damaged
        → HasOutsized (behind_mark (M.state source.old).map)) }
{
    let pages = target.sectors() / SECTORS_PER_PAGE;
    let mut store = match marked_store(alloc, target) {
        Ok(store) => store,
        Err((target, fault)) => return (target, Err(fault)),
    };
    let copied = copy_records(alloc, source, &mut store, progress);
    // For the proof: each image that a crash leaves has contents.
    sound_images(&store);
    let no_room = no_room_fault(source, pages, copied);
    (store.into_device(), told(copied, no_room))
}

// What a copy of records answered, as one to a device: with this fault where the target had no room, and wherever an allocation
// failed with one fault for that.
fn told(copied: Result<(), CopyFault>, no_room: CopyFault) -> Result<(), CopyFault>
    ensures { result ≡ told_of no_room copied }
{
    match copied {
        Err(CopyFault::Write(StoreFault::Full | StoreFault::Number)) => Err(no_room),
        Err(CopyFault::Read(Fault::Memory)) => Err(CopyFault::Write(StoreFault::Memory)),
        copied => copied,
    }
}
