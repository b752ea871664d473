//! Whether a dump is whole.
ghost use Rattle.std.specs.Prelude.{◌≡◌, ◌≤◌, ◌*◌, ℕ, List, IfErr, OnOk};
ghost use Rattle.sha2.specs.Hashers.{Holds256};
ghost use Rattle.sector_device.specs.Device.{KeepsHistory as DeviceHistory};
ghost use Rattle.cow_pages.specs.Held.{KeepsContent};
ghost use Rattle.store.specs.Records.{Changes};
ghost use Rattle.dumps.specs.Form.{TheDump};
ghost use Rattle.dumps.specs.OnDevice.{DumpGoesOn, HoldsDump};
ghost use Rattle.dumps.specs.Reading.{IsUnread};
ghost use Rattle.dumps.specs.SeveralLists.{HasAllLists};

use crate::fault::DumpFault;
use crate::place::DumpPlace;
use crate::reading::{read_head, read_list};
use sector_device::Device;
use std::alloc::Global;

// The lists that are read, at most: more than any device has room for.
const MOST_LISTS: u64 = 1 << 62;

/// Whether the dump on a device is whole, which is handed back: each part, the count and the digest. The faults are those of
/// reading a dump.
pub fn check_dump<D: Device>(alloc: Global, dump: D) -> (D, Result<(), DumpFault>)
    ensures history { DeviceHistory (D.state dump) (D.state result.0) }
    ensures unwritten { (D.state dump).faithful → KeepsContent (D.state dump) (D.state result.0) }
    ensures whole { (D.state dump).faithful
        → OnOk result.1 ((it : TheDump) × HoldsDump (D.state dump) it) }
    ensures refused { (D.state dump).faithful → (it : TheDump) → HoldsDump (D.state dump) it
        → IfErr result.1 (λ fault. IsUnread fault (D.state dump) (D.state result.0)) }
{
    let mut dump = dump;
    let checked = read_whole(alloc, &mut dump);
    (dump, checked)
}

// Reads the dump on a device to its end.
fn read_whole<D: Device>(alloc: Global, dump: &mut D) -> Result<(), DumpFault>
    ensures history { DeviceHistory (D.state dump.old) (D.state dump.new) }
    ensures content { (D.state dump.old).faithful
        → KeepsContent (D.state dump.old) (D.state dump.new) }
    ensures whole { (D.state dump.old).faithful
        → OnOk result ((it : TheDump) × HoldsDump (D.state dump.old) it) }
    ensures refused { (D.state dump.old).faithful → (it : TheDump)
        → HoldsDump (D.state dump.old) it
        → IfErr result (λ fault. IsUnread fault (D.state dump.old) (D.state dump.new)) }
{
    let (_number, mut place) = match read_head(alloc, dump) {
        Ok(begun) => begun,
        Err(fault) => return Err(fault),
    };
    read_to_end(alloc, dump, &mut place)
}

// Reads each list up to the end.
fn read_to_end<D: Device>(
    alloc: Global,
    dump: &mut D,
    place: &mut DumpPlace,
) -> Result<(), DumpFault>
    ensures history { DeviceHistory (D.state dump.old) (D.state dump.new) }
    ensures content { (D.state dump.old).faithful
        → KeepsContent (D.state dump.old) (D.state dump.new) }
    ensures whole { (D.state dump.old).faithful → (before : List ℕ)
        → Holds256 place.old.hasher before
        → 8 * place.old.page ≤ (D.state dump.old).sectors
        → OnOk result ((lists : List Changes) × HasAllLists (D.state dump.old).sectors
        (D.state dump.old).content before lists place.old) }
    ensures refused { (D.state dump.old).faithful → (before : List ℕ) (lists : List Changes)
        → Holds256 place.old.hasher before → DumpGoesOn (D.state dump.old).sectors
        (D.state dump.old).content place.old.page before place.old.lists lists
        → IfErr result (λ fault. IsUnread fault (D.state dump.old) (D.state dump.new)) }
{
    for _ in 0..MOST_LISTS {
        let found = match read_list(alloc, dump, place) {
            Ok(found) => found,
            Err(fault) => return Err(DumpFault::from(fault)),
        };
        match found {
            Some(_list) => {}
            None => return Ok(()),
        }
    }
    Err(DumpFault::Memory)
}
