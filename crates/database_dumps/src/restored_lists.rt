//! The lists of a dump, committed one after the other.
ghost use Rattle.std.specs.Prelude.{◌≡◌, ◌≤◌, ◌*◌, ◌∷◌, [], false, List, ℕ, IfErr, OnOk};
ghost use Rattle.sha2.specs.Hashers.{Holds256};
ghost use Rattle.sector_device.specs.Device.{KeepsHistory as DeviceHistory};
ghost use Rattle.cow_pages.specs.Held.{KeepsContent};
ghost use Rattle.store.specs.Records.{Changes};
ghost use Rattle.store.specs.Store.{KeepsHistory};
ghost use Rattle.copies.specs.RecordCopies.{mark, unmarked};
ghost use Rattle.dumps.specs.OnDevice.{DumpGoesOn};
ghost use Rattle.dumps.specs.declared.fault.DumpFault.TheVariants as reading;
ghost use Rattle.database_dumps.specs.declared.fault.RestoreFault.TheVariants as restore;
ghost use Rattle.database_dumps.specs.Restoring.{CommitsList, HasCommitted, HasListCause, IsCommitFault};

use crate::fault::RestoreFault;
use crate::record_dumps::MOST_LISTS;
use copies::CopyFault;
use dumps::{DumpFault, DumpPlace, read_list};
use sector_device::{CopyProgress, Device};
use std::alloc::Global;
use store::{Batch, Store, StoreFault};

// The key of the mark that a copy has until it is whole.
const MARK: [u8; 1] = [0];

// The bytes of a page, as progress counts them.
const PAGE_BYTES: u64 = 4096;

/// Commits each list of the dump on a device to a store, from a place on up to the end of the dump.
pub(crate) fn commit_lists<D: Device, S: Store, W: CopyProgress>(
    alloc: Global,
    dump: &mut D,
    place: &mut DumpPlace,
    store: &mut S,
    progress: &mut W,
) -> Result<(), RestoreFault>
    ensures dump { DeviceHistory (D.state dump.old) (D.state dump.new) }
    ensures content { (D.state dump.old).faithful
        → KeepsContent (D.state dump.old) (D.state dump.new) }
    ensures history { KeepsHistory (S.state store.old) (S.state store.new) }
    ensures works { OnOk result ((S.state store.new).has_failed ≡ (S.state store.old).has_failed) }
    ensures committed { (D.state dump.old).faithful → (S.state store.old).sound
        → (S.state store.old).has_failed ≡ false → (S.state store.old).map ≡ mark ∷ []
        → (before : List ℕ) → Holds256 place.old.hasher before
        → 8 * place.old.page ≤ (D.state dump.old).sectors
        → OnOk result (HasCommitted (D.state dump.old).sectors (D.state dump.old).content before
        place.old (S.state store.old) (S.state store.new)) }
    ensures refused { (D.state dump.old).faithful → (before : List ℕ) (lists : List Changes)
        → Holds256 place.old.hasher before → DumpGoesOn (D.state dump.old).sectors
        (D.state dump.old).content place.old.page before place.old.lists lists
        → IfErr result (λ fault. fault ≡ restore.Dump reading.Damaged → ⊥) }
    ensures cause { IfErr result (λ fault. HasListCause fault (D.state dump.old)
        (D.state dump.new) (S.state store.old) (S.state store.new)) }
{
    for _ in 0..MOST_LISTS {
        let found = match read_list(alloc, dump, place) {
            Ok(found) => found,
            Err(fault) => return Err(RestoreFault::Dump(DumpFault::from(fault))),
        };
        let Some(batch) = found else {
            return Ok(());
        };
        commit(store, batch)?;
        progress.tell(PAGE_BYTES.saturating_mul(place.pages()));
    }
    Err(RestoreFault::Dump(DumpFault::Memory))
}

// Commits one list.
fn commit<S: Store>(store: &mut S, batch: Batch) -> Result<(), RestoreFault>
    ensures { CommitsList result batch (S.state store.old) (S.state store.new) }
{
    let mut batch = batch;
    match store.commit(&mut batch) {
        Ok(()) => Ok(()),
        Err(fault) => Err(RestoreFault::New(CopyFault::Write(fault))),
    }
}

/// Takes the mark of a copy away from a store, in a commit of its own.
pub(crate) fn unmark<S: Store>(alloc: Global, store: &mut S) -> Result<(), RestoreFault>
    ensures history { KeepsHistory (S.state store.old) (S.state store.new) }
    ensures unmarks { OnOk result (CommitsList result (unmarked []) (S.state store.old)
        (S.state store.new)) }
    ensures cause { IfErr result (λ fault. IsCommitFault fault (S.state store.old)
        (S.state store.new)) }
{
    let mut batch = Batch::new(alloc);
    match batch.remove(&MARK) {
        Ok(()) => commit(store, batch),
        Err(_refused) => Err(RestoreFault::New(CopyFault::Write(StoreFault::Memory))),
    }
}
