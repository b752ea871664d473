//! Opening a server over a store.

ghost use Rattle.std.specs.Prelude.{◌≡◌, ◌≢◌, [], Err, IfOk, IfErr, OnOk, true, false};
ghost use Rattle.storage_sizes.specs.declared.record_format.RecordFormat.TheVariants.{V2};
ghost use Rattle.store.specs.declared.fault.StoreFault.TheVariants as commit;
ghost use Rattle.store.specs.Readers.{HasRead};
ghost use Rattle.store.specs.Store.{StoreState, KeepsHistory, IsUnchanged, stored};
ghost use Rattle.abstract_database.specs.Database.{Database};
ghost use Rattle.stored_database.specs.BothRecordFormats.{Stands};
ghost use Rattle.recovery.specs.declared.fault.OpeningFault.TheVariants.{Read, Commit};
ghost use Rattle.recovery.specs.Migrated.{HasOpeningCause, KeepsDatabase, failed_after_opening};
ghost use Rattle.recovery.specs.Openings.{IsOpened, HasLooked, IsNumberAfter, OnlyLooks, outcome_of, store_of};
ghost use Rattle.recovery.specs.Read.{AreRead};

use crate::checks::{check_store, read_under};
use crate::commits::commit_migrated;
use crate::fault::OpeningFault;
use crate::lists::migration_lists;
use catalogue::definitions::Catalogue;
use server::decide::EventHandler;
use server::server::Server;
use sql_types::items::Items;
use std::alloc::Global;
use store::{Batch, Fault, Store};

/// A store over which no server was opened, handed back, and why.
#[derive(Drop)]
pub struct Refused<S> {
    pub store: S,
    pub fault: OpeningFault,
}

/// A server over the database that the contents of a store stand for, with no session open. All
/// definitions and all rows are read and checked. A store of record format 2 is only read: its
/// records, its number and what a stop leaves are as before, of the server and of a refusal alike.
/// The records of a store of record format 1 are then spelled in record format 2, in one commit; a
/// stop at any moment leaves the same database.
///
/// `Read`: `Damaged`: the contents stand for no database; nothing is written. `Device`: the device
/// failed, or what it gave was none of the store's; a store that had failed before answers it always.
/// `Commit`: the records of record format 1 were not spelled in record format 2. `Full`: they find no
/// room in it. `Number`: no commit number is left for them. `Device`: the device failed, and in which
/// record format they then are is known when it is opened again. After each other fault the store that is
/// handed back has the contents and the number that it had, and after each but the two of the device it
/// works as before.
pub fn open<S: Store, X: EventHandler + Drop>(
    alloc: Global,
    store: S,
    handler: X,
) -> Result<Server<S, X>, Refused<S>>
    ensures history { KeepsHistory (S.state store) (S.state (store_of result)) }
    ensures read { OnlyLooks (S.state store).record_format (outcome_of result)
        → HasLooked (outcome_of result) (S.state store) (S.state (store_of result)) }
    ensures preserved { OnlyLooks (S.state store).record_format (outcome_of result)
        → (S.state store).has_failed ≡ false → S.preserved store (store_of result) }
    ensures same { (S.state store).sound → (S.state store).has_failed ≡ false → (db : Database)
        → Stands (stored (S.state store)) db
        → KeepsDatabase db (outcome_of result) (S.state store) (S.state (store_of result)) }
    ensures opened { (S.state store).sound
        → IfOk result (IsOpened S.state (stored (S.state store))) }
    ensures number { (S.state store).sound
        → IfOk result (λ server. IsNumberAfter (S.state store).record_format (S.state store).number
        (S.state server.store).number) }
    ensures damaged { (S.state store).sound → (db : Database)
        → Stands (stored (S.state store)) db
        → IfErr result (λ refused. refused.fault ≢ Read Fault.Damaged) }
    ensures cause { (S.state store).sound
        → IfErr result (λ refused. HasOpeningCause refused.fault (S.state store)
        (S.state (store_of result))) }
    ensures failed { (S.state store).has_failed ≡ true
        → outcome_of result ≡ Err (Read Fault.Device) }
    ensures works { (S.state (store_of result)).has_failed
        ≡ failed_after_opening (outcome_of result) (S.state store).has_failed }
    ensures unchanged { (S.state store).sound
        → IfErr result (λ refused. refused.fault ≢ Commit commit.Device
        → IsUnchanged (S.state store) (S.state (store_of result))) }
{
    let mut store = store;
    let (lists, catalogue) = match read_store(alloc, &mut store) {
        Ok(read) => read,
        Err(fault) => {
            let fault = OpeningFault::Read(fault);
            return Err(Refused { store, fault });
        }
    };
    match commit_migrated(&mut store, lists.as_slice()) {
        Ok(()) => Ok(Server::over(alloc, store, handler, catalogue)),
        Err(fault) => {
            let fault = OpeningFault::Commit(fault);
            Err(Refused { store, fault })
        }
    }
}

// The lists of changes that spell the records of a store in record format 2, none where they
// are of it, and the definitions of the database that they stand for. The store is only read.
//
// Device: the store answered it, or had failed before. Damaged: the contents stand for no database.
fn read_store<S: Store>(alloc: Global, store: &mut S) -> Result<(Items<Batch>, Catalogue), Fault>
    ensures preserved { (S.state store.old).has_failed ≡ false → S.preserved store.old store.new }
    ensures read { HasRead result (S.state store.old) (S.state store.new) }
    ensures works { OnOk result ((S.state store.old).has_failed ≡ false) }
    ensures failed { (S.state store.old).has_failed ≡ true → result ≡ Err Fault.Device }
    ensures found { (S.state store.old).sound → AreRead (stored (S.state store.old)) result }
    ensures none { (S.state store.old).record_format ≡ V2 → IfOk result (λ read. read.0 ≡ []) }
{
    match check_store(alloc, store) {
        Ok(()) => {}
        Err(fault) => return Err(fault),
    }
    let lists = match migration_lists(alloc, store) {
        Ok(lists) => lists,
        Err(fault) => return Err(fault),
    };
    match read_under(alloc, store, lists.as_slice()) {
        Ok(catalogue) => Ok((lists, catalogue)),
        Err(fault) => Err(fault),
    }
}
