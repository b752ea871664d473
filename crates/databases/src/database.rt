//! Opening a database on a device.

ghost use Rattle.std.specs.Prelude.{◌≡◌, ◌≤◌, false, IfOk};
ghost use Rattle.journal_store.specs.DeviceStores.{store_state};
ghost use Rattle.databases.specs.Openings.{OpensOn, is_first};

use crate::fault::DatabaseFault;
use journal_store::{DeviceStore, JournalDevice, MAX_CACHE_PAGES};
use recovery::open;
use sector_device::Device;
use server::decide::EventHandler;
use server::server::Server;
use std::alloc::Global;
use store::{RecordFormat, Store};

/// A database that was opened on a device: the server over it, and whether it was migrated, which it
/// was exactly where the records on the device were of record format 1.
#[derive(Drop)]
pub struct Opened<D: Device, X> {
    pub server: Server<DeviceStore<D>, X>,
    pub was_migrated: bool,
}

/// Opens the database that a device holds: a server over it, whose events `handler` decides, with
/// no session open, and a cache of so many pages. Its store, with a journal or without, as the root
/// on the device says, has not failed. The device is synced and read; all definitions and all rows
/// are read and checked. A refusal hands the device back.
///
/// Where the records are of record format 2, the store has those of the device under their
/// number, and nothing is written, whatever is answered: each sector has the content that it had,
/// and a stop leaves no more than before. Records of record format 1 are migrated, in one commit:
/// a stop then leaves the same database at every moment, also where the migration is refused.
///
/// `Pages`: no store was opened. `WrongSize`, `NotADatabase`, `NewerFormat` and `Damaged` name the
/// first fault that stands in the content, in this order: the size, the magic of the root sectors,
/// the root sectors, the size that the root names, the map, the tree of records, the journal where
/// there is one. `Records`: a store was opened, but no server. `Damaged`: the records stand for no
/// database. After these nothing is written. `Full`: no room is left for the records of record
/// format 1 in the second. `Number`: no commit number is left for them. Of both, `Device`: the
/// device failed, and `Memory`: an allocation failed, once the size and the magic were tested.
pub fn open_database<D: JournalDevice, X: EventHandler + Drop>(
    alloc: Global,
    device: D,
    handler: X,
    cache_pages: usize,
) -> Result<Opened<D, X>, (D, DatabaseFault)>
    requires some { 1 ≤ cache_pages }
    requires most { cache_pages ≤ MAX_CACHE_PAGES }
    ensures opens { (D.state device).faithful → OpensOn (D.state device) result }
    ensures works { IfOk result (λ opened.
        (store_state opened.server.store).has_failed ≡ false) }
{
    let store = match DeviceStore::open_with(alloc, device, cache_pages) {
        Ok(store) => store,
        Err((device, fault)) => return Err((device, DatabaseFault::Pages(fault))),
    };
    let was_migrated = is_record_format_1(store.record_format());
    match open(alloc, store, handler) {
        Ok(server) => Ok(Opened {
            server,
            was_migrated,
        }),
        Err(refused) => {
            let fault = DatabaseFault::Records(refused.fault);
            Err((refused.store.into_device(), fault))
        }
    }
}

// Whether records spelled so are migrated.
fn is_record_format_1(record_format: RecordFormat) -> bool
    ensures { result ≡ is_first record_format }
{
    match record_format {
        RecordFormat::V1 => true,
        RecordFormat::V2 => false,
    }
}
