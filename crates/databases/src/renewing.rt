//! A database that was opened, before anything is answered from it.

ghost use Rattle.std.specs.Prelude.{◌≡◌, false, IfOk};
ghost use Rattle.sector_device.specs.Device.{IsSynced};
ghost use Rattle.journal_store.specs.DeviceStores.{store_state};
ghost use Rattle.databases.specs.Openings.{IsOpenedOn, OpensOn, state_under};

use crate::database::Opened;
use crate::fault::DatabaseFault;
use journal_store::JournalDevice;
use recovery::OpeningFault;
use sector_device::Device;
use server::decide::EventHandler;
use store::Fault;
use stored_database::contents_stand_for_one_database;

/// Brings the first page of the device below a database that was opened to the medium, as it is read,
/// with the roots and the journal: it is written again, and synced. To whoever reads the database or
/// what a stop leaves of it, that is a read. After `Ok` a stop leaves each sector as it is read.
///
/// After a sync that failed a system may give what is not on the medium to whoever opens the file
/// again. So whoever answers from a database that was opened calls this first.
///
/// `Records`, with `Device`: the device failed, and is handed back.
pub fn renewed<D: JournalDevice, X: EventHandler + Drop>(
    opened: Opened<D, X>,
) -> Result<Opened<D, X>, (D, DatabaseFault)>
    ensures opens { (device : D) → IsOpenedOn (D.state device) opened
        → OpensOn (D.state device) result }
    ensures works { (store_state opened.server.store).has_failed ≡ false → IfOk result
        (λ renewed. (store_state renewed.server.store).has_failed ≡ false) }
    ensures synced { (state_under opened.server).faithful
        → IfOk result (λ renewed. IsSynced (state_under renewed.server)) }
{
    // For the proof: contents stand for one database.
    contents_stand_for_one_database();
    let Opened {
        server,
        was_migrated,
    } = opened;
    let (mut store, rest) = server.exchange_store(());
    match store.renew() {
        Ok(()) => {
            let ((), server) = rest.exchange_store(store);
            Ok(Opened {
                server,
                was_migrated,
            })
        }
        Err(_) => {
            let fault = DatabaseFault::Records(OpeningFault::Read(Fault::Device));
            Err((store.into_device(), fault))
        }
    }
}
