//! One life of a database on a device.

ghost use Rattle.std.specs.Prelude.{◌≡◌, IfErr, OnErr};
ghost use Rattle.databases.specs.Lives.{all_of_client};
ghost use Rattle.databases.specs.OnDevice.{life_result_of, PromisesLife, IsRefusedOn};
ghost use Rattle.databases.specs.NewDatabase.{IsNone, IsRefusedAsNone};

use crate::fault::DatabaseFault;
use crate::over_store::live_over;
use journal_store::{DeviceStore, JournalDevice};
use recovery::OpeningFault;
use sector_device::Device;
use server::decide::EventHandler;
use sql_types::answer::Answer;
use sql_types::event::Event;
use std::alloc::Global;

/// One life on a device: opens it and a server over its contents, answers events in their order,
/// adds the answers to those that are there, and gives the device back, whatever it then holds.
///
/// Where each image that a stop may have left stands for a database that the last life may have
/// left, the answers are those of the session machine over one of these, each given at a moment of
/// the store's clock, and whenever the life stops, each image that it leaves stands for a database that a next life goes on from. Contents
/// of record format 1 are spelled in record format 2 before the first event. The numbers of commits
/// are those that the device holds, and it counts its failures itself.
///
/// After an error no event was answered. Nothing was written of contents of record format 2,
/// and of none where the error is of the pages, or `Damaged`: each sector has the content that it had,
/// and a stop leaves no more than before. Contents of record format 1 may by then be of record format 2;
/// a stop leaves the database that they stand for. `Pages`: the first fault that stands in the
/// content, as `DeviceStore::open` names it. `Records`: why no server was opened over the contents, as
/// `open` names it, as `Damaged` where they stand for no database; or, as `Memory`, no memory was
/// left for the answers. A device that holds no database is always refused: as `NotADatabase`, or as
/// `Device` where it failed. All this of a device that is faithful.
pub fn live<D: JournalDevice, X: EventHandler + Drop>(
    alloc: Global,
    device: D,
    handler: X,
    events: &[Event],
    answers: &mut Vec<Answer>,
) -> (D, Result<(), DatabaseFault>)
    ensures faithful { (D.state device).faithful → (D.state result.0).faithful }
    ensures lives { PromisesLife D.Device X X.Reads (all_of_client 0 events.now) answers.old.items
        answers.new.items device result.0 result.1 }
    ensures refused { (D.state device).faithful → IfErr result.1
        (λ fault. IsRefusedOn fault (D.state device) (D.state result.0)) }
    ensures none { (D.state device).faithful
        → IsNone (D.state device).sectors (D.state device).content
        → IsRefusedAsNone result.1 (D.state device) (D.state result.0) }
    ensures unanswered { OnErr result.1 (answers.new.items ≡ answers.old.items) }
{
    match DeviceStore::open(alloc, device) {
        Ok(store) => {
            let (store, lived) = live_over(alloc, store, handler, events, answers);
            (store.into_device(), life_result(lived))
        }
        Err((device, fault)) => (device, Err(DatabaseFault::Pages(fault))),
    }
}

// The fault of a life over a store as one on a device.
fn life_result(lived: Result<(), OpeningFault>) -> Result<(), DatabaseFault>
    ensures { result ≡ life_result_of lived }
{
    match lived {
        Ok(()) => Ok(()),
        Err(fault) => Err(DatabaseFault::Records(fault)),
    }
}
