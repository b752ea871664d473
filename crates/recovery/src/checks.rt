//! What is read of a store before a server is over it.

ghost use Rattle.std.specs.Prelude.{◌≡◌, OnOk, OnErr, Err, true, false};
ghost use Rattle.store.specs.Readers.{HasRead};
ghost use Rattle.store.specs.Store.{StoreState};
ghost use Rattle.catalogue_loading.specs.Found.{Finds};
ghost use Rattle.transactions.specs.Views.{applied_all};
ghost use Rattle.recovery.specs.Openings.{AreOfDatabase};

use catalogue::definitions::Catalogue;
use catalogue_loading::{check_rows, load};
use std::alloc::Global;
use store::{Batch, Fault, Map, Store};
use transactions::View;

/// The definitions of the database that the records of a map stand for under lists of changes, each
/// record looked at. The map is only read, so what it holds in record format 1 is read under the
/// changes that spell it in the second.
///
/// Device: the map answered it. Damaged: the records under the lists stand for no database.
pub fn read_under<M: Map>(alloc: Global, map: &mut M, lists: &[Batch]) -> Result<Catalogue, Fault>
    ensures preserved { M.preserved map.old map.new }
    ensures read { HasRead result (M.state map.old) (M.state map.new) }
    ensures found { (M.state map.old).sound
        → Finds (AreOfDatabase (applied_all lists.now (M.state map.old).map)) result }
{
    let mut view = View::new(alloc, map, lists);
    let read = read_records(alloc, &mut view);
    view.into_map();
    read
}

// The definitions of the database that the records of a map stand for, each record looked at.
fn read_records<M: Map>(alloc: Global, map: &mut M) -> Result<Catalogue, Fault>
    ensures preserved { M.preserved map.old map.new }
    ensures read { HasRead result (M.state map.old) (M.state map.new) }
    ensures found { (M.state map.old).sound → Finds (AreOfDatabase (M.state map.old).map) result }
{
    let catalogue = match load(alloc, map) {
        Ok(catalogue) => catalogue,
        Err(fault) => return Err(fault),
    };
    match check_rows(alloc, map, &catalogue) {
        Ok(()) => Ok(catalogue),
        Err(fault) => Err(fault),
    }
}

/// Device where a store has failed before: a commit of no changes tells it without a call below.
pub(crate) fn check_store<S: Store>(alloc: Global, store: &mut S) -> Result<(), Fault>
    ensures read { HasRead result (S.state store.old) (S.state store.new) }
    ensures works { OnOk result (((S.state store.old).has_failed ≡ false)
        × (store.new ≡ store.old)) }
    ensures failed { OnErr result (((S.state store.old).has_failed ≡ true)
        × (result ≡ Err Fault.Device)) }
{
    match store.commit(&mut Batch::new(alloc)) {
        Ok(()) => Ok(()),
        Err(_) => Err(Fault::Device),
    }
}
