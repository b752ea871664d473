//! A copy of records under lists of changes.

ghost use Rattle.std.specs.Prelude.{◌≡◌, IfErr};
ghost use Rattle.store.specs.Store.{KeepsHistory};
ghost use Rattle.transactions.specs.Views.{applied_all};
ghost use Rattle.copies.specs.RecordCopies.{HasOutsized, behind_mark};
ghost use Rattle.copies.specs.declared.fault.CopyFault.TheVariants.{Read};
ghost use Rattle.store.specs.declared.fault.Fault.{Fault};
ghost use Rattle.copies.specs.DeviceCopies.{CopiesTo, HasSourceCause};

use crate::device_copies::copy_to_device;
use crate::fault::CopyFault;
use sector_device::{CopyProgress, Device};
use std::alloc::Global;
use store::{Batch, Map};
use transactions::View;

/// Copies the records of a map under lists of changes to a device, as `copy_to_device` does. The map is only read.
pub(crate) fn copy_under<M: Map, E: Device, W: CopyProgress>(
    alloc: Global,
    map: &mut M,
    lists: &[Batch],
    target: E,
    progress: &mut W,
) -> (E, Result<(), CopyFault>)
    ensures preserved { M.preserved map.old map.new }
    ensures history { KeepsHistory (M.state map.old) (M.state map.new) }
    ensures copies { (M.state map.old).sound
        → CopiesTo E.state (applied_all lists.now (M.state map.old).map) result.1 target result.0 }
    ensures cause { IfErr result.1 (λ fault. HasSourceCause fault (M.state map.old) (M.state map.new)) }
    ensures damaged { (M.state map.old).sound → IfErr result.1 (λ fault. fault ≡ Read Fault.Damaged
        → HasOutsized (behind_mark (applied_all lists.now (M.state map.old).map))) }
{
    let mut view = View::new(alloc, map, lists);
    let copied = copy_to_device(alloc, &mut view, target, progress);
    view.into_map();
    copied
}
