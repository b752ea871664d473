//! A new store that has the mark of a copy alone.

ghost use Rattle.std.specs.Prelude.{◌≡◌, IfErr, IfOk};
ghost use Rattle.copies.specs.DeviceCopies.{Begins, Marks, of_target};

use crate::fault::CopyFault;
use crate::mark::mark_of_a_copy;
use cow_pages::page_count;
use kv_store::{OpenFault, PageStore, StoreFault};
use sector_device::Device;
use std::alloc::Global;

/// Makes a store of the mark alone on a device, and opens it. A refusal hands the device back.
pub fn marked_store<D: Device>(alloc: Global, target: D) -> Result<PageStore<D>, (D, CopyFault)>
    ensures { Begins D.Device target result }
{
    let mut target = target;
    match mark_device(alloc, &mut target) {
        Ok(()) => {}
        Err(fault) => return Err((target, fault)),
    }
    match PageStore::open(alloc, target) {
        Ok(store) => Ok(store),
        Err((target, fault)) => Err((target, fault_of_target(fault))),
    }
}

// Why a store is not made, or not opened once it is: its device failed, unless memory was refused.
fn fault_of_target(fault: OpenFault) -> CopyFault
    ensures { result ≡ of_target fault }
{
    match fault {
        OpenFault::Memory => CopyFault::Write(StoreFault::Memory),
        OpenFault::WrongSize
        | OpenFault::NotADatabase
        | OpenFault::NewerFormat(_)
        | OpenFault::Damaged
        | OpenFault::Device => CopyFault::Write(StoreFault::Device),
    }
}

// Makes a store of the mark alone on a device.
fn mark_device<D: Device>(alloc: Global, target: &mut D) -> Result<(), CopyFault>
    ensures { Marks D.Device result target.old target.new }
{
    let Some(_pages) = page_count(target.sectors()) else {
        return Err(CopyFault::WrongSize);
    };
    let Ok(mark) = mark_of_a_copy(alloc) else {
        return Err(CopyFault::Write(StoreFault::Memory));
    };
    match PageStore::format(alloc, target, &mark) {
        Ok(()) => Ok(()),
        Err(fault) => Err(fault_of_target(fault)),
    }
}
