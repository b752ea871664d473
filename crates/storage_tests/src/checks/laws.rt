//! Laws and generic functions, each called at one concrete type.
use crate::stores::records::memory_of;
use anyhow::Result;
use sector_device::{
    HistoryDevice, MemDevice, both_contents_are_left, call_lifts, calls_join, each_moment_is_kept,
    present_lifts, read_leaves, run_goes_on, run_lifts, run_of_one, run_starts, run_weakens,
    runs_join,
};
use std::alloc::Global;
use std::marker::Brand;
use store::{
    StoreFault, causes_join, fronts_do_not_order, items_elsewhere_stay, memory_alone_is_refused,
    put_items_are_held, reads_join, removed_items_are_dropped,
};

pub fn laws_of_runs(alloc: Global) -> Result<()> {
    run_starts::<Brand>();
    run_goes_on::<Brand>();
    run_of_one::<Brand>();
    runs_join::<Brand>();
    run_weakens::<Brand>();
    run_lifts::<Brand>();
    call_lifts::<Brand>();
    present_lifts::<Brand>();
    let device = MemDevice::new(alloc, 0)?;
    calls_join(&device, &device, &device);
    read_leaves(&device, &device);
    let device = HistoryDevice::new(alloc, 0)?;
    both_contents_are_left(&device);
    each_moment_is_kept(&device);
    Ok(())
}

pub fn laws_of_stores(alloc: Global) -> Result<()> {
    put_items_are_held::<u64>();
    removed_items_are_dropped::<u64>();
    items_elsewhere_stay::<u64>();
    fronts_do_not_order();
    let store = memory_of(alloc, "root")?;
    reads_join(&store, &store, &store);
    causes_join(&store, &store, &store, StoreFault::Device);
    memory_alone_is_refused(&store, &store, StoreFault::Memory);
    Ok(())
}
