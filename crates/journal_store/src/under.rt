//! Reads of a map under lists of changes, each through a view of its own.
ghost use Rattle.std.specs.Prelude.{◌≡◌, is_some};
ghost use Rattle.store.specs.Records.{Records, entry_at, entries_where, first_from, is_from, lookup};
ghost use Rattle.store.specs.Steps.{Goes, Takes};
ghost use Rattle.store.specs.Store.{Reads};
ghost use Rattle.store.specs.Walks.{count_to, span};
ghost use Rattle.transactions.specs.Calls.{KeepsRecords};
ghost use Rattle.transactions.specs.Places.{AreAhead, AreAheadTo, IsFoundAt};
ghost use Rattle.transactions.specs.Views.{applied_all, view_state};

use std::alloc::Global;
use store::{Batch, Entry, Map, StoreFault};
use transactions::{View, ViewPlace};

// Reads the entry of a key, as `get` of a view does.
pub(crate) fn get_under<M: Map>(
    alloc: Global,
    map: &mut M,
    lists: &[Batch],
    key: &[u8],
    out: &mut Entry,
) -> Result<bool, StoreFault>
    ensures preserved { M.preserved map.old map.new }
    ensures records { KeepsRecords (M.state map.old) (M.state map.new) }
    ensures reads { Reads (entry_at key.now (applied_all lists.now (M.state map.old).map)) result out.new
        (view_state lists.now (M.state map.old)) (view_state lists.now (M.state map.new)) }
{
    let mut view = View::new(alloc, map, lists);
    let found = view.get(key, out);
    view.into_map();
    found
}

// Reads the least entry from a key on, as `scan_from` of a view does.
pub(crate) fn scan_under<M: Map>(
    alloc: Global,
    map: &mut M,
    lists: &[Batch],
    key: &[u8],
    out: &mut Entry,
) -> Result<bool, StoreFault>
    ensures preserved { M.preserved map.old map.new }
    ensures records { KeepsRecords (M.state map.old) (M.state map.new) }
    ensures reads { Reads (first_from key.now (applied_all lists.now (M.state map.old).map)) result out.new
        (view_state lists.now (M.state map.old)) (view_state lists.now (M.state map.new)) }
{
    let mut view = View::new(alloc, map, lists);
    let found = view.scan_from(key, out);
    view.into_map();
    found
}

// Whether a key has an entry, as `contains` of a view says.
pub(crate) fn contains_under<M: Map>(
    alloc: Global,
    map: &mut M,
    lists: &[Batch],
    key: &[u8],
) -> Result<bool, StoreFault>
    ensures preserved { M.preserved map.old map.new }
    ensures records { KeepsRecords (M.state map.old) (M.state map.new) }
    ensures goes { Goes (λ found. found
        ≡ is_some (lookup key.now (applied_all lists.now (M.state map.old).map)))
        result (view_state lists.now (M.state map.old)) (view_state lists.now (M.state map.new)) }
{
    let mut view = View::new(alloc, map, lists);
    let found = view.contains(key);
    view.into_map();
    found
}

// Counts the records of a span up to a bound, as `count_to` of a view does.
pub(crate) fn count_under<M: Map>(
    alloc: Global,
    map: &mut M,
    lists: &[Batch],
    start: &[u8],
    stop: &[u8],
    most: u64,
) -> Result<u64, StoreFault>
    ensures preserved { M.preserved map.old map.new }
    ensures records { KeepsRecords (M.state map.old) (M.state map.new) }
    ensures goes { Goes (λ count. count
        ≡ count_to most (span start.now stop.now (applied_all lists.now (M.state map.old).map)))
        result (view_state lists.now (M.state map.old)) (view_state lists.now (M.state map.new)) }
{
    let mut view = View::new(alloc, map, lists);
    let counted = view.count_to(start, stop, most);
    view.into_map();
    counted
}

// Begins a walk at a key, as `seek` of a view does.
pub(crate) fn seek_under<M: Map>(
    alloc: Global,
    map: &mut M,
    lists: &[Batch],
    key: &[u8],
) -> Result<ViewPlace<M::Place>, StoreFault>
    ensures preserved { M.preserved map.old map.new }
    ensures records { KeepsRecords (M.state map.old) (M.state map.new) }
    ensures goes { Goes (λ place. AreAhead (M.ahead map.new) lists.now (M.state map.new) place
        (entries_where (is_from key.now) (applied_all lists.now (M.state map.old).map)))
        result (view_state lists.now (M.state map.old)) (view_state lists.now (M.state map.new)) }
{
    let mut view = View::new(alloc, map, lists);
    let place = view.seek(key);
    view.into_map();
    place
}

// Goes on with a walk, as `step` of a view does.
pub(crate) fn step_under<M: Map>(
    alloc: Global,
    map: &mut M,
    lists: &[Batch],
    place: &mut ViewPlace<M::Place>,
) -> Result<bool, StoreFault>
    ensures preserved { M.preserved map.old map.new }
    ensures records { KeepsRecords (M.state map.old) (M.state map.new) }
    ensures goes { Goes (λ found. (records : Records)
        → AreAhead (M.ahead map.old) lists.now (M.state map.old) place.old records
        → Takes (IsFoundAt (M.found_at map.new) place.new)
        (AreAhead (M.ahead map.new) lists.now (M.state map.new) place.new) found records)
        result (view_state lists.now (M.state map.old)) (view_state lists.now (M.state map.new)) }
{
    let mut view = View::new(alloc, map, lists);
    let found = view.step(place);
    view.into_map();
    found
}

// Goes on with a walk up to a stop, as `step_within` of a view does.
pub(crate) fn step_within_under<M: Map>(
    alloc: Global,
    map: &mut M,
    lists: &[Batch],
    place: &mut ViewPlace<M::Place>,
    stop: &[u8],
) -> Result<bool, StoreFault>
    ensures preserved { M.preserved map.old map.new }
    ensures records { KeepsRecords (M.state map.old) (M.state map.new) }
    ensures goes { Goes (λ found. (records : Records)
        → AreAheadTo (M.ahead_within map.old stop.now) stop.now lists.now (M.state map.old) place.old records
        → Takes (IsFoundAt (M.found_at map.new) place.new)
        (AreAheadTo (M.ahead_within map.new stop.now) stop.now lists.now (M.state map.new) place.new)
        found records)
        result (view_state lists.now (M.state map.old)) (view_state lists.now (M.state map.new)) }
{
    let mut view = View::new(alloc, map, lists);
    let found = view.step_within(place, stop);
    view.into_map();
    found
}
