//! A map under changes that are not committed.
ghost use Rattle.std.specs.Prelude.{◌≡◌, false, ◌&&◌, ◌++◌, ◌∷◌, [], ℕ, List, Some, None, MatchOption, IfOk, IfErr, OnOk};
ghost use Rattle.std.specs.Option.{option_copied};
ghost use Rattle.std.specs.Ordering.{is_lt};
ghost use Rattle.store.specs.Records.{Changes, Record, Records, IsOrdered, key_cmp};
ghost use Rattle.store.specs.Walks.{span};
ghost use Rattle.store.specs.Store.{OnlyReads, HasReadCause, failed_after};
ghost use Rattle.transactions.specs.Views.{view_state, ordered_view, latest, HasLeast, applied_all};
ghost use Rattle.transactions.specs.Places.{AreAhead, AreAheadTo, IsFoundAt, ahead_cut, ahead_later};
ghost use Rattle.transactions.specs.Calls.{IsStep, KeepsLists, keeps_same, keeps_joined, KeepsRecords, records_same, records_joined};

use crate::merge::{Merge, MergedPlace, count_merged, lent, step_merged, step_merged_within};
use crate::place::ViewPlace;
use std::alloc::{AllocError, Global};
use store::{Batch, Change, Entry, EntryRef, Map, StoreFault, comes_before, is_within};

/// A map as it would be with lists of changes made, the first list first. It is a map itself, so
/// that what reads a store reads a transaction's records in the same way.
#[derive(Drop)]
pub struct View<'a, M> {
    map: &'a mut M,
    lists: &'a [Batch],
    from: Vec<u8>,
    alloc: Global,
}

// What a read of a view from a key on comes to.
enum Step {
    /// The least entry.
    Found,
    /// No entry.
    End,
    /// An entry that the changes remove: the read goes on after it.
    Removed,
}

// The change of a key in the last list that has one, or `None` where no list has one.
fn latest_change<'a>(lists: &'a [Batch], key: &[u8]) -> Option<&'a Change>
    ensures { MatchOption result (latest key.now lists.now ≡ None)
        (λ change. latest key.now lists.now ≡ Some change.now.1) }
{
    let mut at = lists.len();
    while at > 0 {
        at -= 1;
        if let Some(change) = lists[at].find(key) {
            return Some(change);
        }
    }
    None
}

// The change of the least key from this one on, as the last list has it that names that key, or
// `None` where no list names one.
pub(crate) fn least_change<'a>(lists: &'a [Batch], from: &[u8]) -> Option<&'a Change>
    ensures { HasLeast from.now (option_copied result) lists.now }
{
    let mut least: Option<&'a Change> = None;
    for list in lists {
        least = lesser(least, first_change(list, from));
    }
    least
}

// The change of the least key from this one on in one list.
fn first_change<'a>(list: &'a Batch, from: &[u8]) -> Option<&'a Change>
    ensures { HasLeast from.now (option_copied result) (list.now ∷ []) }
{
    // For the proof: the list is in order.
    let _in_order = list.pieces();
    list.first_from(from)
}

// Of the least changes of two parts of the lists the one of the lesser key, and of two with one key
// the later.
fn lesser<'a>(earlier: Option<&'a Change>, later: Option<&'a Change>) -> Option<&'a Change>
    ensures { (from : List ℕ) (lists more : List Changes) → HasLeast from (option_copied earlier.entry) lists
        → HasLeast from (option_copied later.entry) more
        → HasLeast from (option_copied result) (lists ++ more) }
{
    let Some(first) = earlier else {
        return later;
    };
    let Some(second) = later else {
        return Some(first);
    };
    if comes_before(first.key(), second.key()) {
        Some(first)
    } else {
        Some(second)
    }
}

// Whether a list names a key of a span.
fn changes_span(lists: &[Batch], start: &[u8], stop: &[u8]) -> bool
    ensures { result ≡ false → (es : Records) → IsOrdered es
        → span start.now stop.now (applied_all lists.now es) ≡ span start.now stop.now es }
{
    match least_change(lists, start) {
        Some(change) => is_within(stop, change.key()),
        None => false,
    }
}

// Whether an entry was found and comes before a change.
pub(crate) fn found_before(found: bool, entry: &Entry, change: &Change) -> bool
    ensures { result ≡ (found && is_lt (key_cmp entry.now.0 change.now.0)) }
{
    found && comes_before(entry.key(), change.key())
}

impl<'a, M: Map> View<'a, M> {
    /// The map under these lists of changes. Nothing is read or allocated yet.
    pub fn new(alloc: Global, map: &'a mut M, lists: &'a [Batch]) -> View<'a, M>
        ensures same_map { result.map.ghost_name ≡ map.entry.ghost_name }
        ensures map { result.map.now ≡ map.old }
        ensures lists { result.lists.now ≡ lists.now }
    {
        View {
            map,
            lists,
            from: Vec::new(alloc),
            alloc,
        }
    }

    /// The map, given back to whoever lent it, who then knows what reads have made of it: of a view
    /// that is dropped nothing is known.
    pub fn into_map(self) -> &'a mut M
        ensures same_map { result.ghost_name ≡ self.entry.map.ghost_name }
        ensures map { result.now ≡ self.entry.map.now }
    {
        let View {
            map,
            lists: _,
            from: _,
            alloc: _,
        } = self;
        map
    }

    // Sets the key from which the read goes on.
    fn go_from(&mut self, key: &[u8]) -> Result<(), AllocError>
        ensures keeps { KeepsLists self.old self.new }
        ensures map { self.new.map.now ≡ self.old.map.now }
        ensures from { OnOk result (self.new.from.items ≡ key.now) }
    {
        self.from.clear();
        self.from.extend_from_slice(key)
    }

    // Goes on behind a key.
    fn go_behind(&mut self, key: &[u8]) -> Result<(), AllocError>
        ensures keeps { KeepsLists self.old self.new }
        ensures map { self.new.map.now ≡ self.old.map.now }
        ensures from { OnOk result (self.new.from.items ≡ key.now ++ 0 ∷ []) }
    {
        self.go_from(key)?;
        self.from.push(0)?;
        Ok(())
    }

    // Looks for the least entry from the key on that is kept.
    fn step(&mut self, out: &mut Entry) -> Result<Step, StoreFault>
        ensures keeps { KeepsLists self.old self.new }
        ensures preserved { M.preserved self.old.map.now self.new.map.now }
        ensures only_reads { OnlyReads (M.state self.old.map.now) (M.state self.new.map.now) }
        ensures failed { (M.state self.new.map.now).has_failed
            ≡ failed_after result (M.state self.old.map.now).has_failed }
        ensures cause { IfErr result
            (λ f. HasReadCause f (M.state self.old.map.now) (M.state self.new.map.now)) }
        ensures step { (M.state self.old.map.now).sound
            → IfOk result (λ step. IsStep self.old.from.items step out.new self.new.from.items
            (applied_all self.old.lists.now (M.state self.old.map.now).map)) }
    {
        let found = self.map.scan_from(&self.from, out)?;
        let Some(least) = least_change(self.lists, &self.from) else {
            return Ok(if found { Step::Found } else { Step::End });
        };
        if found_before(found, out, least) {
            return Ok(Step::Found);
        }
        match least.value() {
            Some(value) => {
                out.set(least.key(), value)?;
                Ok(Step::Found)
            }
            None => {
                self.go_behind(least.key())?;
                Ok(Step::Removed)
            }
        }
    }
}

impl<'a, M: Map> Map for View<'a, M> {
    type Place = ViewPlace<M::Place>;

    ghost state = { λ v. view_state v.lists.now (M.state v.map.now) };

    ghost preserved = { λ v later. KeepsLists v later × M.preserved v.map.now later.map.now
        × KeepsRecords (M.state v.map.now) (M.state later.map.now) };

    ghost preserved_same = { λ v.
        (keeps_same v, M.preserved_same v.map.now, records_same (M.state v.map.now)) };

    ghost preserved_joined = { λ v mid later first second. (
      keeps_joined v mid later first.0 second.0,
      M.preserved_joined v.map.now mid.map.now later.map.now first.1 second.1,
      records_joined (M.state v.map.now) (M.state mid.map.now) (M.state later.map.now) first.2 second.2,
    ) };

    ghost cost = { λ v later most. Unit {0} };

    ghost cost_none = { λ v. tt };

    ghost cost_joined = { λ v mid later first second one other. tt };

    ghost cost_within = { λ v later less most below spent. tt };

    ghost ahead = { λ v place records. AreAhead (M.ahead v.map.now) v.lists.now (M.state v.map.now)
        place records };

    ghost ahead_within = { λ v stop place records. AreAheadTo (M.ahead_within v.map.now stop) stop
        v.lists.now (M.state v.map.now) place records };

    ghost found_at = { λ v place found. IsFoundAt (M.found_at v.map.now) place found };

    ghost ahead_stays = { λ v later place records kept is. ahead_later (M.ahead v.map.now)
        (M.ahead later.map.now) v.lists.now later.lists.now (M.state v.map.now)
        (M.state later.map.now)
        (λ below stay. M.ahead_stays v.map.now later.map.now below stay kept.1)
        kept.0.lists kept.2 place records is };

    ghost ahead_cut = { λ v stop place records rise is. ahead_cut (M.ahead v.map.now)
        (M.ahead_within v.map.now stop) stop v.lists.now (M.state v.map.now)
        (λ sound. M.ordered v.map.now sound)
        (λ below rest rises at. M.ahead_cut v.map.now stop below rest rises at) place records rise is };

    ghost ordered = { λ v sound.
        ordered_view v.lists.now (M.state v.map.now).map (M.ordered v.map.now sound) };

    ghost only_now = { λ v sound. M.only_now v.map.now sound };

    fn get(&mut self, key: &[u8], out: &mut Entry) -> Result<bool, StoreFault> {
        match latest_change(self.lists, key) {
            Some(change) => match change.value() {
                Some(value) => {
                    out.set(key, value)?;
                    Ok(true)
                }
                None => Ok(false),
            },
            None => self.map.get(key, out),
        }
    }

    fn scan_from(&mut self, key: &[u8], out: &mut Entry) -> Result<bool, StoreFault> {
        if self.lists.is_empty() {
            return self.map.scan_from(key, out);
        }
        self.go_from(key)?;
        for _ in 0..u64::MAX {
            match self.step(out) {
                Ok(Step::Found) => return Ok(true),
                Ok(Step::End) => return Ok(false),
                Ok(Step::Removed) => {}
                Err(fault) => return Err(fault),
            }
        }
        Err(StoreFault::Memory)
    }

    fn contains(&mut self, key: &[u8]) -> Result<bool, StoreFault> {
        match latest_change(self.lists, key) {
            Some(change) => Ok(change.value().is_some()),
            None => self.map.contains(key),
        }
    }

    fn count_to(&mut self, start: &[u8], stop: &[u8], most: u64) -> Result<u64, StoreFault> {
        if !changes_span(self.lists, start, stop) {
            return self.map.count_to(start, stop, most);
        }
        let below = self.map.seek(start)?;
        let merge = Merge::from_key(self.alloc, self.lists, start)?;
        let mut place = MergedPlace { below, merge };
        count_merged(self.map, self.lists, &mut place, stop, most)
    }

    fn seek(&mut self, key: &[u8]) -> Result<ViewPlace<M::Place>, StoreFault> {
        let below = self.map.seek(key)?;
        if self.lists.is_empty() {
            return Ok(ViewPlace::Below(below));
        }
        let merge = Merge::from_key(self.alloc, self.lists, key)?;
        Ok(ViewPlace::Merged(MergedPlace { below, merge }))
    }

    fn step(&mut self, place: &mut ViewPlace<M::Place>) -> Result<bool, StoreFault> {
        match place {
            ViewPlace::Below(below) => self.map.step(below),
            ViewPlace::Merged(merged) => step_merged(self.map, self.lists, merged),
        }
    }

    fn step_within(
        &mut self,
        place: &mut ViewPlace<M::Place>,
        stop: &[u8],
    ) -> Result<bool, StoreFault> {
        match place {
            ViewPlace::Below(below) => self.map.step_within(below, stop),
            ViewPlace::Merged(merged) => step_merged_within(self.map, self.lists, merged, stop),
        }
    }

    fn entry<'b>(&'b self, place: &'b ViewPlace<M::Place>) -> EntryRef<'b> {
        entry_at(self.map, place)
    }
}

/// The record that the last step of a view to this place found, lent by the map below or the place. So it can be read
/// while no view holds the map.
pub fn entry_at<'a, M: Map>(map: &'a M, place: &'a ViewPlace<M::Place>) -> EntryRef<'a>
    ensures { (e : Record) → IsFoundAt (M.found_at map.now) place.now e → result ≡ e }
{
    match place {
        ViewPlace::Below(below) => map.entry(below),
        ViewPlace::Merged(merged) => lent(map, merged),
    }
}
