//! A walk between the records of a map and the changes of lists.
ghost use Rattle.std.specs.Prelude.{◌≡◌, ◌≢◌, ◌++◌, ◌∷◌, [], List, ℕ, IfOk, IfErr, OnOk};
ghost use Rattle.std.specs.Option.{option_copied};
ghost use Rattle.std.specs.Ordering.{is_lt};
ghost use Rattle.store.specs.Records.{Record, Records, Changes, IsOrdered, entries_where, is_from, key_cmp};
ghost use Rattle.store.specs.Steps.{Goes, Takes};
ghost use Rattle.store.specs.Walks.{count_to, is_within};
ghost use Rattle.store.specs.Store.{OnlyReads, HasReadCause, failed_after};
ghost use Rattle.transactions.specs.Views.{applied_all, view_state, HasLeast};
ghost use Rattle.transactions.specs.Merging.{AreMerged, IsHeld, IsLent, IsMerge, IsPassed, IsReadBelow, comes_first, is_read, is_unread, passed};
ghost use Rattle.transactions.specs.Within.{AreMergedTo, change_within, cut_at, cut_below, lists_within};

use crate::view::{found_before, least_change};
use sql_types::try_copy::TryCopy;
use std::alloc::{AllocError, Global};
use std::mem;
use store::{Batch, Change, Entry, EntryRef, Map, StoreFault, comes_before, is_within};

/// What the map has ahead of a walk.
#[derive(Clone, Copy, Drop)]
pub(crate) enum Below {
    /// What is ahead of its place.
    Unread,
    /// The record that was read, and then what is ahead of its place.
    Read,
    /// Nothing.
    Ended,
}

impl Below {
    // Whether a record was read.
    fn is_read(self) -> bool
        ensures { result ≡ is_read self }
    {
        match self {
            Below::Read => true,
            Below::Unread | Below::Ended => false,
        }
    }

    // Whether nothing is known of what is ahead of its place.
    fn is_unread(self) -> bool
        ensures { result ≡ is_unread self }
    {
        match self {
            Below::Unread => true,
            Below::Read | Below::Ended => false,
        }
    }

    // What is ahead behind a change, which comes before the record that was read, or has its key.
    fn passed(self, comes_before: bool) -> Below
        ensures { result ≡ passed self comes_before }
    {
        match self {
            Below::Read => {
                if comes_before {
                    Below::Read
                } else {
                    Below::Unread
                }
            }
            Below::Unread => Below::Unread,
            Below::Ended => Below::Ended,
        }
    }

    // What is ahead up to a stop, where this is the record that was read.
    fn cut(self, stop: &[u8], read: &Entry) -> Below
        ensures { result ≡ cut_below self (is_within stop.now read.now.0) }
    {
        match self {
            Below::Read => {
                if is_within(stop, read.key()) {
                    Below::Read
                } else {
                    Below::Ended
                }
            }
            Below::Unread => Below::Unread,
            Below::Ended => Below::Ended,
        }
    }
}

/// Where the entry lies that a walk found last.
#[derive(Clone, Copy, Drop)]
pub(crate) enum Found {
    /// In the map, at the place below.
    InMap,
    /// In the walk, which keeps it.
    Held,
}

/// What was passed at a step.
pub(crate) enum Passed {
    /// The entry that is found.
    Entry,
    /// Nothing, for nothing is ahead.
    Nothing,
    /// A change that removes its key.
    Removal,
}

/// Where a walk goes on between the records of a map and the changes of lists, and where the entry
/// lies that it found last. It borrows neither of the two.
#[derive(Drop)]
pub struct Merge {
    pub(crate) ahead: Below,
    // A copy of the record of the map that was read, which waits behind a change.
    pub(crate) read: Entry,
    // A copy of the least change ahead.
    pub(crate) least: Option<Change>,
    // Where the entry lies that was found last.
    pub(crate) found: Found,
    // That entry, where it is not one of the map at its place.
    pub(crate) entry: Entry,
    // The key behind the change that was passed last.
    next: Vec<u8>,
}

/// A place of a map, and where a walk goes on between the records ahead of it and changes of lists.
#[derive(Drop)]
pub struct MergedPlace<P> {
    pub(crate) below: P,
    pub(crate) merge: Merge,
}

// A change, if its key is within a stop.
fn within(stop: &[u8], change: Option<Change>) -> Option<Change>
    ensures { result ≡ change_within stop.now change }
{
    match change {
        Some(change) => {
            if is_within(stop, change.key()) {
                Some(change)
            } else {
                None
            }
        }
        None => None,
    }
}

// A copy of a change, if there is one.
fn copied(alloc: Global, change: Option<&Change>) -> Result<Option<Change>, AllocError>
    ensures { IfOk result (λ copy. copy ≡ option_copied change.entry) }
{
    match change {
        Some(change) => Ok(Some(change.try_copy(alloc)?)),
        None => Ok(None),
    }
}

impl Merge {
    // A walk from a key on.
    pub(crate) fn from_key(alloc: Global, lists: &[Batch], key: &[u8]) -> Result<Merge, AllocError>
        ensures unread { IfOk result (λ merge. merge.ahead ≡ Below.Unread) }
        ensures merge { IfOk result (λ merge. (es : Records)
            → IsMerge (entries_where (is_from key.now) es) lists.now es
            merge (entries_where (is_from key.now) (applied_all lists.now es))) }
    {
        Ok(Merge {
            ahead: Below::Unread,
            read: Entry::new(alloc),
            least: copied(alloc, least_change(lists, key))?,
            found: Found::Held,
            entry: Entry::new(alloc),
            next: Vec::new(alloc),
        })
    }

    // Passes the record that was read, which is found.
    fn pass_record(&mut self)
        ensures held { IsHeld self.new self.old.read }
        ensures ahead { self.new.ahead ≡ Below.Unread }
        ensures least { self.new.least ≡ self.old.least }
    {
        mem::swap(&mut self.entry, &mut self.read);
        self.found = Found::Held;
        self.ahead = Below::Unread;
    }

    // Passes the least change.
    fn pass_change(&mut self, change: &Change, lists: &[Batch]) -> Result<(), AllocError>
        ensures read { self.new.read ≡ self.old.read }
        ensures ahead { OnOk result (self.new.ahead
            ≡ passed self.old.ahead (is_lt (key_cmp change.now.0 self.old.read.0))) }
        ensures least { OnOk result (HasLeast (change.now.0 ++ 0 ∷ []) self.new.least lists.now) }
    {
        self.ahead = self
            .ahead
            .passed(comes_before(change.key(), self.read.key()));
        self.next.clear();
        self.next.extend_from_slice(change.key())?;
        self.next.push(0)?;
        let alloc = *self.next.allocator();
        self.least = copied(alloc, least_change(lists, self.next.as_slice()))?;
        Ok(())
    }

    // Leaves out what is ahead behind a stop.
    fn cut(&mut self, stop: &[u8])
        ensures { self.new ≡ cut_at stop.now self.old }
    {
        self.ahead = self.ahead.cut(stop, &self.read);
        self.least = within(stop, self.least.take());
    }

    // Passes what comes first, where the record of the map that is ahead was read. A walk up to a
    // stop, of which nothing behind it was left, is to be cut there again.
    fn pass(&mut self, lists: &[Batch]) -> Result<Passed, AllocError>
        ensures passed { (rest : Records) (es : Records) (records : Records) → IsOrdered es
            → self.old.ahead ≢ Below.Unread → IsMerge rest lists.now es self.old records
            → IfOk result (λ passed. IsPassed rest lists.now es passed self.new records) }
        ensures within { (stop : List ℕ) (rest : Records) (es : Records) (records : Records)
            → IsOrdered es → self.old.ahead ≢ Below.Unread
            → IsMerge rest (lists_within stop lists.now) (entries_where (is_within stop) es) self.old records
            → IfOk result (λ passed. IsPassed rest (lists_within stop lists.now)
            (entries_where (is_within stop) es) passed (cut_at stop self.new) records) }
        ensures ended { OnOk result (self.old.ahead ≡ Below.Ended → self.new.ahead ≡ Below.Ended) }
    {
        let found = self.ahead.is_read();
        let Some(least) = self.least.take() else {
            if found {
                self.pass_record();
                return Ok(Passed::Entry);
            }
            return Ok(Passed::Nothing);
        };
        if found_before(found, &self.read, &least) {
            self.least = Some(least);
            self.pass_record();
            return Ok(Passed::Entry);
        }
        self.pass_change(&least, lists)?;
        match least.value() {
            Some(value) => {
                self.entry.set(least.key(), value)?;
                self.found = Found::Held;
                Ok(Passed::Entry)
            }
            None => Ok(Passed::Removal),
        }
    }
}

// Whether the record that the map has found at its place comes before the least change, if one is
// ahead.
fn is_first<M: Map>(map: &M, place: &MergedPlace<M::Place>) -> bool
    ensures { (e : Record) → M.found_at map.now place.now.below e
        → result ≡ comes_first e.0 place.now.merge.least }
{
    match &place.merge.least {
        Some(change) => comes_before(map.entry(&place.below).key, change.key()),
        None => true,
    }
}

// Goes on in the map, where nothing is known of what is ahead of its place. True: the next record
// comes first, and is found. False: it comes behind a change and was read, or no record is ahead.
fn read_below<M: Map>(map: &mut M, place: &mut MergedPlace<M::Place>) -> Result<bool, StoreFault>
    ensures preserved { M.preserved map.old map.new }
    ensures only_reads { OnlyReads (M.state map.old) (M.state map.new) }
    ensures failed { (M.state map.new).has_failed
        ≡ failed_after result (M.state map.old).has_failed }
    ensures cause { IfErr result (λ f. HasReadCause f (M.state map.old) (M.state map.new)) }
    ensures read { (M.state map.old).sound → IfOk result (λ found. (lists : List Changes) (records : Records)
        → AreMerged (M.ahead map.old) lists (M.state map.old).map place.old records
        → IsReadBelow (IsLent (M.found_at map.new) place.new)
        (AreMerged (M.ahead map.new) lists (M.state map.old).map place.new)
        place.new.merge.ahead found records) }
{
    if !place.merge.ahead.is_unread() {
        return Ok(false);
    }
    if !map.step(&mut place.below)? {
        place.merge.ahead = Below::Ended;
        return Ok(false);
    }
    if is_first(map, place) {
        place.merge.found = Found::InMap;
        return Ok(true);
    }
    let entry = map.entry(&place.below);
    place.merge.read.set(entry.key, entry.value)?;
    place.merge.ahead = Below::Read;
    Ok(false)
}

// Goes on to the first entry ahead. True: it was found. False: none is ahead. The faults are those of
// the map, and Memory.
pub(crate) fn step_merged<M: Map>(
    map: &mut M,
    lists: &[Batch],
    place: &mut MergedPlace<M::Place>,
) -> Result<bool, StoreFault>
    ensures preserved { M.preserved map.old map.new }
    ensures only_reads { OnlyReads (M.state map.old) (M.state map.new) }
    ensures goes { Goes (λ found. (records : Records)
        → AreMerged (M.ahead map.old) lists.now (M.state map.old).map place.old records
        → Takes (IsLent (M.found_at map.new) place.new)
        (AreMerged (M.ahead map.new) lists.now (M.state map.old).map place.new)
        found records)
        result (view_state lists.now (M.state map.old)) (view_state lists.now (M.state map.new)) }
{
    for _ in 0..u64::MAX {
        if read_below(map, place)? {
            return Ok(true);
        }
        match place.merge.pass(lists)? {
            Passed::Entry => return Ok(true),
            Passed::Nothing => return Ok(false),
            Passed::Removal => {}
        }
    }
    Err(StoreFault::Memory)
}

// Goes on in the map up to a stop, where nothing is known of what is ahead of its place. True: the
// next record comes first, and is found. False: it comes behind a change and was read, or no record
// within the stop is ahead.
fn read_within<M: Map>(
    map: &mut M,
    place: &mut MergedPlace<M::Place>,
    stop: &[u8],
) -> Result<bool, StoreFault>
    ensures preserved { M.preserved map.old map.new }
    ensures only_reads { OnlyReads (M.state map.old) (M.state map.new) }
    ensures failed { (M.state map.new).has_failed
        ≡ failed_after result (M.state map.old).has_failed }
    ensures cause { IfErr result (λ f. HasReadCause f (M.state map.old) (M.state map.new)) }
    ensures read { (M.state map.old).sound → IfOk result (λ found. (lists : List Changes) (es : Records)
        (records : Records) → IsOrdered es → AreMerged (M.ahead_within map.old stop.now) lists es place.old records
        → IsReadBelow (IsLent (M.found_at map.new) place.new)
        (AreMerged (M.ahead_within map.new stop.now) lists es place.new)
        place.new.merge.ahead found records) }
{
    if !place.merge.ahead.is_unread() {
        return Ok(false);
    }
    if !map.step_within(&mut place.below, stop)? {
        place.merge.ahead = Below::Ended;
        return Ok(false);
    }
    if is_first(map, place) {
        place.merge.found = Found::InMap;
        return Ok(true);
    }
    let entry = map.entry(&place.below);
    place.merge.read.set(entry.key, entry.value)?;
    place.merge.ahead = Below::Read;
    Ok(false)
}

// Goes on to the first entry ahead whose key is within a stop. True: it was found. False: none is
// ahead, and no removal behind the stop was passed. The faults are those of the map, and Memory.
pub(crate) fn step_merged_within<M: Map>(
    map: &mut M,
    lists: &[Batch],
    place: &mut MergedPlace<M::Place>,
    stop: &[u8],
) -> Result<bool, StoreFault>
    ensures preserved { M.preserved map.old map.new }
    ensures only_reads { OnlyReads (M.state map.old) (M.state map.new) }
    ensures goes { Goes (λ found. (records : Records) → AreMergedTo (M.ahead_within map.old stop.now)
        stop.now lists.now (M.state map.old).map place.old records
        → Takes (IsLent (M.found_at map.new) place.new) (AreMergedTo (M.ahead_within map.new stop.now)
        stop.now lists.now (M.state map.old).map place.new) found records)
        result (view_state lists.now (M.state map.old)) (view_state lists.now (M.state map.new)) }
{
    for _ in 0..u64::MAX {
        place.merge.cut(stop);
        if read_within(map, place, stop)? {
            return Ok(true);
        }
        match place.merge.pass(lists)? {
            Passed::Entry => return Ok(true),
            Passed::Nothing => return Ok(false),
            Passed::Removal => {}
        }
    }
    Err(StoreFault::Memory)
}

// The entry that the last step to a place found, lent by the map or the place.
pub(crate) fn lent<'a, M: Map>(map: &'a M, place: &'a MergedPlace<M::Place>) -> EntryRef<'a>
    ensures { (e : Record) → IsLent (M.found_at map.now) place.now e → result ≡ e }
{
    match place.merge.found {
        Found::InMap => map.entry(&place.below),
        Found::Held => EntryRef {
            key: place.merge.entry.key(),
            value: place.merge.entry.value(),
        },
    }
}

// How many of the entries ahead have a key that comes before `stop` or begins with it, up to `most`.
// The faults are those of the map, and Memory.
pub(crate) fn count_merged<M: Map>(
    map: &mut M,
    lists: &[Batch],
    place: &mut MergedPlace<M::Place>,
    stop: &[u8],
    most: u64,
) -> Result<u64, StoreFault>
    ensures preserved { M.preserved map.old map.new }
    ensures only_reads { OnlyReads (M.state map.old) (M.state map.new) }
    ensures goes { Goes (λ count. (records : Records) → AreMergedTo (M.ahead_within map.old stop.now)
        stop.now lists.now (M.state map.old).map place.old records → count ≡ count_to most records)
        result (view_state lists.now (M.state map.old)) (view_state lists.now (M.state map.new)) }
{
    for count in 0..most {
        if !step_merged_within(map, lists, place, stop)? {
            return Ok(count);
        }
    }
    Ok(most)
}
