//! Maps of records, as what reads them sees them.
ghost use Rattle.std.specs.Prelude.{◌≡◌, ◌+◌, ◌≤◌, List, ℕ, is_some};
ghost use Rattle.sector_device.specs.Timeline.{IsPresent};
ghost use Rattle.store.specs.Records.{Record, Records, IsOrdered, entries_where, entry_at, first_from, is_from, lookup};
ghost use Rattle.store.specs.Store.{StoreState, OnlyReads, Reads, HasReadCause};
ghost use Rattle.store.specs.Steps.{Goes, Takes};
ghost use Rattle.store.specs.Walks.{count_to, is_within, span};

use crate::{Entry, EntryRef, StoreFault};

/// A map of records in the order of their keys, which are compared byte by byte.
///
/// A promise on the records is one on a map that is sound: the device below is faithful and holds
/// what this map's store left there. The causes of faults are promised of any map.
pub trait Map {
    /// A place between two records, at which a walk goes on. It is of use until the map changes.
    type Place: Drop;

    /// What the map is at one moment.
    ghost state: { Self → StoreState };

    /// What no read touches, between a map and the same map later, whatever was answered.
    ghost preserved: { Self → Self → Type 0 };

    /// Where nothing is read, it is preserved.
    ghost preserved_same: { (map : Self) → preserved map map };

    /// What two runs of reads leave alone, both together do.
    ghost preserved_joined: { (map mid later : Self) → preserved map mid → preserved mid later
        → preserved map later };

    /// What the calls between a map and the same map later cost, at most: each call costs one, and a count
    /// one more for each record that it counts. So code that works on any map makes no more calls than its
    /// contract says.
    ghost cost: { Self → Self → ℕ → Type 0 };

    /// Where nothing is called, it costs nothing.
    ghost cost_none: { (map : Self) → cost map map 0 };

    /// The costs of two runs of calls add up.
    ghost cost_joined: { (map mid later : Self) (first second : ℕ) → cost map mid first
        → cost mid later second → cost map later (first + second) };

    /// What costs so much at most, costs no more than a greater number.
    ghost cost_within: { (map later : Self) (less most : ℕ) → less ≤ most → cost map later less
        → cost map later most };

    /// These are the records ahead of a place.
    ghost ahead: { Self → Self.Place → Records → Type 0 };

    /// These are the records ahead of a place, up to the last whose key comes before a stop or begins with it.
    ghost ahead_within: { Self → List ℕ → Self.Place → Records → Type 0 };

    /// The last step to this place found this record.
    ghost found_at: { Self → Self.Place → Record → Type 0 };

    /// Reads the entry of `key`. True: `out` holds it. False: there is none, and nothing is said of
    /// `out`, nor after a fault. The faults are Memory and Device.
    fn get(&mut self, key: &[u8], out: &mut Entry) -> Result<bool, StoreFault>
        ensures preserved { preserved self.old self.new }
        ensures cost { cost self.old self.new 1 }
        ensures reads { Reads (entry_at key.now (state self.old).map) result out.new
            (state self.old) (state self.new) };

    /// Reads the least entry at `key` or after it. A scan goes on from the key found and a zero
    /// byte. True: `out` holds the entry. False: there is none, and nothing is said of `out`, nor
    /// after a fault. The faults are Memory and Device.
    fn scan_from(&mut self, key: &[u8], out: &mut Entry) -> Result<bool, StoreFault>
        ensures preserved { preserved self.old self.new }
        ensures cost { cost self.old self.new 1 }
        ensures reads { Reads (first_from key.now (state self.old).map) result out.new
            (state self.old) (state self.new) };

    /// Whether `key` has an entry. The faults are Memory and Device.
    fn contains(&mut self, key: &[u8]) -> Result<bool, StoreFault>
        ensures preserved { preserved self.old self.new }
        ensures cost { cost self.old self.new 1 }
        ensures goes { Goes (λ found. found ≡ is_some (lookup key.now (state self.old).map))
            result (state self.old) (state self.new) };

    /// How many records have a key from `start` on that comes before `stop` or begins with it, or `most` where they are as
    /// many or more: a count ends where it has come to `most`. The faults are Memory and Device.
    fn count_to(&mut self, start: &[u8], stop: &[u8], most: u64) -> Result<u64, StoreFault>
        ensures preserved { preserved self.old self.new }
        ensures cost { (state self.old).sound → cost self.old self.new
            (count_to most (span start.now stop.now (state self.old).map) + 1) }
        ensures goes { Goes (λ count. count ≡ count_to most (span start.now stop.now (state self.old).map))
            result (state self.old) (state self.new) };

    /// The place before the least key that is `key` or comes after it, where a walk begins. The
    /// faults are Memory and Device.
    fn seek(&mut self, key: &[u8]) -> Result<Self::Place, StoreFault>
        ensures preserved { preserved self.old self.new }
        ensures cost { cost self.old self.new 1 }
        ensures goes { Goes (λ place. ahead self.new place
            (entries_where (is_from key.now) (state self.old).map))
            result (state self.old) (state self.new) };

    /// Goes behind the first record ahead of a place. True: `entry` lends that record. False: none
    /// is ahead, and nothing is said of the place, nor after a fault. The faults are Memory and
    /// Device.
    fn step(&mut self, place: &mut Self::Place) -> Result<bool, StoreFault>
        ensures preserved { preserved self.old self.new }
        ensures cost { cost self.old self.new 1 }
        ensures goes { Goes (λ found. (records : Records) → ahead self.old place.old records
            → Takes (found_at self.new place.new) (ahead self.new place.new) found records)
            result (state self.old) (state self.new) };

    /// Goes behind the first record ahead of a place whose key comes before `stop` or begins with
    /// it: a step of a walk in which each step has this stop. True: `entry` lends that record.
    /// False: none is ahead, and nothing is said of the place, nor after a fault. Of what lies
    /// behind the stop one record at most is looked at. The faults are Memory and Device.
    fn step_within(&mut self, place: &mut Self::Place, stop: &[u8]) -> Result<bool, StoreFault>
        ensures preserved { preserved self.old self.new }
        ensures cost { cost self.old self.new 1 }
        ensures goes { Goes (λ found. (records : Records) → ahead_within self.old stop.now place.old records
            → Takes (found_at self.new place.new) (ahead_within self.new stop.now place.new) found records)
            result (state self.old) (state self.new) };

    /// The record that the last step to this place found, lent.
    fn entry<'a>(&'a self, place: &'a Self::Place) -> EntryRef<'a>
        ensures { (e : Record) → found_at self.now place.now e → result ≡ e };

    /// Reads leave what is ahead of a place.
    ghost ahead_stays: { (map later : Self) (place : Self.Place) (records : Records)
        → preserved map later → ahead map place records → ahead later place records };

    /// Of what is ahead of a place that part is ahead up to a stop whose keys come before it or
    /// begin with it.
    ghost ahead_cut: { (map : Self) (stop : List ℕ) (place : Self.Place) (records : Records)
        → IsOrdered records → ahead map place records
        → ahead_within map stop place (entries_where (is_within stop) records) };

    /// Keys rise.
    ghost ordered: { (map : Self) → (state map).sound → IsOrdered (state map).map };

    /// A stop at the present moment leaves what a stop now may leave.
    ghost only_now: { (map : Self) → (state map).sound → IsPresent (state map).time };
}

/// No read at all is reads, and reads after others are reads.
pub fn reads_join<M: Map>(old: &M, mid: &M, new: &M)
    ensures none { OnlyReads (M.state old.now) (M.state old.now) }
    ensures more { OnlyReads (M.state old.now) (M.state mid.now)
        → OnlyReads (M.state mid.now) (M.state new.now)
        → OnlyReads (M.state old.now) (M.state new.now) }
{}

/// The cause of a fault after reads that did not fail is a cause since the first of them.
pub fn causes_join<M: Map>(old: &M, mid: &M, new: &M, fault: StoreFault)
    ensures { OnlyReads (M.state old.now) (M.state mid.now)
        → (M.state mid.now).has_failed ≡ (M.state old.now).has_failed
        → OnlyReads (M.state mid.now) (M.state new.now)
        → HasReadCause fault (M.state mid.now) (M.state new.now)
        → HasReadCause fault (M.state old.now) (M.state new.now) }
{}
