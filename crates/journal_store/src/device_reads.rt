//! Reads of a store on a device, which are those of its kind.
ghost use Rattle.std.specs.Prelude.{◌≡◌};
ghost use Rattle.journal_store.specs.DeviceStores.{device_of, store_state};
ghost use Rattle.journal_store.specs.DeviceReads.{OnlyLooksInto, AreAhead, AreAheadWithin, IsFoundAt, looks_none, looks_joined, ahead_stays, ahead_cut, records_rise_on, faithful_under, present_on, nowhere};

use crate::device_stores::DeviceStore;
use crate::places::StorePlace;
use sector_device::Device;
use store::{Entry, EntryRef, Map, StoreFault};

impl<D: Device> Map for DeviceStore<D> {
    type Place = StorePlace;

    ghost state = { λ s. store_state s };

    ghost preserved = { λ s later. OnlyLooksInto s later };

    ghost preserved_same = { λ s. looks_none s };

    ghost preserved_joined = { λ s mid later first second. looks_joined s mid later first second };

    ghost cost = { λ s later most. Unit {0} };

    ghost cost_none = { λ s. tt };

    ghost cost_joined = { λ s mid later first second one other. tt };

    ghost cost_within = { λ s later less most below spent. tt };

    ghost ahead = { λ s place records. AreAhead s place records };

    ghost ahead_within = { λ s stop place records. AreAheadWithin s stop place records };

    ghost found_at = { λ s place found. IsFoundAt s place found };

    ghost ahead_stays = { λ s later place records looks is. ahead_stays s later place records looks is };

    ghost ahead_cut = { λ s stop place records rise is. ahead_cut s stop place records rise is };

    ghost ordered = { λ s sound. records_rise_on s sound };

    ghost only_now = { λ s sound.
        present_on s (D.only_now (device_of s) (faithful_under s sound)) };

    /// Reads the entry of `key`, as `Map` says, and writes nothing.
    fn get(&mut self, key: &[u8], out: &mut Entry) -> Result<bool, StoreFault> {
        match self {
            DeviceStore::Pages(store) => store.get(key, out),
            DeviceStore::Journaled(store) => store.get(key, out),
        }
    }

    /// Reads the least entry at `key` or after it, as `Map` says, and writes nothing.
    fn scan_from(&mut self, key: &[u8], out: &mut Entry) -> Result<bool, StoreFault> {
        match self {
            DeviceStore::Pages(store) => store.scan_from(key, out),
            DeviceStore::Journaled(store) => store.scan_from(key, out),
        }
    }

    /// Whether `key` has an entry, as `Map` says. It writes nothing.
    fn contains(&mut self, key: &[u8]) -> Result<bool, StoreFault> {
        match self {
            DeviceStore::Pages(store) => store.contains(key),
            DeviceStore::Journaled(store) => store.contains(key),
        }
    }

    /// Counts the records of a span up to `most`, as `Map` says, and writes nothing.
    fn count_to(&mut self, start: &[u8], stop: &[u8], most: u64) -> Result<u64, StoreFault> {
        match self {
            DeviceStore::Pages(store) => store.count_to(start, stop, most),
            DeviceStore::Journaled(store) => store.count_to(start, stop, most),
        }
    }

    /// Begins a walk at `key`, as `Map` says. Nothing is written.
    fn seek(&mut self, key: &[u8]) -> Result<StorePlace, StoreFault> {
        match self {
            DeviceStore::Pages(store) => match store.seek(key) {
                Ok(walk) => Ok(StorePlace::InPages(walk)),
                Err(fault) => Err(fault),
            },
            DeviceStore::Journaled(store) => match store.seek(key) {
                Ok(place) => Ok(StorePlace::UnderChanges(place)),
                Err(fault) => Err(fault),
            },
        }
    }

    /// Goes on with a walk, as `Map` says, and writes nothing. Of a place of a store of the other kind nothing is said.
    fn step(&mut self, place: &mut StorePlace) -> Result<bool, StoreFault> {
        match self {
            DeviceStore::Pages(store) => match place {
                StorePlace::InPages(walk) => store.step(walk),
                StorePlace::UnderChanges(_) => step_nowhere(store.has_failed()),
            },
            DeviceStore::Journaled(store) => match place {
                StorePlace::InPages(_) => step_nowhere(store.has_failed()),
                StorePlace::UnderChanges(place) => store.step(place),
            },
        }
    }

    /// Goes on with a walk up to a stop, as `Map` says, and writes nothing. Of a place of a store of the other kind nothing is
    /// said.
    fn step_within(&mut self, place: &mut StorePlace, stop: &[u8]) -> Result<bool, StoreFault> {
        match self {
            DeviceStore::Pages(store) => match place {
                StorePlace::InPages(walk) => store.step_within(walk, stop),
                StorePlace::UnderChanges(_) => step_nowhere(store.has_failed()),
            },
            DeviceStore::Journaled(store) => match place {
                StorePlace::InPages(_) => step_nowhere(store.has_failed()),
                StorePlace::UnderChanges(place) => store.step_within(place, stop),
            },
        }
    }

    fn entry<'a>(&'a self, place: &'a StorePlace) -> EntryRef<'a> {
        match self {
            DeviceStore::Pages(store) => match place {
                StorePlace::InPages(walk) => store.entry(walk),
                StorePlace::UnderChanges(_) => no_entry(),
            },
            DeviceStore::Journaled(store) => match place {
                StorePlace::InPages(_) => no_entry(),
                StorePlace::UnderChanges(place) => store.entry(place),
            },
        }
    }
}

// The answer to a step from a place of a store of the other kind.
fn step_nowhere(has_failed: bool) -> Result<bool, StoreFault>
    ensures { result ≡ nowhere has_failed }
{
    if has_failed {
        Err(StoreFault::Device)
    } else {
        Ok(false)
    }
}

// What is lent at a place of a store of the other kind.
fn no_entry<'a>() -> EntryRef<'a> {
    let nothing = "".as_bytes();
    EntryRef {
        key: nothing,
        value: nothing,
    }
}
