//! Stores of a test.

use crate::journals::devices::{DeviceEvent, PAGES, TestDevice, WriteProtectedDevice};
use crate::journals::images::{SectorChoice, TestImage};
use crate::journals::logged::LoggedDevice;
use crate::journals::record_lists::same_records;
use crate::journals::script::BatchScript;
use crate::journals::tally::TestTally;
use crate::stores::devices::format;
use crate::stores::map_calls::{commit, look_up};
use anyhow::{Result, bail};
use journal_store::DeviceStore;
use kv_store::{MAX_CACHE_PAGES, OpenFault, PageStore};
use sector_device::{MemDevice, WriteProtected};
use std::alloc::Global;
use store::{Batch, Entry, Map, MemStore, Store, StoreFault};

/// The store on a device of a test.
pub struct TestStore {
    alloc: Global,
    store: DeviceStore<WriteProtectedDevice>,
}

// Written and not derived: where a value is dropped this is one call, and not its parts one by one.
impl Drop for TestStore {
    fn drop(self) {
        let TestStore { alloc: _, store: _ } = self;
    }
}

impl TestStore {
    /// The store on a device, with a cache of so many pages, or the device and why it is not opened.
    pub fn open(
        script: &BatchScript,
        device: TestDevice,
    ) -> Result<TestStore, (TestDevice, OpenFault)> {
        let cache = script.cache.clamp(1, MAX_CACHE_PAGES);
        match DeviceStore::open_with(script.alloc, device.into_guarded(), cache) {
            Ok(store) => Ok(TestStore {
                alloc: script.alloc,
                store,
            }),
            Err((guarded, fault)) => Err((TestDevice::of(guarded), fault)),
        }
    }

    /// Commits a batch.
    pub fn commit(&mut self, batch: &mut Batch) -> Result<(), StoreFault> {
        commit(&mut self.store, batch)
    }

    /// The number of the last commit.
    pub fn number(&self) -> u64 {
        self.store.number()
    }

    /// How often the device has failed.
    pub fn failures(&self) -> u64 {
        self.store.failures()
    }

    /// Whether it has a journal.
    pub fn has_journal(&self) -> bool {
        matches!(&self.store, DeviceStore::Journaled(_))
    }

    /// How many sectors its device was written, and how many syncs it made.
    pub fn written(&self) -> (u64, u64) {
        let device = self.store.device().device();
        (device.writes, device.syncs)
    }

    /// Lets something happen to its device.
    pub fn prepare(&self, event: DeviceEvent) {
        event.prepare(&self.store.device().device().device);
    }

    /// Whether it answers Device alone: a read, and the commit of a batch.
    pub fn is_closed(&mut self, batch: &mut Batch) -> bool {
        let mut entry = Entry::new(self.alloc);
        let read = look_up(&mut self.store, &[1], &mut entry);
        let committed = commit(&mut self.store, batch);
        read == Err(StoreFault::Device) && committed == Err(StoreFault::Device)
    }

    /// Whether it has the records of a store in memory.
    pub fn has(&mut self, wanted: &mut MemStore) -> Result<bool, StoreFault> {
        same_records(self.alloc, &mut self.store, wanted)
    }

    /// Its device.
    pub fn into_device(self) -> TestDevice {
        let TestStore { alloc: _, store } = self;
        TestDevice::of(store.into_device())
    }
}

/// The store on a device.
pub fn opened(script: &BatchScript, device: TestDevice) -> Result<TestStore> {
    match TestStore::open(script, device) {
        Ok(store) => Ok(store),
        Err((_, fault)) => bail!("not opened: {fault:?}"),
    }
}

/// Makes the commit of an index in a life, and sees that it is made.
pub fn commit_whole(
    script: &BatchScript,
    store: &mut TestStore,
    index: usize,
    life: u8,
    tally: &mut TestTally,
) -> Result<()> {
    let answer = store.commit(&mut script.batch(index, life)?);
    tally.disagree(answer.is_ok(), "a commit is not made");
    Ok(())
}

/// Makes so many commits, the first ones, in the first life.
pub fn commit_first(
    script: &BatchScript,
    store: &mut TestStore,
    commits: usize,
    tally: &mut TestTally,
) -> Result<()> {
    for index in 0..commits {
        commit_whole(script, store, index, 0, tally)?;
    }
    Ok(())
}

/// A device with a new store, with a journal or without, that has the record of the role root.
pub fn new_device(alloc: Global, has_journal: bool) -> Result<TestDevice> {
    let mut guarded = WriteProtected::new(LoggedDevice::new(MemDevice::new(alloc, PAGES)?));
    format(
        alloc,
        &mut guarded,
        has_journal,
        "\u{1}root".as_bytes(),
        &[3],
    )?;
    Ok(TestDevice::of(guarded))
}

/// Whether what a device holds opens as a store in pages alone, with the records of a store in memory.
pub fn opens_in_pages(
    script: &BatchScript,
    image: &TestImage,
    wanted: &mut MemStore,
) -> Result<bool> {
    let cache = script.cache.clamp(1, MAX_CACHE_PAGES);
    match PageStore::open_with(script.alloc, image.device()?.into_guarded(), cache) {
        Ok(store) => Ok(has_records(script.alloc, store, wanted)?),
        Err(_) => Ok(false),
    }
}

/// Whether a store has the records of a store in memory.
fn has_records<M: Map + Drop>(
    alloc: Global,
    store: M,
    wanted: &mut MemStore,
) -> Result<bool, StoreFault> {
    let mut store = store;
    same_records(alloc, &mut store, wanted)
}

/// What a device holds that is started again with its sectors as they were at the last sync.
pub fn synced(alloc: Global, device: TestDevice) -> Result<TestImage> {
    Ok(TestImage::of(alloc, device)?.restarted(SectorChoice::Old)?)
}
