//! Commits of a store on a device, which are those of its kind.
ghost use Rattle.std.specs.Prelude.{◌≡◌, false, [], Ok, OnErr};
ghost use Rattle.storage_sizes.specs.declared.record_format.RecordFormat.TheVariants.{V2};
ghost use Rattle.store.specs.Contents.{changed_by_batch, changed_in};
ghost use Rattle.store.specs.Store.{Commits, stored};
ghost use Rattle.kv_store.specs.declared.reserve.Reserve.TheVariants.{Kept, Open};
ghost use Rattle.journal_store.specs.DeviceCommits.{CommitsOn};
ghost use Rattle.journal_store.specs.DeviceStoreLaws.{settled_on};
ghost use Rattle.journal_store.specs.DeviceStores.{store_state};

use crate::device_stores::DeviceStore;
use crate::devices::JournalDevice;
use sector_device::Device;
use store::{Batch, RecordFormat, Store, StoreFault};

impl<D: JournalDevice> Store for DeviceStore<D> {
    ghost closes = { λ s. tt };

    ghost settled = { λ s x sound worked left. settled_on s x sound worked left };

    fn number(&self) -> u64 {
        match self {
            DeviceStore::Pages(store) => store.number(),
            DeviceStore::Journaled(store) => store.number(),
        }
    }

    fn fulls(&self) -> u64 {
        match self {
            DeviceStore::Pages(store) => store.fulls(),
            DeviceStore::Journaled(store) => store.fulls(),
        }
    }

    fn failures(&self) -> u64 {
        match self {
            DeviceStore::Pages(store) => store.failures(),
            DeviceStore::Journaled(store) => store.failures(),
        }
    }

    fn record_format(&self) -> RecordFormat {
        match self {
            DeviceStore::Pages(store) => store.record_format(),
            DeviceStore::Journaled(store) => store.record_format(),
        }
    }

    /// Commits all changes of a batch, or none of them, as `Store` says: to the pages, or, with a journal, as a record of it
    /// where there is room. Full without a journal: too few pages were free for the batch, or for the reserve beside it. Full
    /// with a journal: so it was once what waited was in the pages, or for what waits by itself (`HadNoRoomLeft` has the exact
    /// words). Without a journal a batch that changes the records raises the number by one; with one, a record does.
    fn commit(&mut self, batch: &mut Batch) -> Result<(), StoreFault>
        ensures commits { Commits result (changed_by_batch batch.old (stored (store_state self.old)))
            (store_state self.old) (store_state self.new) }
        ensures empty { batch.old ≡ [] → (store_state self.old).has_failed ≡ false
            → (result ≡ Ok tt) × (self.new ≡ self.old) }
        ensures kind { CommitsOn Kept batch.old (changed_by_batch batch.old) result self.old self.new }
        ensures given_back { OnErr result (batch.new ≡ batch.old) }
    {
        match self {
            DeviceStore::Pages(store) => store.commit(batch),
            DeviceStore::Journaled(store) => store.commit(batch),
        }
    }

    /// Commits all changes of a batch and with them that the records are of record format 2, as `Store` says. Without a
    /// journal it may take the reserve; with one the records are of that format already, and it is a commit. All else is as at
    /// `commit`.
    fn commit_migration(&mut self, batch: &Batch) -> Result<(), StoreFault>
        ensures commits { Commits result (changed_in V2 batch.now (stored (store_state self.old)))
            (store_state self.old) (store_state self.new) }
        ensures kind { CommitsOn Open batch.now (changed_in V2 batch.now) result self.old self.new }
    {
        match self {
            DeviceStore::Pages(store) => store.commit_migration(batch),
            DeviceStore::Journaled(store) => store.commit_migration(batch),
        }
    }
}
