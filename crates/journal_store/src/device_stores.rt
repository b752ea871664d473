//! A store on a device, with a journal or without.
ghost use Rattle.std.specs.Prelude.{◌≡◌};

use crate::stores::JournalStore;
use kv_store::PageStore;
use sector_device::Device;

/// A store of the kind that the root on a device names: in pages alone, or in pages with a journal behind the root sectors. No
/// call makes one kind of the other.
#[derive(Drop)]
pub enum DeviceStore<D: Device> {
    /// In pages without a journal.
    Pages(PageStore<D>),
    /// In pages with a journal, whose sectors the device keeps beside.
    Journaled(JournalStore<D>),
}

impl<D: Device> DeviceStore<D> {
    ghost use Rattle.journal_store.specs.DeviceStores.{device_of, store_state};

    /// Whether it has answered Device. Then it answers nothing else.
    pub fn has_failed(&self) -> bool
        ensures { result ≡ (store_state self.now).has_failed }
    {
        match self {
            DeviceStore::Pages(store) => store.has_failed(),
            DeviceStore::Journaled(store) => store.has_failed(),
        }
    }

    /// The device below.
    pub fn device(&self) -> &D
        ensures { result.now ≡ device_of self.now }
    {
        match self {
            DeviceStore::Pages(store) => store.device(),
            DeviceStore::Journaled(store) => store.device(),
        }
    }

    /// Gives the device back, as it is. What waits in memory is in its journal.
    pub fn into_device(self) -> D
        ensures { result ≡ device_of self }
    {
        match self {
            DeviceStore::Pages(store) => store.into_device(),
            DeviceStore::Journaled(store) => store.into_device(),
        }
    }
}
