//! The first page of the device below a store, brought to the medium as it is read.
ghost use Rattle.std.specs.Prelude.{◌≡◌, IfErr, OnOk};
ghost use Rattle.sector_device.specs.Device.{IsSynced};
ghost use Rattle.store.specs.Steps.{Goes};
ghost use Rattle.journal_store.specs.DeviceReads.{OnlyLooksInto};
ghost use Rattle.journal_store.specs.DeviceStores.{state_under, store_state};
ghost use Rattle.journal_store.specs.Reads.{KeepsJournal, IsStill};
ghost use Rattle.journal_store.specs.Stores.{device_under, journal_state};

use crate::device_stores::DeviceStore;
use crate::devices::JournalDevice;
use crate::stores::JournalStore;
use store::StoreFault;

impl<D: JournalDevice> JournalStore<D> {
    /// Writes the first page of the device again as it is read, the journal's sectors too, and brings it to the medium. To
    /// whoever reads the store or what a stop leaves of it, it is a read; after `Ok` a stop leaves each sector as it is read.
    /// `Device`: the device failed, in this call or an earlier one.
    pub fn renew(&mut self) -> Result<(), StoreFault>
        ensures preserved { KeepsJournal self.old self.new }
        ensures goes { Goes (λ _. Unit {0}) result (journal_state self.old) (journal_state self.new) }
        ensures still { IsStill result self.old self.new }
        ensures fault { IfErr result (λ fault. fault ≡ StoreFault.Device) }
        ensures synced { (device_under self.old).faithful → OnOk result (IsSynced (device_under self.new)) }
    {
        if self.has_failed() {
            return Err(StoreFault::Device);
        }
        self.store.renew()
    }
}

impl<D: JournalDevice> DeviceStore<D> {
    /// Writes the first page of the device again as it is read, and brings it to the medium. To whoever reads the store or
    /// what a stop leaves of it, it is a read; after `Ok` a stop leaves each sector as it is read. `Device`: the device
    /// failed, in this call or an earlier one, or it has no page, which none has that is faithful.
    pub fn renew(&mut self) -> Result<(), StoreFault>
        ensures preserved { OnlyLooksInto self.old self.new }
        ensures goes { Goes (λ _. Unit {0}) result (store_state self.old) (store_state self.new) }
        ensures fault { IfErr result (λ fault. fault ≡ StoreFault.Device) }
        ensures synced { (state_under self.old).faithful → OnOk result (IsSynced (state_under self.new)) }
    {
        match self {
            DeviceStore::Pages(store) => store.renew(),
            DeviceStore::Journaled(store) => store.renew(),
        }
    }
}
