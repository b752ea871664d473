//! How a root comes to say that there is a journal, or that there is none.
ghost use Rattle.std.specs.Prelude.{◌≡◌, false};
ghost use Rattle.storage_sizes.specs.declared.record_format.RecordFormat.TheVariants.{V2};
ghost use Rattle.sector_device.specs.Device.{KeepsHistory};
ghost use Rattle.page_roots.specs.Formats.{record_format_of, has_journal};
ghost use Rattle.cow_pages.specs.Cow.{device_below};
ghost use Rattle.store.specs.Store.{failed_after};
ghost use Rattle.kv_store.specs.Switching.{SwitchesKind};
ghost use Rattle.kv_store.specs.TreeStore.{pages_of, store_state};

use crate::commit::{RootWrite, finish};
use crate::tree_store::TreeStore;
use cow_pages::Format;
use sector_device::Device;
use store::StoreFault;

// The format of record format 2 with a journal, or without.
fn format_with(journal: bool) -> Format
    ensures kind { has_journal result ≡ journal }
    ensures second { record_format_of result ≡ V2 }
{
    if journal { Format::Three } else { Format::Two }
}

impl<D: Device> TreeStore<D> {
    /// Commits what the pages hold, as it is, under the next number and with a root that says that there is a journal, or that
    /// there is none: of pages that hold contents of record format 2. A stop at any moment leaves these contents, under the
    /// old root or under the next one, and from `Ok` on under that one alone. After a fault that is not Device they are held
    /// under the old root. Full: each page is in use, and a map page had to be written. Number: no number is left. Device: the
    /// device failed. Memory is never answered.
    pub fn commit_kind(&mut self, journal: bool) -> Result<(), StoreFault>
        requires works { (store_state self.old).has_failed ≡ false }
        ensures history { KeepsHistory
            (device_below (pages_of self.old)) (device_below (pages_of self.new)) }
        ensures switches { SwitchesKind journal result (pages_of self.old) (pages_of self.new) }
        ensures failed { (store_state self.new).has_failed ≡ failed_after result false }
    {
        let format = format_with(journal);
        match finish(&mut self.pages.below, format, RootWrite::Always) {
            Ok(()) => Ok(()),
            Err(fault) => {
                self.count(fault);
                Err(fault)
            }
        }
    }
}
