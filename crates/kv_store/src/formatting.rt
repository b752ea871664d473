//! A new store on a device.
ghost use Rattle.std.specs.Prelude.{◌≡◌, ◌≤◌, ◌∷◌, [], true, length, OnOk};
ghost use Rattle.storage_sizes.specs.Sizes.{max_value_length};
ghost use Rattle.storage_sizes.specs.CurrentRecordFormat.{current};
ghost use Rattle.cow_pages.specs.Image.{is_size};
ghost use Rattle.page_nodes.specs.declared.cell.NodeKind.TheVariants.{Leaf};
ghost use Rattle.page_nodes.specs.Node.{IsNode};
ghost use Rattle.store.specs.Records.{IsKeySize};
ghost use Rattle.kv_store.specs.Formatting.{Formats};

use crate::page_store::PageStore;
use cow_pages::{Format, OpenFault, PAGE_SIZE, format};
use page_nodes::{NodeKind, push_cell, write_node};
use sector_device::Device;
use std::alloc::{AllocError, Global};
use store::{Entry, RecordFormat};

/// The page of a leaf that has one entry. The only error is that an allocation failed, and then nothing is said of the page.
pub fn write_leaf_of(
    alloc: Global,
    first: &Entry,
    page: &mut [u8; PAGE_SIZE],
) -> Result<(), AllocError>
    requires key { IsKeySize first.now.0 }
    requires value { length first.now.1 ≤ max_value_length }
    ensures { OnOk result (IsNode Leaf [] (first.now ∷ []) page.new) }
{
    let mut cells = Vec::new(alloc);
    push_cell(&mut cells, NodeKind::Leaf, first.key(), first.value())?;
    write_node(page, NodeKind::Leaf, &[], &cells, 1);
    Ok(())
}

impl<D: Device> PageStore<D> {
    /// Makes a new store as `format_as` does, with the record format in which databases are made.
    pub fn format(alloc: Global, device: &mut D, first: &Entry) -> Result<(), OpenFault>
        requires size { is_size (D.state device.old).sectors ≡ true }
        requires key { IsKeySize first.now.0 }
        requires value { length first.now.1 ≤ max_value_length }
        ensures { Formats D.Device current first.now result device.old device.new }
    {
        PageStore::format_as(alloc, device, RecordFormat::current(), first)
    }

    /// Makes a new store of a device of 64 to 65,536 whole pages, whose records are of this record format and which has one
    /// record, under number 1, and no journal. What was on the device before is lost, though only sectors 0 and 1 and those of pages 1 and 2 are written: sector 0 with zeros, sector
    /// 1 with the root, page 1 with the leaf of the record, page 2 with the map.
    ///
    /// On a device that is blank, as a new one of zeros is, a stop at any moment leaves no database or the new one whole,
    /// also where the device fails. `Memory`: an allocation failed, and nothing was written. `Device`: the device failed.
    pub fn format_as(
        alloc: Global,
        device: &mut D,
        record_format: RecordFormat,
        first: &Entry,
    ) -> Result<(), OpenFault>
        requires size { is_size (D.state device.old).sectors ≡ true }
        requires key { IsKeySize first.now.0 }
        requires value { length first.now.1 ≤ max_value_length }
        ensures { Formats D.Device record_format first.now result device.old device.new }
    {
        let mut page = [0; PAGE_SIZE];
        write_leaf_of(alloc, first, &mut page)?;
        match format(device, Format::of_record_format(record_format), &page) {
            Ok(()) => Ok(()),
            Err(_) => Err(OpenFault::Device),
        }
    }
}
