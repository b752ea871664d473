//! Calls of pages. What they answer is told and compared, and no proof here speaks of it: so these say nothing of it, and what
//! calls them need not know what pages promise.

use crate::arrays::bytes::filled;
use cow_pages::{CommitFault, CowPages, Format, OpenFault};
use pages::{PageFault, Pages};
use sector_device::Device;
use std::alloc::Global;
use storage_sizes::PAGE_SIZE;

/// Reads a page.
pub fn read<P: Pages>(
    pages: &mut P,
    page: u32,
    bytes: &mut [u8; PAGE_SIZE],
) -> Result<(), PageFault> {
    pages.read(page, bytes)
}

/// Writes the page of a tag.
pub fn write<P: Pages>(pages: &mut P, page: u32, tag: u8) -> Result<(), PageFault> {
    pages.write(page, &filled(tag))
}

/// Takes a new page, with these bytes.
pub fn new_page<P: Pages>(pages: &mut P, bytes: &[u8; PAGE_SIZE]) -> Result<u32, PageFault> {
    pages.new_page(bytes)
}

/// Gives a page back.
pub fn free_page<P: Pages>(pages: &mut P, page: u32) -> Result<(), PageFault> {
    pages.free_page(page)
}

/// Whether a page is in use.
pub fn is_used<P: Pages>(pages: &P, page: u32) -> bool {
    pages.is_used(page)
}

/// The array on a device, or the device and why there is none.
pub fn open<D: Device + Drop>(alloc: Global, device: D) -> Result<CowPages<D>, (D, OpenFault)> {
    CowPages::open(alloc, device)
}

/// Commits in a format.
pub fn commit<D: Device>(pages: &mut CowPages<D>, format: Format) -> Result<(), CommitFault> {
    pages.commit(format)
}

/// Commits in a format, also where nothing has changed.
pub fn commit_anew<D: Device>(pages: &mut CowPages<D>, format: Format) -> Result<(), CommitFault> {
    pages.commit_anew(format)
}
