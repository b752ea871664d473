//! Changes of an image.

use sector_device::SECTOR_SIZE;
use std::alloc::{AllocError, Global};

/// A change of an image.
#[derive(Clone, Copy)]
pub enum ImageChange {
    /// The byte at an offset has this value.
    Byte(usize, u8),
    /// All bytes of a sector are zero.
    Sector(usize),
    /// The image is cut to so many bytes, or grown to them by zeros.
    Length(usize),
}

/// An image with a change.
pub fn changed(alloc: Global, image: &[u8], change: ImageChange) -> Result<Vec<u8>, AllocError> {
    let mut changed = Vec::from_slice(alloc, image)?;
    match change {
        ImageChange::Byte(at, value) => set(&mut changed, at, value),
        ImageChange::Sector(sector) => clear_sector(&mut changed, sector),
        ImageChange::Length(length) => changed.resize(length, 0)?,
    }
    Ok(changed)
}

/// Gives the byte at an offset this value, where there is one.
fn set(image: &mut [u8], at: usize, value: u8) {
    if at < image.len() {
        image[at] = value;
    }
}

/// Makes all bytes of a sector zero.
fn clear_sector(image: &mut [u8], sector: usize) {
    let start = sector.saturating_mul(SECTOR_SIZE);
    for at in start..start.saturating_add(SECTOR_SIZE) {
        set(image, at, 0);
    }
}
