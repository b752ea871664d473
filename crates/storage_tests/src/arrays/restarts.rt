//! What a stop leaves of each sector.

use crate::arrays::words::Word;
use sector_device::{Device, MemDevice};
use std::alloc::{AllocError, Global};

/// Starts a device again after a stop that leaves what a word tells.
pub fn restart(alloc: Global, device: &mut MemDevice, word: Word<'_>) -> Result<(), AllocError> {
    let sectors = device.sectors();
    let mut new = Vec::new(alloc);
    for sector in 0..sectors {
        new.push(is_new(word, sector))?;
    }
    if new.len() == sectors as usize {
        device.restart(new.as_slice());
    }
    Ok(())
}

/// Whether the last content of a sector is left.
fn is_new(word: Word<'_>, sector: u32) -> bool {
    match word.name {
        "new" => true,
        "even" => sector % 2 == 0,
        "odd" => sector % 2 == 1,
        "only" => sector == word.first,
        "but" => sector != word.first,
        "drawn" => is_drawn(word.first, sector),
        _ => false,
    }
}

/// Whether a sector is drawn, about every other one: some middle bit of a product.
fn is_drawn(seed: u32, sector: u32) -> bool {
    let product = seed.wrapping_add(sector).wrapping_mul(2_654_435_769);
    product / 65_536 % 2 == 1
}
