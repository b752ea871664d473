//! Sectors of zeros.
ghost use Rattle.std.specs.Prelude.{◌≡◌, IfOk, replicate};

use crate::SECTOR_SIZE;
use std::alloc::{AllocError, Global};

/// So many sectors of zeros.
pub(crate) fn zero_sectors(
    alloc: Global,
    sectors: u32,
) -> Result<Vec<[u8; SECTOR_SIZE]>, AllocError>
    ensures { IfOk result (λ v. v.items ≡ replicate sectors (replicate SECTOR_SIZE 0)) }
{
    vec![in alloc; [0; SECTOR_SIZE]; sectors as usize]
}
