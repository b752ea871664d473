//! The calls of a device, as it notes them.
use crate::SECTOR_SIZE;

/// What a call did to the sectors.
#[derive(Clone, Copy, PartialEq, Eq)]
pub enum Call {
    /// A read, which changed nothing.
    Read,
    /// A write of these bytes to that sector.
    Write(u32, [u8; SECTOR_SIZE]),
    /// A sync that succeeded.
    Sync,
}
