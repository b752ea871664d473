//! How far a copy from one device to another is.

/// Who is told how far a copy is. It has no part of what is copied, nor of where: so whatever it does, the copy is the same.
pub trait CopyProgress {
    /// Tells that so many bytes of keys and values are copied, and the copy goes on.
    fn tell(&mut self, bytes: u64);
}

/// Nobody is told.
#[derive(Clone, Copy, Drop)]
pub struct Unwatched;

impl CopyProgress for Unwatched {
    fn tell(&mut self, _bytes: u64) {}
}
