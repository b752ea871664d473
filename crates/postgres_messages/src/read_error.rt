//! Why bytes are not read as a message.

ghost use Rattle.std.specs.Prelude.{◌≡◌};
ghost use Rattle.postgres_messages.specs.declared.read_error.ReadError.TheVariants.{Memory};

use std::alloc::{AllocError, AllocFailed};

/// Why bytes are not read.
#[derive(Clone, Copy, Debug, PartialEq, Eq)]
pub enum ReadError {
    /// An allocation failed.
    Memory,
    /// The bytes are no message: a zero byte is missing, a length or a count does not fit, or bytes are left over.
    Malformed,
    /// The bytes are a message of which a text is not UTF-8.
    NotText,
}

impl From<AllocError> for ReadError {
    ghost from_gives = { λ _ e. e ≡ Memory };

    fn from(_e: AllocError) -> ReadError {
        ReadError::Memory
    }
}

impl<T: Drop> From<AllocFailed<T>> for ReadError {
    ghost from_gives = { λ _ e. e ≡ Memory };

    fn from(_e: AllocFailed<T>) -> ReadError {
        ReadError::Memory
    }
}
