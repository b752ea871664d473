//! What a device is opened for.

/// What a device is opened for.
#[derive(Clone, Copy, PartialEq, Eq)]
pub enum Access {
    /// To be read, beside others that read it.
    Read,
    /// To be read and written, by this program alone.
    Write,
}
