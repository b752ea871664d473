//! What is read of a journal.

/// A record: its number, and the bytes of its parts, one after the other.
#[derive(Drop)]
pub struct JournalRecord {
    pub number: u64,
    pub bytes: Vec<u8>,
}

/// The journal of a root.
#[derive(Drop)]
pub struct Journal {
    /// Its records, the first of them first.
    pub records: Vec<JournalRecord>,
    /// The greatest number in any of its sectors, of whatever root, or 0 where there is none.
    pub top: u64,
    /// How many sectors the records take. The next one begins behind these.
    pub end: u16,
}
