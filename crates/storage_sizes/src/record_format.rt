//! How records are spelled.
ghost use Rattle.std.specs.Prelude.{◌≡◌};
ghost use Rattle.storage_sizes.specs.CurrentRecordFormat.{current};

/// How the records of a store are spelled. All are spelled alike in both record formats but those of
/// privilege descriptors, whose keys have a place for a column in the second.
#[derive(Clone, Copy, PartialEq, Eq, Drop)]
pub enum RecordFormat {
    /// A descriptor is for a whole table.
    V1,
    /// A descriptor has the place of a column, or 0 for the whole table.
    V2,
}

impl RecordFormat {
    /// The record format in which databases are made.
    #[tactic(auto, unfolding(crate::specs::CurrentRecordFormat::current))]
    pub fn current() -> RecordFormat
        ensures { result ≡ current }
    {
        RecordFormat::V2
    }
}
