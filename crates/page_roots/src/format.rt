//! The formats of a device.
ghost use Rattle.std.specs.Prelude.{◌≡◌, false};
ghost use Rattle.storage_sizes.specs.declared.record_format.RecordFormat.TheVariants.{V2};
ghost use Rattle.page_roots.specs.Formats.{number_of, record_format_of, has_journal, format_in, format_of, migrated};

use storage_sizes::RecordFormat;

/// The format of a device, by the number that stands in its root: how its records are spelled, and whether the six sectors
/// behind its root sectors are a journal.
#[derive(Clone, Copy, PartialEq, Eq, Drop)]
pub enum Format {
    /// Records of record format 1, and no journal.
    One,
    /// Records of record format 2, and no journal.
    Two,
    /// Records of record format 2, and a journal.
    Three,
}

impl Format {
    // The greatest number of a format.
    pub(crate) const LAST: u32 = 3;

    /// The number of a root of this format, 1 to 3.
    pub fn number(self) -> u32
        ensures { result ≡ number_of self }
    {
        match self {
            Format::One => 1,
            Format::Two => 2,
            Format::Three => 3,
        }
    }

    /// How the records are spelled.
    pub fn record_format(self) -> RecordFormat
        ensures { result ≡ record_format_of self }
    {
        match self {
            Format::One => RecordFormat::V1,
            Format::Two | Format::Three => RecordFormat::V2,
        }
    }

    /// Whether the six sectors behind the root sectors are a journal.
    pub fn has_journal(self) -> bool
        ensures { result ≡ has_journal self }
    {
        match self {
            Format::One | Format::Two => false,
            Format::Three => true,
        }
    }

    /// The format of this record format, with no journal.
    pub fn of_record_format(record_format: RecordFormat) -> Format
        ensures format { result ≡ format_of record_format }
        ensures spelled { record_format_of result ≡ record_format }
        ensures plain { has_journal result ≡ false }
    {
        match record_format {
            RecordFormat::V1 => Format::One,
            RecordFormat::V2 => Format::Two,
        }
    }

    /// The format that differs from this one in the record format alone, which is 2.
    pub fn migrated(self) -> Format
        ensures format { result ≡ migrated self }
        ensures spelled { record_format_of result ≡ V2 }
        ensures journal { has_journal result ≡ has_journal self }
    {
        match self {
            Format::One | Format::Two => Format::Two,
            Format::Three => Format::Three,
        }
    }

    // The format of its number. A number that is no format's gives the last one, whose number is another.
    pub(crate) fn of_number(number: u32) -> Format
        ensures { result ≡ format_in number }
    {
        match number {
            1 => Format::One,
            2 => Format::Two,
            _ => Format::Three,
        }
    }
}
