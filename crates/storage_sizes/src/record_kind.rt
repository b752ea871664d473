//! The kinds of records.
ghost use Rattle.std.specs.Prelude.{◌≡◌};
ghost use Rattle.storage_sizes.specs.Kinds.{kind_byte};

/// What a record of a database says. The first byte of its key tells it, by these numbers.
#[derive(Clone, Copy, PartialEq, Eq, Drop)]
pub enum RecordKind {
    /// A role and its attributes.
    Role = 1,
    /// A membership of a role in another one.
    Membership = 2,
    /// A table and its columns.
    Table = 3,
    /// A privilege that was granted.
    Descriptor = 4,
    /// A policy of a table.
    Policy = 5,
    /// A row of a table.
    Row = 6,
}

impl RecordKind {
    /// The byte with which the keys of this kind begin.
    pub fn byte(self) -> u8
        ensures { result ≡ kind_byte self }
    {
        self as u8
    }
}
