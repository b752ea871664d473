//! What a client is told of as an error.

ghost use Rattle.std.specs.Prelude.{◌≡◌};
ghost use Rattle.postgres_talks.specs.Faults.{fault_code, fault_position, fault_text};

use postgres_texts::sentences::refusal_text;
use sql_types::state::SqlState;

/// What a client is told of as an error.
#[derive(Clone, Copy, PartialEq, Eq)]
pub enum TalkFault {
    /// The machine's refusal of an event, or one that this code says as well.
    Refused(SqlState),
    /// `42601`: a statement whose syntax goes wrong at this character of its message, counted from 1.
    SyntaxAt(u32),
    /// `22021`: a name or a text of a message that is not UTF-8.
    NotText,
    /// `0A000`: another version of the protocol than 3.0.
    OtherVersion,
    /// `0A000`: a message of which PostgreSQL has a use, and this server has not.
    Unsupported,
    /// `XX000`: a block that had failed was committed, or one of the connection's own was not.
    Internal,
    /// `0A000`: a word that PostgreSQL reserves and the language takes for a name.
    ReservedWord,
    /// `0A000`: a text outside the language that names a catalogue.
    Catalogue,
    /// `42601`: several statements in one that is to be prepared.
    SeveralStatements,
    /// `26000`: a name of no prepared statement.
    UnknownStatement,
    /// `34000`: a name of no portal.
    UnknownPortal,
    /// `42P05`: a name that a prepared statement has already.
    StatementExists,
    /// `42P03`: a name that a portal has already.
    PortalExists,
    /// `08P01`: another number of values than of parameters.
    OtherCount,
    /// `0A000`: rows that are not of the columns that their client knows.
    OtherColumns,
    /// `22023`: a code of no format.
    UnknownFormat,
    /// `08P01`: another number of formats than of columns or of values.
    OtherFormats,
    /// `42P02`: a parameter 0 or above 65535, or one in a statement that takes none.
    UnknownParameter,
    /// `42P18`: a parameter without a type that stands nowhere, as `$1` in a text that has `$2` alone.
    IndeterminateType,
    /// `0A000`: a type of a parameter that there is not.
    UnknownType,
    /// `22P02`: a value in text that is none of its type.
    InvalidText,
    /// `22P03`: a value in binary that is none of its type.
    InvalidBinary,
    /// `XX000`: a statement with its values has other tokens than it is to have.
    OtherTokens,
    /// `25001`: a statement that stands in no block.
    InsideBlock,
    /// `25006`: a statement that may write, in a block that only reads.
    OnlyReads,
}

impl TalkFault {
    /// The code, of five characters (PostgreSQL 15 manual, appendix A).
    pub fn code(self) -> &'static str
        ensures { result.now ≡ fault_code self }
    {
        match self {
            TalkFault::Refused(state) => state.code(),
            TalkFault::SyntaxAt(_) => "42601",
            TalkFault::NotText => "22021",
            TalkFault::OtherVersion => "0A000",
            TalkFault::Unsupported => "0A000",
            TalkFault::Internal => "XX000",
            TalkFault::ReservedWord | TalkFault::Catalogue => "0A000",
            TalkFault::SeveralStatements => "42601",
            TalkFault::UnknownStatement => "26000",
            TalkFault::UnknownPortal => "34000",
            TalkFault::StatementExists => "42P05",
            TalkFault::PortalExists => "42P03",
            TalkFault::OtherCount => "08P01",
            TalkFault::OtherColumns => "0A000",
            TalkFault::UnknownFormat => "22023",
            TalkFault::OtherFormats => "08P01",
            TalkFault::UnknownParameter => "42P02",
            TalkFault::IndeterminateType => "42P18",
            TalkFault::UnknownType => "0A000",
            TalkFault::InvalidText => "22P02",
            TalkFault::InvalidBinary => "22P03",
            TalkFault::OtherTokens => "XX000",
            TalkFault::InsideBlock => "25001",
            TalkFault::OnlyReads => "25006",
        }
    }

    /// The character of the client's text at which it stands, if that is told.
    pub fn position(self) -> Option<u32>
        ensures { result ≡ fault_position self }
    {
        match self {
            TalkFault::SyntaxAt(position) => Some(position),
            _ => None,
        }
    }

    /// The sentence in English.
    pub fn text(self) -> &'static str
        ensures { result.now ≡ fault_text self }
    {
        match self {
            TalkFault::Refused(state) => refusal_text(state),
            TalkFault::SyntaxAt(_) => "syntax error",
            TalkFault::NotText => "invalid byte sequence for encoding \"UTF8\"",
            TalkFault::OtherVersion => "version of the protocol is not 3.0",
            TalkFault::Unsupported => "message is not supported",
            TalkFault::Internal => "transaction block ended unexpectedly",
            TalkFault::ReservedWord => "word that PostgreSQL reserves is not supported",
            TalkFault::Catalogue => "catalogues are not supported",
            TalkFault::SeveralStatements =>
                "cannot insert multiple commands into a prepared statement",
            TalkFault::UnknownStatement => "prepared statement does not exist",
            TalkFault::UnknownPortal => "portal does not exist",
            TalkFault::StatementExists => "prepared statement already exists",
            TalkFault::PortalExists => "portal already exists",
            TalkFault::OtherCount => "number of parameters is another",
            TalkFault::OtherColumns => "cached plan must not change result type",
            TalkFault::UnknownFormat => "format code is not supported",
            TalkFault::OtherFormats => "number of format codes is another",
            TalkFault::UnknownParameter => "there is no such parameter",
            TalkFault::IndeterminateType => "could not determine data type of parameter",
            TalkFault::UnknownType => "type of a parameter is not supported",
            TalkFault::InvalidText => "invalid input syntax for the type of a parameter",
            TalkFault::InvalidBinary => "incorrect binary data format in a parameter",
            TalkFault::OtherTokens => "statement with its values has other tokens",
            TalkFault::InsideBlock => "DISCARD ALL cannot run inside a transaction block",
            TalkFault::OnlyReads => "cannot execute statement in a read-only transaction",
        }
    }
}
