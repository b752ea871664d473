//! The messages of a server.

ghost use Rattle.std.specs.Prelude.{◌≡◌};
ghost use Rattle.postgres_messages.specs.Backend.{format_code, severity_text, status_byte, type_number, type_size};

use crate::fields::FieldBytes;

/// The type of a column, by its name in `pg_type`.
#[derive(Clone, Copy, Debug, PartialEq, Eq)]
pub enum DataType {
    /// `int8`: BIGINT.
    Int8,
    /// `text`: TEXT.
    Text,
    /// `bool`: BOOLEAN.
    Bool,
}

/// The format of a column's values.
#[derive(Clone, Copy, Debug, PartialEq, Eq)]
pub enum ValueFormat {
    Text,
    Binary,
}

/// How severe a report is.
#[derive(Clone, Copy, Debug, PartialEq, Eq)]
pub enum Severity {
    /// The statement failed.
    Error,
    /// The session ends.
    Fatal,
    /// All sessions end.
    Panic,
    Warning,
    Notice,
}

/// Where a session stands when it is ready.
#[derive(Clone, Copy, Debug, PartialEq, Eq)]
pub enum BlockStatus {
    /// In no transaction block.
    Idle,
    /// In a transaction block.
    InBlock,
    /// In a transaction block that failed.
    Failed,
}

/// A column of an answer, which is no column of a table.
#[derive(Clone, Copy)]
pub struct DescribedColumn<'a> {
    pub name: &'a str,
    pub data_type: DataType,
    pub format: ValueFormat,
}

/// What an error or a notice says (PostgreSQL 15 manual, 55.8).
#[derive(Clone, Copy)]
pub struct Report<'a> {
    pub severity: Severity,
    /// The SQLSTATE.
    pub code: &'a str,
    pub message: &'a str,
    /// Where in the text that was sent, in characters from 1.
    pub position: Option<u32>,
}

/// A message of a server (PostgreSQL 15 manual, 55.7).
#[derive(Clone, Copy)]
pub enum BackendMessage<'a> {
    AuthenticationOk,
    /// The one mechanism that is offered.
    AuthenticationSasl(&'a str),
    /// AuthenticationSASLContinue, with the mechanism's data.
    AuthenticationContinue(&'a [u8]),
    /// AuthenticationSASLFinal, with the mechanism's data.
    AuthenticationFinal(&'a [u8]),
    /// The number of a process and its key, for a CancelRequest.
    BackendKeyData(u32, u32),
    BindComplete,
    CloseComplete,
    /// The tag, with the number of rows where it has one.
    CommandComplete(&'a str),
    DataRow(&'a [FieldBytes<'a>]),
    EmptyQueryResponse,
    ErrorResponse(Report<'a>),
    NoData,
    NoticeResponse(Report<'a>),
    /// The types of parameters, as numbers in `pg_type`.
    ParameterDescription(&'a [u32]),
    /// The name of a setting, and its value.
    ParameterStatus(&'a str, &'a str),
    ParseComplete,
    PortalSuspended,
    ReadyForQuery(BlockStatus),
    RowDescription(&'a [DescribedColumn<'a>]),
}

impl DataType {
    // Its number in pg_type.
    pub(crate) fn number(self) -> u32
        ensures { result ≡ type_number self }
    {
        match self {
            DataType::Int8 => 20,
            DataType::Text => 25,
            DataType::Bool => 16,
        }
    }

    // Its size, an Int16; -1 where it varies.
    pub(crate) fn size(self) -> u16
        ensures { result ≡ type_size self }
    {
        match self {
            DataType::Int8 => 8,
            DataType::Text => 0xFFFF,
            DataType::Bool => 1,
        }
    }
}

impl ValueFormat {
    pub(crate) fn code(self) -> u16
        ensures { result ≡ format_code self }
    {
        match self {
            ValueFormat::Text => 0,
            ValueFormat::Binary => 1,
        }
    }
}

impl Severity {
    pub(crate) fn text(self) -> &'static str
        ensures { result.now ≡ severity_text self }
    {
        match self {
            Severity::Error => "ERROR",
            Severity::Fatal => "FATAL",
            Severity::Panic => "PANIC",
            Severity::Warning => "WARNING",
            Severity::Notice => "NOTICE",
        }
    }
}

impl BlockStatus {
    pub(crate) fn byte(self) -> u8
        ensures { result ≡ status_byte self }
    {
        match self {
            BlockStatus::Idle => b'I',
            BlockStatus::InBlock => b'T',
            BlockStatus::Failed => b'E',
        }
    }
}
