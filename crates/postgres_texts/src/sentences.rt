//! What is said of a refusal and of a warning, in English.

ghost use Rattle.std.specs.Prelude.{◌≡◌, ◌≢◌, ◌↔◌, All, IsTrue};
ghost use Rattle.sql_types.specs.declared.state.SqlState.TheVariants.{IoError};
ghost use Rattle.postgres_texts.specs.Sentences.{refusal_text, warning_text};

use sql_types::state::SqlState;
use sql_types::warning::Warning;

/// The sentence of a refusal, which names nothing: each code has one. Where PostgreSQL's own sentence names nothing either, it is
/// that one.
pub fn refusal_text(state: SqlState) -> &'static str
    ensures { result.now ≡ refusal_text state }
{
    match state {
        SqlState::SyntaxError => "syntax error",
        SqlState::NameTooLong => "name of over 63 bytes",
        SqlState::UndefinedTable => "no such table",
        SqlState::UndefinedColumn => "no such column",
        SqlState::AmbiguousColumn => "column name that two tables have",
        SqlState::DuplicateAlias => "two tables under the same name",
        SqlState::UndefinedObject => "no such role or policy",
        SqlState::DuplicateTable => "table exists already",
        SqlState::DuplicateObject => "role or policy exists already",
        SqlState::DuplicateColumn => "column that is named twice",
        SqlState::DatatypeMismatch => "value of the wrong type",
        SqlState::InsufficientPrivilege => "permission denied",
        SqlState::InvalidGrantOperation => "grant option to PUBLIC, or cycle of memberships",
        SqlState::DependentPrivileges => "other privileges depend on what is revoked",
        SqlState::DependentObjects => "role is still in use",
        SqlState::DivisionByZero => "division by zero",
        SqlState::NumericValueOutOfRange => "bigint out of range",
        SqlState::NotNullViolation => "null value in a column that is NOT NULL",
        SqlState::UniqueViolation => "duplicate key: another row has this primary key",
        SqlState::InFailedTransaction =>
            "current transaction is aborted, commands ignored until end of transaction block",
        SqlState::LockNotAvailable => "another session holds the writer lock",
        SqlState::InvalidAuthorization => "login refused",
        SqlState::ProgramLimitExceeded => "limit exceeded",
        SqlState::TooManyConnections => "too many sessions",
        SqlState::DiskFull => "disk full",
        SqlState::OutOfMemory => "out of memory",
        SqlState::IoError => "device failed, and the server has stopped",
        SqlState::ProtocolViolation => "protocol violation",
        SqlState::ConnectionDoesNotExist => "session is not open",
        SqlState::ConnectionNameInUse => "session is open already",
    }
}

/// The sentence of a warning.
pub fn warning_text(warning: Warning) -> &'static str
    ensures { result.now ≡ warning_text warning }
{
    match warning {
        Warning::PrivilegeNotRevoked => "not all privileges could be revoked",
        Warning::PrivilegeNotGranted => "not all privileges were granted",
        Warning::ActiveTransaction => "there is already a transaction in progress",
        Warning::NoActiveTransaction => "there is no transaction in progress",
    }
}

/// Whether a refusal ends the session, as a report says by FATAL in place of ERROR: the server has stopped at a device that failed.
pub fn ends_session(state: SqlState) -> bool
    ensures { IsTrue result ↔ (state ≡ IoError) }
{
    matches!(state, SqlState::IoError)
}
