//! What the codes of refusals mean.

ghost use Rattle.std.specs.Prelude.{◌≡◌};
ghost use Rattle.diagnostics.specs.Meanings.{refusal_meaning};

use sql_types::state::SqlState;

/// What a refusal's code means.
pub fn refusal_meaning(state: SqlState) -> &'static str
    ensures { result.now ≡ refusal_meaning state }
{
    match state {
        SqlState::SyntaxError => "syntax, a rule of form, or a wrong number of values",
        SqlState::NameTooLong => "a name of over 63 bytes",
        SqlState::UndefinedTable => "no such table",
        SqlState::UndefinedColumn => "no such column",
        SqlState::AmbiguousColumn => "a column that two tables have",
        SqlState::DuplicateAlias => "two tables of FROM under one name",
        SqlState::UndefinedObject => "no such role or policy",
        SqlState::DuplicateTable => "the table exists already",
        SqlState::DuplicateObject => "the role or the policy exists already",
        SqlState::DuplicateColumn => "a column that is named twice",
        SqlState::DatatypeMismatch => "a type that does not fit",
        SqlState::InsufficientPrivilege => {
            "a right is missing; the set role is gone or not allowed any more; or a new row that a policy refuses"
        }
        SqlState::InvalidGrantOperation => {
            "GRANT OPTION to PUBLIC, or a membership that would make a cycle"
        }
        SqlState::DependentPrivileges => "a REVOKE without CASCADE of what other grants depend on",
        SqlState::DependentObjects => "a role that is in use",
        SqlState::DivisionByZero => "a divisor of zero",
        SqlState::NumericValueOutOfRange => "a number outside BIGINT",
        SqlState::NotNullViolation => "a null in a column that is NOT NULL",
        SqlState::UniqueViolation => "a primary key that another row has",
        SqlState::InFailedTransaction => "the block has failed",
        SqlState::LockNotAvailable => "another session holds the writer lock",
        SqlState::InvalidAuthorization => {
            "a login that is no role, or one without LOGIN; or the session's login role is gone"
        }
        SqlState::ProgramLimitExceeded => "a limit; or no number is left for one more commit",
        SqlState::TooManyConnections => "too many sessions",
        SqlState::DiskFull => "no room on the device: nothing was changed; never in memory",
        SqlState::OutOfMemory => {
            "no memory for the event, which changed nothing and may be tried again"
        }
        SqlState::IoError => {
            "the device failed, and the server has stopped: each further event is answered so; never in memory"
        }
        SqlState::ProtocolViolation => "bytes that are no frame; over a connection alone",
        SqlState::ConnectionDoesNotExist => "the session is not open",
        SqlState::ConnectionNameInUse => "the session is open already",
    }
}
