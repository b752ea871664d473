//! Why a statement is not carried out.
ghost use Rattle.std.specs.Prelude.{◌≡◌};
ghost use Rattle.store.specs.declared.fault.Fault.TheVariants as faults;
ghost use Rattle.store.specs.declared.stop.StatementError.TheVariants as stops;
ghost use Rattle.store.specs.Fault.{fault_of};
ghost use Rattle.store.specs.StatementError.{IsStopBy};

use crate::{Fault, StoreFault};
use sql_types::state::{Refusal, SqlState};
use std::alloc::{AllocError, AllocFailed};
use thiserror::Error;

/// Why a statement is not carried out: it is refused, or a read of records or an allocation failed.
#[derive(Clone, Copy, Debug, PartialEq, Eq, Drop, Error)]
pub enum StatementError {
    /// The statement is refused, by this code.
    #[error("the statement is refused")]
    Refused(SqlState),
    /// An allocation or the device failed, or a record is damaged. It says nothing of the statement.
    #[error(transparent)]
    Failed(Fault),
}

/// A refusal for memory is a failure of this run, and each other one is the statement's.
impl From<Refusal> for StatementError {
    ghost from_gives = { λ refusal stop. IsStopBy refusal.0 stop };

    fn from(refusal: Refusal) -> StatementError {
        match refusal.0 {
            SqlState::OutOfMemory => StatementError::Failed(Fault::Memory),
            code => StatementError::Refused(code),
        }
    }
}

impl From<SqlState> for StatementError {
    ghost from_gives = { λ code stop. stop ≡ stops.Refused code };

    fn from(code: SqlState) -> StatementError {
        StatementError::Refused(code)
    }
}

impl From<Fault> for StatementError {
    ghost from_gives = { λ fault stop. stop ≡ stops.Failed fault };

    fn from(fault: Fault) -> StatementError {
        StatementError::Failed(fault)
    }
}

/// Of the fault of a read, which is Memory or Device.
impl From<StoreFault> for StatementError {
    ghost from_gives = { λ fault stop. stop ≡ stops.Failed (fault_of fault) };

    fn from(fault: StoreFault) -> StatementError {
        StatementError::Failed(Fault::from(fault))
    }
}

impl From<AllocError> for StatementError {
    ghost from_gives = { λ _ stop. stop ≡ stops.Failed faults.Memory };

    fn from(_refused: AllocError) -> StatementError {
        StatementError::Failed(Fault::Memory)
    }
}

impl<T: Drop> From<AllocFailed<T>> for StatementError {
    ghost from_gives = { λ _ stop. stop ≡ stops.Failed faults.Memory };

    fn from(_refused: AllocFailed<T>) -> StatementError {
        StatementError::Failed(Fault::Memory)
    }
}
