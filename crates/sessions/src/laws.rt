//! Laws of texts, the contracts of functions with no result.

ghost use Rattle.database_laws.specs.Runs.{ReadsOnce};
ghost use Rattle.server.specs.LockedOut.{RefusesLockedOut};
ghost use Rattle.sessions.specs.Readings.{ReadsText};

use sql_parser::laws::one_answer;

/// A text is read as one statement, or as one refusal.
pub fn one_reading()
    ensures { ReadsOnce ReadsText }
{
    // For the proof: a text has one reading.
    one_answer();
}

/// The machine refuses each event that is locked out with `LockNotAvailable`. So whoever holds such an
/// event back, until the writer lock is free, holds back that refusal and no other answer.
pub fn locked_out_events_are_refused()
    ensures { RefusesLockedOut ReadsText }
{}
