//! Laws of clients under other numbers.

ghost use Rattle.client_laws.specs.Renumbered.{numbers_change_no_answer, numbers_change_no_run};

use database_laws::runs::{Reader, Stopping};

/// Each client of a machine is given a place, and no two have one. An event of a session does the same under the
/// number that its client's place gives it: it has the same answer, and leads to the same machine under these
/// numbers. It counts the sessions of its client alone, and no other number is asked for.
pub fn numbers_change_no_answer()
    ensures { numbers_change_no_answer }
{}

/// So it is over a store, event by event, with what a stop leaves in between.
pub fn numbers_change_no_run<R: Reader, S: Stopping>()
    ensures { numbers_change_no_run R.Reads S.Leave }
{}
