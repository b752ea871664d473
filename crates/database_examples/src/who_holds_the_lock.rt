//! Who holds the writer lock: which statements take it, until when, and what another session is told.

ghost use Rattle.database_examples.specs.WhoHoldsTheLock.{one_writer, refused_write_takes_no_lock, lock_until_close, close_undoes, refused_lock_fails_the_block, lock_before_names, warned_grant_takes_the_lock, definitions_take_the_lock, two_tables_one_lock, every_writing_statement, session_refusals_before_the_lock};

/// One session writes at a time.
pub fn one_writer()
    ensures { one_writer }
{}

/// A writing statement that is refused does not take the writer lock.
pub fn refused_write_takes_no_lock()
    ensures { refused_write_takes_no_lock }
{}

/// A writing statement that changes no row takes the writer lock, a failed block keeps it, and a close gives it up.
pub fn lock_until_close()
    ensures { lock_until_close }
{}

/// A closed session gives the writer lock up, and what it did is undone.
pub fn close_undoes()
    ensures { close_undoes }
{}

/// A session that is refused the writer lock fails its block.
pub fn refused_lock_fails_the_block()
    ensures { refused_lock_fails_the_block }
{}

/// The writer lock is checked before names and privileges.
pub fn lock_before_names()
    ensures { lock_before_names }
{}

/// A GRANT that warns and a REVOKE of nothing take the writer lock.
pub fn warned_grant_takes_the_lock()
    ensures { warned_grant_takes_the_lock }
{}

/// GRANT, CREATE ROLE, CREATE POLICY and CREATE TABLE wait for nobody: while another session holds
/// the writer lock they are refused.
pub fn definitions_take_the_lock()
    ensures { definitions_take_the_lock }
{}

/// The writer lock is one for all tables, also where the blocks write nothing in common.
pub fn two_tables_one_lock()
    ensures { two_tables_one_lock }
{}

/// While one session holds the writer lock, each statement that writes is refused to another, and none
/// that reads.
pub fn every_writing_statement()
    ensures { every_writing_statement }
{}

/// A session without its login role is told 28000, one without its set role 42501, and only then
/// another that the writer lock is held.
pub fn session_refusals_before_the_lock()
    ensures { session_refusals_before_the_lock }
{}
