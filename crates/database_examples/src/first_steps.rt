//! The first statements of a database, and its first sessions.

ghost use Rattle.database_examples.specs.FirstSteps.{roles_open_sessions, rows_come_back, keys_after_the_statement, sessions_by_number};

/// A superuser makes roles that may log in, and a session is opened for each.
pub fn roles_open_sessions()
    ensures { roles_open_sessions }
{}

/// A row may give fewer values than there are columns, and the others are null; a text whose rows
/// have different lengths is no statement.
pub fn rows_come_back()
    ensures { rows_come_back }
{}

/// Keys are compared after the whole statement: a row may take the key that another one leaves.
pub fn keys_after_the_statement()
    ensures { keys_after_the_statement }
{}

/// A number is open once, a statement needs a session, and a session a role that may log in.
pub fn sessions_by_number()
    ensures { sessions_by_number }
{}
