//! Which sessions are open, in which order, and what a session begins with.

ghost use Rattle.database_examples.specs.WhichSessionsAreOpen.{opened_and_closed, sessions_begin_anew, two_sessions_of_one_role, logins_go_by_the_committed_roles, order_of_opening, order_of_opening_is_answered};

/// A session that is not open is told so, also after its close, and its number may be opened again.
pub fn opened_and_closed()
    ensures { opened_and_closed }
{}

/// A session that is opened again has its login role set, and is in no block.
pub fn sessions_begin_anew()
    ensures { sessions_begin_anew }
{}

/// Two sessions of one role have each its own block and set role, and one writer lock between them.
pub fn two_sessions_of_one_role()
    ensures { two_sessions_of_one_role }
{}

/// A session is opened for a role that is committed, whatever another session's block has done with
/// it.
pub fn logins_go_by_the_committed_roles()
    ensures { logins_go_by_the_committed_roles }
{}

/// Open sessions stand in the order of their opening, whatever they do.
pub fn order_of_opening()
    ensures order { order_of_opening }
    ensures answers { order_of_opening_is_answered }
{}
