//! Databases stay whole: from a new one on, through each statement and each event.

ghost use Rattle.database_laws.specs.WholeDatabases.{new_databases_are_whole, whole_databases_are_sound, each_definition_keeps_whole, insert_keeps_whole, update_keeps_whole, delete_keeps_whole, select_keeps_whole, each_statement_keeps_whole, whole_for_ever, conditions_come_from_statements};

/// A new database is whole, where the name of its role is a name.
pub fn new_database_is_whole()
    ensures { new_databases_are_whole }
{}

/// A whole database is sound: values are of their columns' types, rows in key order with distinct
/// keys, and no null is where none may be.
pub fn whole_databases_are_sound()
    ensures { whole_databases_are_sound }
{}

/// Each statement that defines roles, memberships, tables, policies or privileges keeps a database
/// whole: a role that is in use stays, and memberships make no cycle; a new table has a layout, and
/// its owner the four descriptors of the system; a policy is for roles, and its conditions are
/// BOOLEAN over its table; each descriptor is supported, and the system's are the owners' four.
pub fn definitions_keep_databases_whole()
    ensures { each_definition_keeps_whole }
{}

/// INSERT, UPDATE, DELETE and SELECT keep a database whole: each row is one that its table may
/// hold, and rows stand in the order of their keys.
pub fn rows_keep_databases_whole()
    ensures insert { insert_keeps_whole }
    ensures update { update_keeps_whole }
    ensures delete { delete_keeps_whole }
    ensures select { select_keeps_whole }
{}

/// Each statement that a text may be read as, executed for roles of a whole database, leaves a
/// whole database; and each event does, of the committed database and of the writer lock's holder.
pub fn databases_stay_whole()
    ensures statements { each_statement_keeps_whole }
    ensures events { whole_for_ever }
{}

/// The conditions of policies come from the statements that make them. So where the text of each
/// condition of a database and of a statement spells its expression, those of the database after
/// it do.
pub fn conditions_are_as_written()
    ensures { conditions_come_from_statements }
{}
