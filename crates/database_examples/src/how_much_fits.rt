//! Limits: how much fits into a statement, a record, a table, a database and a server.

ghost use Rattle.database_examples.specs.HowMuchFits.{longest_key, longest_row, nulls_before_sizes, rows_of_a_statement, columns_of_a_table, tables_of_a_database, tables_in_from, roles_of_one_policy, longest_policy, open_sessions};

/// A row's key has 200 bytes at most: a text takes one more than it has.
pub fn longest_key()
    ensures { longest_key }
{}

/// The columns of a row beside its key have 1,200 bytes at most.
pub fn longest_row()
    ensures { longest_row }
{}

/// Nulls are refused before sizes, and sizes before keys.
pub fn nulls_before_sizes()
    ensures { nulls_before_sizes }
{}

/// An INSERT has 256 rows at most, and more are refused before any value is evaluated.
pub fn rows_of_a_statement()
    ensures { rows_of_a_statement }
{}

/// A table has 16 columns at most.
pub fn columns_of_a_table()
    ensures { columns_of_a_table }
{}

/// A database has 1,024 tables at most, of all owners together.
pub fn tables_of_a_database()
    ensures { tables_of_a_database }
{}

/// Four tables may be in FROM, and no more.
pub fn tables_in_from()
    ensures { tables_in_from }
{}

/// A policy is to 255 roles at most.
pub fn roles_of_one_policy()
    ensures { roles_of_one_policy }
{}

/// A policy's record has 1,200 bytes at most: 3 of its own, each text as it was written and 3 more or 1
/// where it is missing, and the name of each role and 1 more.
pub fn longest_policy()
    ensures { longest_policy }
{}

/// 256 sessions may be open, and a closed one makes room; a number that is open and the limit come
/// before the login.
pub fn open_sessions()
    ensures { open_sessions }
{}
