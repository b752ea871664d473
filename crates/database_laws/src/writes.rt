//! Laws of statements that change rows.

ghost use Rattle.database_laws.specs.Readings.{updates_read_as_written, deletes_read_as_written};
ghost use Rattle.database_laws.specs.Writes.{needed_privileges_are_held, statements_have_their_needs, inserting_needs_insert, setting_needs_update, updating_needs_select, deleting_needs_delete, deleting_needs_select, inserted_rows_passed, inserting_takes_nothing, updated_rows_passed, updating_takes_what_was_seen, deleting_adds_nothing, deleting_takes_what_was_seen};

/// A statement that is not refused has each privilege that it needs: INSERT on each column that it
/// gives a value to, UPDATE on each that it sets, DELETE on the table, and SELECT on each column that
/// a new value or WHERE names (SQL:2016 Foundation, 14.9 to 14.14, access rules).
pub fn commands_need_privileges()
    ensures held { needed_privileges_are_held }
    ensures executed { statements_have_their_needs }
    ensures insert { inserting_needs_insert }
    ensures update { setting_needs_update }
    ensures update_reads { updating_needs_select }
    ensures delete { deleting_needs_delete }
    ensures delete_reads { deleting_needs_select }
{}

/// An UPDATE reads a column just where a new value or WHERE names one in its text, a DELETE where
/// WHERE names one: the columns that are found are those of the text.
pub fn columns_are_read_as_written()
    ensures updates { updates_read_as_written }
    ensures deletes { deletes_read_as_written }
{}

/// What INSERT, UPDATE and DELETE put into a table passed their checks, what they take away passed
/// their guards, and all other rows stay (PostgreSQL manual, CREATE POLICY).
pub fn writes_pass_their_guards()
    ensures inserted { inserted_rows_passed }
    ensures kept { inserting_takes_nothing }
    ensures updated { updated_rows_passed }
    ensures replaced { updating_takes_what_was_seen }
    ensures fewer { deleting_adds_nothing }
    ensures deleted { deleting_takes_what_was_seen }
{}
