//! Laws of rows: which SELECT shows, and which INSERT, UPDATE and DELETE change.

ghost use Rattle.database_laws.specs.Selections.{shows_visible_rows, sorts_by_its_keys, products_are_in_order, hidden_rows_do_not_show, hidden_rows_may_go};
ghost use Rattle.database_laws.specs.Worlds.{two_worlds, worlds_agree, answers_hide, deletes_before_others, inserts_before_others, updates_before_others, inserts_alike, updates_alike, deletes_alike};
ghost use Rattle.database_laws.specs.Closed.{closed_tables_tell_nothing};
ghost use Rattle.database_laws.specs.OnePolicy.{one_policy_for_all, keys_tell_nothing};
ghost use Rattle.database_laws.specs.RowChanges.{insert_changes_its_table, update_changes_its_table, delete_changes_its_table, insert_adds_its_rows, update_replaces_its_rows, delete_removes_its_rows, columns_are_found, values_are_given, values_are_assigned};
ghost use Rattle.database_laws.specs.Refusals.{select_fails_for_cause, insert_fails_for_cause, update_fails_for_cause, delete_fails_for_cause};

/// SELECT shows the combinations of rows that pass their guards and of which ON and WHERE are true:
/// sorted by its keys, where ties keep their order, cut by its limit, and through its list
/// (SQL:2016 Foundation, 7.4 to 7.17; PostgreSQL manual, 5.9, "Row Security Policies").
pub fn select_shows_visible_rows()
    ensures shown { shows_visible_rows }
    ensures product { products_are_in_order }
    ensures sorted { sorts_by_its_keys }
{}

/// What a SELECT answers says nothing of the rows that its guards hide: over two databases that
/// agree in all but such rows it answers the same, a refusal too, where no guard fails on a row. A
/// database agrees so with the one in which the hidden rows of a table are gone.
pub fn hidden_rows_have_no_influence()
    ensures alike { hidden_rows_do_not_show }
    ensures gone { hidden_rows_may_go }
{}

/// What users do to rows that they see depends on no others: over two databases that differ only in
/// rows that the guard of SELECT hides from them, and on which no guard of existing rows fails, an
/// INSERT, and an UPDATE or a DELETE that reads a column, are answered the same, and what they leave
/// differs again in such rows alone; unless the key of a new row stands already in one of the two.
pub fn writes_end_alike()
    ensures inserted { inserts_alike }
    ensures updated { updates_alike }
    ensures deleted { deletes_alike }
{}

/// Two worlds: over databases that look alike to its users, a SELECT, an INSERT, and an UPDATE or a
/// DELETE that reads a column end alike, unless one is refused for a key that stands already. What they
/// leave looks alike also to each other role to which the databases did.
pub fn two_worlds()
    ensures alike { two_worlds }
    ensures agreeing { worlds_agree }
    ensures answered { answers_hide }
    ensures others { deletes_before_others }
    ensures others_at_insert { inserts_before_others }
    ensures others_at_update { updates_before_others }
{}

/// One policy for all commands: where each policy for the current role, of the table that a statement
/// changes, is FOR ALL and has no WITH CHECK, every statement ends alike over databases that look alike
/// to its users, one that reads no column too, unless one is refused for a key that stands already. Where
/// these policies also speak of columns of the key alone there is no exception: no row that they admit
/// can have the key of a row that they hide (PostgreSQL manual, 5.9, "Row Security Policies").
pub fn one_policy_hides_all()
    ensures alike { one_policy_for_all }
    ensures keys { keys_tell_nothing }
{}

/// Tables on which the current role has no privilege tell it nothing.
pub fn closed_tables_tell_nothing()
    ensures { closed_tables_tell_nothing }
{}

/// INSERT, UPDATE and DELETE change no definition, and no row of another table than their own.
pub fn writes_change_their_table()
    ensures insert { insert_changes_its_table }
    ensures update { update_changes_its_table }
    ensures delete { delete_changes_its_table }
{}

/// INSERT adds the rows of VALUES, UPDATE replaces the rows that it concerns, and DELETE removes
/// them: those that pass their guards and of which WHERE is true. Each other row stays, and the
/// answer counts them (SQL:2016 Foundation, 14.9, 14.11 and 14.14).
pub fn writes_change_what_they_concern()
    ensures inserted { insert_adds_its_rows }
    ensures updated { update_replaces_its_rows }
    ensures deleted { delete_removes_its_rows }
{}

/// A new row has in each column the value that VALUES or SET gives it. Without one INSERT puts null
/// there, and UPDATE leaves what was there (SQL:2016 Foundation, 14.11 and 14.14). A column is said
/// by its name, by which its index is found.
pub fn new_rows_have_the_values_given()
    ensures found { columns_are_found }
    ensures given { values_are_given }
    ensures assigned { values_are_assigned }
{}

/// A statement that passes its checks is refused only for a cause that rows give: a guard, a
/// condition or a value that fails, a new row that no guard admits, and where all are admitted a
/// null, a size or a key that stands twice; SELECT also for a count that is no BIGINT. Of several
/// causes the first is told: rows in the order of their keys, of each row its guards, WHERE and its
/// values in turn, values from the left (PostgreSQL manual, CREATE POLICY; SQL:2016 Foundation, 4.18).
pub fn refusals_have_causes()
    ensures select { select_fails_for_cause }
    ensures insert { insert_fails_for_cause }
    ensures update { update_fails_for_cause }
    ensures delete { delete_fails_for_cause }
{}
