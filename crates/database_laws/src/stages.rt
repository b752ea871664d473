//! Laws of the stages of a statement.

ghost use Rattle.database_laws.specs.Stages.{checked_then_performed, checks_read_no_rows};
ghost use Rattle.database_laws.specs.OrderOfChecks.{missing_tables_are_told_first, missing_roles_are_told_next, names_and_types_are_told_to_all, taken_names_are_told_first, limits_are_told_last, updates_ask_for_booleans, deletes_ask_for_booleans, selects_ask_for_booleans, policies_ask_for_booleans};

/// A statement is checked, and then performed. What it is refused for by its checks, as a missing
/// privilege, tells nothing of rows: over the same definitions with other rows it is the same.
pub fn checks_come_first()
    ensures performed { checked_then_performed }
    ensures no_rows { checks_read_no_rows }
{}

/// What a statement takes to be there is looked for first: a table that is missing is told whatever else
/// is wrong, and then a role. Names and types are told to each user alike: whether one has the privileges
/// is asked next. A new table's name is asked first, and limits last (SQL:2016 Foundation, 11.3).
pub fn checks_come_in_order()
    ensures tables { missing_tables_are_told_first }
    ensures roles { missing_roles_are_told_next }
    ensures names { names_and_types_are_told_to_all }
    ensures taken { taken_names_are_told_first }
    ensures limits { limits_are_told_last }
{}

/// A condition that is not refused has a type that may stand where a BOOLEAN is asked for: ON, WHERE,
/// USING and WITH CHECK (SQL:2016 Foundation, 7.12 and 8.21; PostgreSQL manual, CREATE POLICY).
pub fn conditions_are_booleans()
    ensures of_update { updates_ask_for_booleans }
    ensures of_delete { deletes_ask_for_booleans }
    ensures of_select { selects_ask_for_booleans }
    ensures of_policies { policies_ask_for_booleans }
{}
