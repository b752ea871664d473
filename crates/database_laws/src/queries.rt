//! Laws of SELECT and of row security.

ghost use Rattle.database_laws.specs.Queries.{only_with_select, naming_needs_select, asterisk_needs_select, shown_rows_passed, passing_rows_are_shown, answers_are_of_passing_rows, all_passing_rows_are_answered, select_changes_nothing, closed_without_permissive};
ghost use Rattle.database_laws.specs.Definitions.{closed_by_the_last_drop};

/// A SELECT that is not refused has SELECT on each table of FROM or on a column of it, and on each
/// column that an expression names, with "*" on each column (SQL:2016 Foundation, 6.7 and 7.6,
/// access rules).
pub fn selecting_needs_privileges()
    ensures tables { only_with_select }
    ensures naming { naming_needs_select }
    ensures asterisk { asterisk_needs_select }
{}

/// SELECT shows the rows that pass their guards, and changes nothing (PostgreSQL manual, 5.9, "Row
/// Security Policies").
pub fn select_shows_what_passes()
    ensures passed { shown_rows_passed }
    ensures shown { passing_rows_are_shown }
    ensures made_of_passing { answers_are_of_passing_rows }
    ensures all_passing { all_passing_rows_are_answered }
    ensures unchanged { select_changes_nothing }
{}

/// Without a permissive policy nobody whom row security concerns is shown a row, or may change one.
pub fn permissive_policies_open()
    ensures closed { closed_without_permissive }
    ensures dropped { closed_by_the_last_drop }
{}
