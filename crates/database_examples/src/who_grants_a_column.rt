//! GRANT and REVOKE of columns: grant options, chains of grants, warnings, and names.

ghost use Rattle.database_examples.specs.WhoGrantsAColumn.{revoke_on_a_table_takes_columns, column_option_grants_that_column, table_option_grants_columns, columns_do_not_support_the_table, column_on_two_legs, cycle_of_columns_goes, cascade_over_columns, option_on_columns_revoked, option_on_the_table_revoked, column_granted_again, grantor_of_each_column, column_holder_takes_by_columns, columns_of_another_grantor_stay, named_and_unsupported, columns_by_the_owner, all_warns_where_no_column_is_granted, column_is_some_privilege, columns_named_twice, missing_columns, delete_takes_no_columns};

/// REVOKE on the table takes what was granted on its columns, and one on columns leaves what was
/// granted on the table.
pub fn revoke_on_a_table_takes_columns()
    ensures { revoke_on_a_table_takes_columns }
{}

/// A grant option on a column lets its holder grant that column, and not another one, another
/// action or the table.
pub fn column_option_grants_that_column()
    ensures { column_option_grants_that_column }
{}

/// A grant option on the table lets its columns be granted, and supports what was granted.
pub fn table_option_grants_columns()
    ensures { table_option_grants_columns }
{}

/// Options on all the columns support no grant on the table.
pub fn columns_do_not_support_the_table()
    ensures { columns_do_not_support_the_table }
{}

/// A grant on a column that an option on the table and one on the column support goes with the last
/// of them.
pub fn column_on_two_legs()
    ensures { column_on_two_legs }
{}

/// Grants of a column in a cycle hold no longer than a chain from the owner does.
pub fn cycle_of_columns_goes()
    ensures { cycle_of_columns_goes }
{}

/// CASCADE takes what a grant on the table supported on a column, and nothing beside it.
pub fn cascade_over_columns()
    ensures { cascade_over_columns }
{}

/// GRANT OPTION FOR with columns takes the option on these alone, and the privilege stays.
pub fn option_on_columns_revoked()
    ensures { option_on_columns_revoked }
{}

/// GRANT OPTION FOR on the table takes the options on its columns too.
pub fn option_on_the_table_revoked()
    ensures { option_on_the_table_revoked }
{}

/// A column that is granted again keeps its option or is given one, and the table has an option of
/// its own.
pub fn column_granted_again()
    ensures { column_granted_again }
{}

/// The grantor is chosen for each column: the role itself, or the least of its groups that hold the
/// option.
pub fn grantor_of_each_column()
    ensures { grantor_of_each_column }
{}

/// One who holds options on columns alone takes nothing by a REVOKE on the table.
pub fn column_holder_takes_by_columns()
    ensures { column_holder_takes_by_columns }
{}

/// REVOKE takes what its own grantor granted, on columns too.
pub fn columns_of_another_grantor_stay()
    ensures { columns_of_another_grantor_stay }
{}

/// What is to lose its option alone is lost where nothing supports it afterwards.
pub fn named_and_unsupported()
    ensures { named_and_unsupported }
{}

/// A superuser and a member of the owner grant columns as the owner.
pub fn columns_by_the_owner()
    ensures { columns_by_the_owner }
{}

/// A statement of ALL warns where nothing that it names has a grantor, and another one where
/// anything has none.
pub fn all_warns_where_no_column_is_granted()
    ensures { all_warns_where_no_column_is_granted }
{}

/// One who has any privilege on a column is warned where another would be refused.
pub fn column_is_some_privilege()
    ensures { column_is_some_privilege }
{}

/// A column that is named twice counts once, and an action may stand with and without columns.
pub fn columns_named_twice()
    ensures { columns_named_twice }
{}

/// GRANT and REVOKE look for the table, the roles and the columns, and then for the right to grant.
pub fn missing_columns()
    ensures { missing_columns }
{}

/// DELETE is of whole rows: no text is read as DELETE (k).
pub fn delete_takes_no_columns()
    ensures { delete_takes_no_columns }
{}
