//! Who has a privilege on a column, and what a statement needs of columns.

ghost use Rattle.database_examples.specs.WhoHasAColumn.{column_of_a_table, every_column_is_the_table, conditions_and_order_name_columns, each_table_needs_a_column, inserts_name_columns, updates_name_columns, deletes_are_of_whole_rows, all_of_a_column, columns_through_groups, columns_of_public, policies_read_any_column, columns_in_blocks, column_of_a_table_made_again, names_before_privileges_on_columns};

/// One who has SELECT on a column reads that column and counts rows, and does not read the table.
pub fn column_of_a_table()
    ensures { column_of_a_table }
{}

/// SELECT * needs each column, and does with privileges on all of them.
pub fn every_column_is_the_table()
    ensures { every_column_is_the_table }
{}

/// WHERE and ORDER BY need the columns that they name, whatever their value depends on.
pub fn conditions_and_order_name_columns()
    ensures { conditions_and_order_name_columns }
{}

/// Each table of FROM needs a column of its own, and ON names columns too.
pub fn each_table_needs_a_column()
    ensures { each_table_needs_a_column }
{}

/// INSERT needs the columns of its list, or without a list as many from the left as there are
/// values.
pub fn inserts_name_columns()
    ensures { inserts_name_columns }
{}

/// UPDATE needs UPDATE on each column that it sets, and SELECT on those that it reads.
pub fn updates_name_columns()
    ensures { updates_name_columns }
{}

/// DELETE is granted on the table alone; the columns of its WHERE need SELECT.
pub fn deletes_are_of_whole_rows()
    ensures { deletes_are_of_whole_rows }
{}

/// ALL with columns is SELECT, INSERT and UPDATE on them, and no DELETE.
pub fn all_of_a_column()
    ensures { all_of_a_column }
{}

/// Privileges on columns come from each role that a role is in, and from PUBLIC.
pub fn columns_through_groups()
    ensures { columns_through_groups }
{}

/// PUBLIC may have columns, and no grant option on them.
pub fn columns_of_public()
    ensures { columns_of_public }
{}

/// Policies need no privilege on the columns that they read.
pub fn policies_read_any_column()
    ensures { policies_read_any_column }
{}

/// Privileges on columns are granted and taken with the block.
pub fn columns_in_blocks()
    ensures { columns_in_blocks }
{}

/// A role that stands in a privilege on a column is not dropped, and with its table the privilege
/// goes.
pub fn column_of_a_table_made_again()
    ensures { column_of_a_table_made_again }
{}

/// Names and types are looked at before privileges on columns, and these before limits and rows.
pub fn names_before_privileges_on_columns()
    ensures { names_before_privileges_on_columns }
{}
