//! What a table takes: values and columns, NOT NULL, keys, and what UPDATE and DELETE leave.

ghost use Rattle.database_examples.specs.WhatATableTakes.{assignments_see_the_old_row, column_set_twice, order_of_refusals, order_of_refusals_of_a_table, values_by_column_names, rows_of_one_insert, types_of_values, not_null_columns, key_of_two_columns, key_of_a_boolean, columns_of_a_definition, keys_that_move, columns_of_an_update, rows_that_a_delete_takes, dropped_rows};

/// The values of a SET all see the row before.
pub fn assignments_see_the_old_row()
    ensures { assignments_see_the_old_row }
{}

/// UPDATE gives a column one value: a column that is set twice is refused, before columns are found.
pub fn column_set_twice()
    ensures { column_set_twice }
{}

/// A statement is checked from names over types to rows.
pub fn order_of_refusals()
    ensures { order_of_refusals }
{}

/// A table's definition is checked before the table is made.
pub fn order_of_refusals_of_a_table()
    ensures { order_of_refusals_of_a_table }
{}

/// With a column list each value goes to its column, and the others are null.
pub fn values_by_column_names()
    ensures { values_by_column_names }
{}

/// One row that is refused refuses all rows of its INSERT.
pub fn rows_of_one_insert()
    ensures { rows_of_one_insert }
{}

/// A value has the type of its column, or is the word NULL; nothing is converted.
pub fn types_of_values()
    ensures { types_of_values }
{}

/// A column that is NOT NULL takes no null, by INSERT or UPDATE, named or left out; a key column is
/// NOT NULL.
pub fn not_null_columns()
    ensures { not_null_columns }
{}

/// Rows stand in the order of their key's columns as the key names them, and two rows may share one
/// of these.
pub fn key_of_two_columns()
    ensures { key_of_two_columns }
{}

/// A key may be of any types: false stands before true, and a negative number before the others.
pub fn key_of_a_boolean()
    ensures { key_of_a_boolean }
{}

/// A table's columns differ, those of its key too, and these are among the columns.
pub fn columns_of_a_definition()
    ensures { columns_of_a_definition }
{}

/// Keys are compared over all rows after the statement, so that an UPDATE may exchange or shift
/// them.
pub fn keys_that_move()
    ensures { keys_that_move }
{}

/// UPDATE sets the columns that it names, and leaves the others and the rows that WHERE does not
/// choose.
pub fn columns_of_an_update()
    ensures { columns_of_an_update }
{}

/// DELETE takes the rows on which its condition is true, not those on which it is null.
pub fn rows_that_a_delete_takes()
    ensures { rows_that_a_delete_takes }
{}

/// DROP TABLE takes the rows with the table.
pub fn dropped_rows()
    ensures { dropped_rows }
{}
