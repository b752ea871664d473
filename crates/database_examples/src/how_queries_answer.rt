//! How queries answer: which columns a name finds, joins, conditions, order, first rows, counts.

ghost use Rattle.database_examples.specs.HowQueriesAnswer.{order_of_rows, joins, order_of_conditions, scope_of_on, on_before_where, order_of_products, what_a_limit_hides, order_of_values, second_sort_key, columns_of_joined_tables, all_columns_of_a_join, three_tables_joined, tables_before_columns, condition_after_the_product, expressions_over_no_row, keys_of_a_sort, first_rows_of_an_order, counts, queries_without_a_table};

/// Nulls come last ascending and first descending.
pub fn order_of_rows()
    ensures { order_of_rows }
{}

/// A table may be in FROM twice under two names.
pub fn joins()
    ensures { joins }
{}

/// AND evaluates its right side only where the left one does not decide.
pub fn order_of_conditions()
    ensures { order_of_conditions }
{}

/// An expression after ON may name the tables up to its own.
pub fn scope_of_on()
    ensures { scope_of_on }
{}

/// A false ON hides a failure of WHERE, and a null one does not.
pub fn on_before_where()
    ensures { on_before_where }
{}

/// The first table varies slowest, and ties in ORDER BY keep that order.
pub fn order_of_products()
    ensures { order_of_products }
{}

/// LIMIT 0 hides failures of the select list, but none of the condition or the sort keys.
pub fn what_a_limit_hides()
    ensures { what_a_limit_hides }
{}

/// Texts are ordered by their bytes, and false before true.
pub fn order_of_values()
    ensures { order_of_values }
{}

/// Rows that the first sort key does not tell apart are in the order of the second.
pub fn second_sort_key()
    ensures { second_sort_key }
{}

/// A column that two tables have is named with its table; an alias hides the table's own name.
pub fn columns_of_joined_tables()
    ensures { columns_of_joined_tables }
{}

/// An asterisk stands for the columns of each table, in the order of FROM.
pub fn all_columns_of_a_join()
    ensures { all_columns_of_a_join }
{}

/// In a join of three tables each ON names the tables before it, and ORDER BY all of them.
pub fn three_tables_joined()
    ensures { three_tables_joined }
{}

/// Tables are looked up before columns, and columns in the order list, ON, WHERE, ORDER BY.
pub fn tables_before_columns()
    ensures { tables_before_columns }
{}

/// A condition is evaluated on whole combinations: on none where a table of FROM is empty.
pub fn condition_after_the_product()
    ensures { condition_after_the_product }
{}

/// An expression that always fails does so where a row meets it, and not over an empty table.
pub fn expressions_over_no_row()
    ensures { expressions_over_no_row }
{}

/// A sort key is any expression; nulls come last, with DESC first, and false before true.
pub fn keys_of_a_sort()
    ensures { keys_of_a_sort }
{}

/// LIMIT takes the first rows of the order, and the select list is evaluated on these alone.
pub fn first_rows_of_an_order()
    ensures { first_rows_of_an_order }
{}

/// count(*) counts the combinations on which the condition is true, and is 0 where there is none.
pub fn counts()
    ensures { counts }
{}

/// Without FROM there is one row, and no column.
pub fn queries_without_a_table()
    ensures { queries_without_a_table }
{}
