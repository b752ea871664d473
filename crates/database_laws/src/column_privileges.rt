//! Laws of privileges on columns.

ghost use Rattle.database_laws.specs.ColumnPrivileges.{columns_support_that_column, tables_support_tables, cycles_keep_to_one, all_on_columns_is_no_delete, grants_find_columns, revokes_find_columns, missing_columns_refuse_grants, missing_columns_refuse_revokes};

/// A grant option on a column supports grants of that column alone, and what supports a grant of the
/// table is one on the table: a cycle of grants does not mix tables and columns (SQL:2016
/// Foundation, 12.7).
pub fn columns_are_supported_apart()
    ensures column { columns_support_that_column }
    ensures table { tables_support_tables }
    ensures cycle { cycles_keep_to_one }
{}

/// ALL with columns names actions on columns, and DELETE is none of them (PostgreSQL manual, GRANT).
pub fn all_on_columns_names_no_delete()
    ensures { all_on_columns_is_no_delete }
{}

/// A GRANT or REVOKE that names a column that is not there is refused with 42703, also to a role that
/// has no privilege, which would be refused with 42501.
pub fn named_columns_are_there()
    ensures granted { grants_find_columns }
    ensures revoked { revokes_find_columns }
    ensures grant_refused { missing_columns_refuse_grants }
    ensures revoke_refused { missing_columns_refuse_revokes }
{}
