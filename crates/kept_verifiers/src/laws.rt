//! Laws of what is kept.

ghost use Rattle.std.specs.Prelude.{◌≡◌, None, Some, false};
ghost use Rattle.abstract_database.specs.Lists.{TheName};
ghost use Rattle.abstract_database.specs.Database.{Database, Table, table_named};
ghost use Rattle.abstract_database.specs.Roles.{is_superuser, may_log_in};
ghost use Rattle.kept_verifiers.specs.Verifiers.{kept_text, AgreeInRow};

/// What is kept for a role depends on the definitions and on the role's own row, and on nothing else.
pub fn one_row_tells_what_is_kept()
    ensures { (table role : TheName) (a b : Database) → AgreeInRow table role a b
        → kept_text a table role ≡ kept_text b table role }
{}

/// The table of an owner who is no superuser keeps nothing for anybody.
pub fn a_table_of_others_keeps_nothing()
    ensures { (db : Database) (t : Table) (table role : TheName) → table_named db table ≡ Some t
        → is_superuser db t.definition.owner ≡ false → kept_text db table role ≡ None }
{}

/// Nothing is kept for a role that may not log in, nor for a name that no role has.
pub fn who_may_not_log_in_keeps_nothing()
    ensures { (db : Database) (table role : TheName) → may_log_in db role ≡ false
        → kept_text db table role ≡ None }
{}
