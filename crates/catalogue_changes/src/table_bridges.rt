//! Laws of the statements on tables: what each makes is a change.
ghost use Rattle.std.specs.Prelude.{◌≡◌, ◌<◌, ℕ, length, Ok};
ghost use Rattle.sql_ast.specs.declared.statement.CreateTable.{CreateTable};
ghost use Rattle.sql_ast.specs.declared.statement.DropTable.{DropTable};
ghost use Rattle.sql_ast.specs.declared.statement.AlterTable.{AlterTable};
ghost use Rattle.sql_ast.specs.Layout.{Layout};
ghost use Rattle.expressions.specs.Meaning.{UserNames};
ghost use Rattle.abstract_database.specs.Database.{Database};
ghost use Rattle.abstract_database.specs.Checks.{checked_create_table};
ghost use Rattle.abstract_database.specs.Statements.{create_table, drop_table, alter_table};
ghost use Rattle.abstract_database.specs.Whole.{max_tables};
ghost use Rattle.stored_database.specs.Definitions.{TableDefinition, Definitions, ids_of};
ghost use Rattle.stored_database.specs.Valid.{Describes};
ghost use Rattle.catalogue.specs.Numbers.{IsLeastFree};
ghost use Rattle.catalogue.specs.declared.change.SchemaChange.TheVariants as change;
ghost use Rattle.catalogue_changes.specs.StatementChanges.{IsDoneBy, IsTableOf, new_table, with_flag};

/// CREATE TABLE puts its table with the least number that is free. Where it passed its checks, one
/// is free.
pub fn tables_come_by_a_change()
    ensures created { (d : Definitions) (db : Database) (users : UserNames) (s : CreateTable)
        (layout : Layout) (id : ℕ) → Describes d db
        → checked_create_table db users s ≡ Ok layout → IsLeastFree (ids_of d.tables) id
        → IsDoneBy (change.PutTable (new_table id s.table users.current layout)) d db
        (create_table db users s) }
    ensures room { (d : Definitions) (db : Database) (users : UserNames) (s : CreateTable)
        (layout : Layout) → Describes d db → checked_create_table db users s ≡ Ok layout
        → length d.tables < max_tables }
{}

/// ALTER TABLE puts its table with the flag that it sets.
pub fn tables_are_altered_by_a_change()
    ensures { (d : Definitions) (db : Database) (users : UserNames) (s : AlterTable)
        (t : TableDefinition) → Describes d db → IsTableOf d s.table t
        → IsDoneBy (change.PutTable (with_flag s.change t)) d db (alter_table db users s) }
{}

/// DROP TABLE drops its table.
pub fn tables_go_by_a_change()
    ensures { (d : Definitions) (db : Database) (users : UserNames) (s : DropTable)
        → Describes d db
        → IsDoneBy (change.DropTable s.table) d db (drop_table db users s) }
{}
