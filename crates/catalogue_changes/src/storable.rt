//! Laws of sizes: a store takes the records of the tables of a whole database.
ghost use Rattle.std.specs.Prelude.{List};
ghost use Rattle.store.specs.Records.{Records};
ghost use Rattle.abstract_database.specs.Lists.{TheName};
ghost use Rattle.abstract_database.specs.Database.{Database};
ghost use Rattle.abstract_database.specs.Whole.{IsWhole};
ghost use Rattle.stored_database.specs.Definitions.{TableDefinition, Definitions};
ghost use Rattle.stored_database.specs.Valid.{AreValid, Describes};
ghost use Rattle.stored_database.specs.Records.{Shows};
ghost use Rattle.catalogue.specs.declared.change.SchemaChange.TheVariants as change;
ghost use Rattle.catalogue_changes.specs.SchemaChanges.{tables_named, row_entries};
ghost use Rattle.catalogue_changes.specs.Entries.{IsStorableTable, AreStorableTables};
ghost use Rattle.catalogue_changes.specs.Reads.{HaveKeySizes};
ghost use Rattle.catalogue_changes.specs.StatementChanges.{Makes};

/// A store takes the records of each table of valid definitions, of a table that is put where the
/// database afterwards is whole, and of the rows of a table. So `push_table_put` never answers
/// `IoError`, and `push_table_drop` never Damaged, over the catalogue and records of a whole database.
pub fn valid_tables_are_storable()
    ensures all { (d : Definitions) → AreValid d → AreStorableTables d.tables }
    ensures put { (d : Definitions) (db after : Database) (t : TableDefinition) → Describes d db
        → Makes (change.PutTable t) d db after → IsWhole after → IsStorableTable t }
    ensures rows { (records : Records) (d : Definitions) (db : Database) (name : TheName)
        → Shows records d db → HaveKeySizes (row_entries records (tables_named name d)) }
{}
