//! Laws of statements that make a change of the definitions: the changes of records, and the
//! definitions after them, are those of the database after the statement.
ghost use Rattle.store.specs.Records.{Records, Changes, IsOrdered, applied};
ghost use Rattle.abstract_database.specs.Database.{Database};
ghost use Rattle.abstract_database.specs.Whole.{IsWhole};
ghost use Rattle.stored_database.specs.Definitions.{TableDefinition, Definitions};
ghost use Rattle.stored_database.specs.Valid.{Describes};
ghost use Rattle.stored_database.specs.Records.{Shows};
ghost use Rattle.catalogue.specs.Tables.{HasOrderedParts};
ghost use Rattle.catalogue_changes.specs.Differences.{applied_in_turn};
ghost use Rattle.catalogue.specs.declared.change.SchemaChange.{SchemaChange};
ghost use Rattle.catalogue.specs.declared.change.SchemaChange.TheVariants as change;
ghost use Rattle.catalogue.specs.Changes.{changed};
ghost use Rattle.catalogue_changes.specs.SchemaChanges.{record_changes};
ghost use Rattle.catalogue_changes.specs.Entries.{Adds};
ghost use Rattle.catalogue_changes.specs.StatementChanges.{Makes};

/// Where a statement makes a change of the definitions, its changes of records lead from those of the
/// database before to those of the database after it, where that is whole; and so do the changes of
/// a batch to which they were added.
pub fn statements_lead_as_changes()
    ensures changes { (c : SchemaChange) (records : Records) (d : Definitions) (db after : Database)
        → IsOrdered records → Shows records d db → Makes c d db after → IsWhole after
        → Shows (applied_in_turn (record_changes c d records) records) (changed c d) after }
    ensures batch { (c : SchemaChange) (records : Records) (old new : Changes) (d : Definitions)
        (db after : Database) → IsOrdered records → Shows (applied old records) d db
        → Adds (record_changes c d (applied old records)) old new → Makes c d db after
        → IsWhole after → Shows (applied new records) (changed c d) after }
{}

/// Where a statement makes a change of the definitions, those after the change are those of the
/// database after the statement, where that is whole; and a table that is put has its privilege
/// descriptors and its policies in their order.
pub fn definitions_after_statements_describe()
    ensures described { (c : SchemaChange) (d : Definitions) (db after : Database) → Describes d db
        → Makes c d db after → IsWhole after → Describes (changed c d) after }
    ensures parts { (d : Definitions) (db after : Database) (t : TableDefinition) → Describes d db
        → Makes (change.PutTable t) d db after → IsWhole after → HasOrderedParts t }
{}
