//! Laws of the changes of tables.
ghost use Rattle.abstract_database.specs.Lists.{TheName};
ghost use Rattle.stored_database.specs.Definitions.{TableDefinition};
ghost use Rattle.catalogue.specs.declared.change.SchemaChange.TheVariants as change;
ghost use Rattle.catalogue_changes.specs.SchemaChanges.{Leads};

/// The changes of CREATE TABLE, ALTER TABLE, CREATE POLICY, DROP POLICY, and of GRANT and REVOKE on
/// a table lead to the database with the table as it is after them.
pub fn tables_are_put()
    ensures { (t : TableDefinition) → Leads (change.PutTable t) }
{}

/// The changes of DROP TABLE lead to the database without the table, its rows, its privilege
/// descriptors and its policies.
pub fn tables_are_dropped()
    ensures { (name : TheName) → Leads (change.DropTable name) }
{}
