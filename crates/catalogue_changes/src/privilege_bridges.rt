//! Laws of GRANT and REVOKE of privileges: what each makes is a change of its table.
ghost use Rattle.std.specs.Prelude.{◌≡◌, Ok};
ghost use Rattle.sql_ast.specs.declared.statement.Grant.{Grant};
ghost use Rattle.sql_ast.specs.declared.statement.Revoke.{Revoke};
ghost use Rattle.expressions.specs.Meaning.{UserNames};
ghost use Rattle.abstract_database.specs.Database.{Database};
ghost use Rattle.abstract_database.specs.Statements.{Effect, grant, revoke};
ghost use Rattle.stored_database.specs.Definitions.{TableDefinition, Definitions};
ghost use Rattle.stored_database.specs.Valid.{Describes};
ghost use Rattle.catalogue.specs.declared.change.SchemaChange.TheVariants as change;
ghost use Rattle.catalogue_changes.specs.StatementChanges.{Makes, AgreesAlone, IsTableOf, alone, with_its_descriptors};

/// GRANT on a table puts it with those of the descriptors afterwards that are for it: no other one
/// changes.
pub fn privileges_are_granted_by_a_change()
    ensures { (d : Definitions) (db : Database) (users : UserNames) (s : Grant)
        (t : TableDefinition) (e : Effect) → Describes d db → IsTableOf d s.table t
        → grant db users s ≡ Ok e
        → Makes (change.PutTable (with_its_descriptors e.database.descriptors t)) d db e.database }
{}

/// REVOKE on a table puts it with those of the descriptors afterwards that are for it: no other one
/// changes.
pub fn privileges_are_revoked_by_a_change()
    ensures { (d : Definitions) (db : Database) (users : UserNames) (s : Revoke)
        (t : TableDefinition) (e : Effect) → Describes d db → IsTableOf d s.table t
        → revoke db users s ≡ Ok e
        → Makes (change.PutTable (with_its_descriptors e.database.descriptors t)) d db e.database }
{}

/// GRANT and REVOKE on a table ask for no descriptor of another one: over the descriptors of the
/// table alone they are refused as over all of them, or answer the same, and what they leave of
/// these is the change.
pub fn privileges_concern_their_table_alone()
    ensures granted { (d : Definitions) (db : Database) (users : UserNames) (s : Grant)
        (t : TableDefinition) → Describes d db → IsTableOf d s.table t
        → AgreesAlone t d db (grant db users s) (grant (alone t db) users s) }
    ensures revoked { (d : Definitions) (db : Database) (users : UserNames) (s : Revoke)
        (t : TableDefinition) → Describes d db → IsTableOf d s.table t
        → AgreesAlone t d db (revoke db users s) (revoke (alone t db) users s) }
{}
