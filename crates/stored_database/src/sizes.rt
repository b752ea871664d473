//! Laws of the sizes of records: a store takes each of them.

ghost use Rattle.std.specs.Prelude.{ℕ};
ghost use Rattle.sql_types.specs.Name.{IsUtf8Name};
ghost use Rattle.sql_types.specs.Row.{Row};
ghost use Rattle.sql_ast.specs.declared.role.Role.{Role};
ghost use Rattle.sql_ast.specs.declared.role.Membership.{Membership};
ghost use Rattle.sql_ast.specs.declared.privilege.Descriptor.{Descriptor};
ghost use Rattle.sql_ast.specs.declared.policy.Policy.{Policy};
ghost use Rattle.sql_ast.specs.Layout.{Layout, IsLayout};
ghost use Rattle.sql_ast.specs.Fits.{FitsTable};
ghost use Rattle.store.specs.Records.{Record, Records};
ghost use Rattle.abstract_database.specs.Lists.{TheName, Among};
ghost use Rattle.abstract_database.specs.Database.{Database};
ghost use Rattle.stored_database.specs.Definitions.{TableDefinition, Definitions};
ghost use Rattle.stored_database.specs.RecordFormat.{role_record, membership_record, table_record, descriptor_record, policy_record, row_record};
ghost use Rattle.stored_database.specs.Items.{IsStoredMembership, IsStoredTable, IsStoredDescriptor, IsStoredPolicy};
ghost use Rattle.stored_database.specs.Records.{Shows};
ghost use Rattle.stored_database.specs.Entries.{IsRecordSize};

/// The record of each item has a size that a store takes.
pub fn items_have_record_sizes()
    ensures role { (r : Role) → IsUtf8Name r.name → IsRecordSize (role_record r) }
    ensures membership { (m : Membership) → IsStoredMembership m
        → IsRecordSize (membership_record m) }
    ensures table { (t : TableDefinition) → IsUtf8Name t.definition.name
        → IsLayout t.definition.layout → IsStoredTable t → IsRecordSize (table_record t) }
    ensures descriptor { (table : TheName) (id : ℕ) (d : Descriptor) → IsStoredDescriptor table d
        → IsRecordSize (descriptor_record id d) }
    ensures policy { (table : TheName) (id : ℕ) (p : Policy) → IsUtf8Name p.name
        → IsStoredPolicy table p → IsRecordSize (policy_record id p) }
    ensures row { (id : ℕ) (layout : Layout) (row : Row) → FitsTable layout row
        → IsRecordSize (row_record id layout row) }
{}

/// A store takes each record of a database.
pub fn records_have_record_sizes()
    ensures { (records : Records) (d : Definitions) (db : Database) → Shows records d db
        → (e : Record) → Among e records → IsRecordSize e }
{}
