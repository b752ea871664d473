//! Laws of the bytes of records: each item has a record of its own.

ghost use Rattle.std.specs.Prelude.{◌≡◌, ℕ};
ghost use Rattle.sql_types.specs.Row.{Row};
ghost use Rattle.sql_ast.specs.declared.role.Role.{Role};
ghost use Rattle.sql_ast.specs.declared.role.Membership.{Membership};
ghost use Rattle.sql_ast.specs.declared.privilege.Descriptor.{Descriptor};
ghost use Rattle.sql_ast.specs.declared.policy.Policy.{Policy};
ghost use Rattle.sql_ast.specs.Layout.{Layout, IsLayout};
ghost use Rattle.sql_ast.specs.Fits.{FitsTable};
ghost use Rattle.abstract_database.specs.Lists.{TheName};
ghost use Rattle.stored_database.specs.Definitions.{TableDefinition};
ghost use Rattle.stored_database.specs.RecordFormat.{role_record, membership_record, table_record, descriptor_record, policy_record, row_record};
ghost use Rattle.stored_database.specs.Items.{IsStoredMembership, IsStoredTable, IsStoredDescriptor, IsStoredPolicy};

use expr_parser::laws::one_answer;

/// No two roles have one record.
pub fn roles_have_own_records()
    ensures { (a b : Role) → role_record a ≡ role_record b → a ≡ b }
{}

/// No two memberships have one record.
pub fn memberships_have_own_records()
    ensures { (a b : Membership) → IsStoredMembership a → IsStoredMembership b
        → membership_record a ≡ membership_record b → a ≡ b }
{}

/// The record of a table tells its number and all that is said of it.
pub fn tables_have_own_records()
    ensures { (a b : TableDefinition) → IsStoredTable a → IsStoredTable b
        → table_record a ≡ table_record b → (a.id ≡ b.id) × (a.definition ≡ b.definition) }
{}

/// No two privilege descriptors for a table have one record.
pub fn descriptors_have_own_records()
    ensures { (table : TheName) (id : ℕ) (a b : Descriptor) → IsStoredDescriptor table a
        → IsStoredDescriptor table b → descriptor_record id a ≡ descriptor_record id b → a ≡ b }
{}

/// No two policies of a table have one record: a text is read as one expression.
pub fn policies_have_own_records()
    ensures { (table : TheName) (id : ℕ) (a b : Policy) → IsStoredPolicy table a
        → IsStoredPolicy table b → policy_record id a ≡ policy_record id b → a ≡ b }
{
    // For the proof: a text has one reading.
    one_answer();
}

/// No two rows that a table may hold have one record.
pub fn rows_have_own_records()
    ensures { (id : ℕ) (layout : Layout) → IsLayout layout → (a b : Row) → FitsTable layout a
        → FitsTable layout b → row_record id layout a ≡ row_record id layout b → a ≡ b }
{}
