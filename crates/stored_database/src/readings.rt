//! Laws of the lists that records hold: the records of a kind hold at most one list of items.

ghost use Rattle.std.specs.Prelude.{◌≡◌, ℕ, List};
ghost use Rattle.sql_types.specs.Row.{Row};
ghost use Rattle.sql_ast.specs.declared.role.Role.{Role};
ghost use Rattle.sql_ast.specs.declared.role.Membership.{Membership};
ghost use Rattle.sql_ast.specs.declared.privilege.Descriptor.{Descriptor};
ghost use Rattle.sql_ast.specs.declared.policy.Policy.{Policy};
ghost use Rattle.sql_ast.specs.Layout.{Layout, IsLayout};
ghost use Rattle.sql_ast.specs.Fits.{FitsTable};
ghost use Rattle.store.specs.Records.{Records};
ghost use Rattle.store.specs.Items.{Holds};
ghost use Rattle.abstract_database.specs.Lists.{TheName};
ghost use Rattle.abstract_database.specs.Whole.{Each};
ghost use Rattle.row_codec.specs.Rows.{row_prefix};
ghost use Rattle.stored_database.specs.Definitions.{TableDefinition, numbered_tables};
ghost use Rattle.stored_database.specs.RecordFormat.{role_prefix, role_record, membership_prefix, membership_record, table_prefix, table_record, descriptor_prefix, descriptor_record, policy_prefix, policy_record, row_record};
ghost use Rattle.stored_database.specs.Items.{IsStoredMembership, IsStoredTable, IsStoredDescriptor, IsStoredPolicy};

use expr_parser::laws::one_answer;

/// Records hold at most one list of roles.
pub fn one_list_of_roles()
    ensures { (records : Records) (a b : List Role) → Holds records role_prefix role_record a
        → Holds records role_prefix role_record b → a ≡ b }
{}

/// Records hold at most one list of memberships.
pub fn one_list_of_memberships()
    ensures { (records : Records) (a b : List Membership) → Each IsStoredMembership a
        → Each IsStoredMembership b → Holds records membership_prefix membership_record a
        → Holds records membership_prefix membership_record b → a ≡ b }
{}

/// Records hold at most one list of tables, with the number of each: what else a table has, its
/// descriptors and its policies, other records say.
pub fn one_list_of_tables()
    ensures { (records : Records) (a b : List TableDefinition) → Each IsStoredTable a
        → Each IsStoredTable b → Holds records table_prefix table_record a
        → Holds records table_prefix table_record b → numbered_tables a ≡ numbered_tables b }
{}

/// Records hold at most one list of privilege descriptors for a table.
pub fn one_list_of_descriptors()
    ensures { (records : Records) (table : TheName) (id : ℕ) (a b : List Descriptor)
        → Each (IsStoredDescriptor table) a → Each (IsStoredDescriptor table) b
        → Holds records (descriptor_prefix id) (descriptor_record id) a
        → Holds records (descriptor_prefix id) (descriptor_record id) b → a ≡ b }
{}

/// Records hold at most one list of policies of a table.
pub fn one_list_of_policies()
    ensures { (records : Records) (table : TheName) (id : ℕ) (a b : List Policy)
        → Each (IsStoredPolicy table) a → Each (IsStoredPolicy table) b
        → Holds records (policy_prefix id) (policy_record id) a
        → Holds records (policy_prefix id) (policy_record id) b → a ≡ b }
{
    // For the proof: a text has one reading.
    one_answer();
}

/// Records hold at most one list of rows of a table.
pub fn one_list_of_rows()
    ensures { (records : Records) (id : ℕ) (layout : Layout) (a b : List Row) → IsLayout layout
        → Each (FitsTable layout) a → Each (FitsTable layout) b
        → Holds records (row_prefix id) (row_record id layout) a
        → Holds records (row_prefix id) (row_record id layout) b → a ≡ b }
{}
