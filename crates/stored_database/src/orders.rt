//! Laws of the order of records: the keys of records compare as the items that they spell, so lists
//! that ordered records hold are in the order of the database.

ghost use Rattle.std.specs.Prelude.{◌≡◌, ℕ, List};
ghost use Rattle.sql_types.specs.Row.{Row};
ghost use Rattle.sql_ast.specs.declared.role.Role.{Role};
ghost use Rattle.sql_ast.specs.declared.role.Membership.{Membership};
ghost use Rattle.sql_ast.specs.declared.privilege.Descriptor.{Descriptor};
ghost use Rattle.sql_ast.specs.declared.policy.Policy.{Policy};
ghost use Rattle.sql_ast.specs.Layout.{Layout, IsLayout};
ghost use Rattle.sql_ast.specs.Fits.{FitsTable};
ghost use Rattle.sql_ast.specs.Rows.{row_cmp};
ghost use Rattle.store.specs.Records.{Records, IsOrdered, key_cmp};
ghost use Rattle.abstract_database.specs.Lists.{TheName, Rising};
ghost use Rattle.abstract_database.specs.Database.{role_cmp, membership_cmp, descriptor_cmp, policy_cmp};
ghost use Rattle.abstract_database.specs.Whole.{Each, IsInOrder};
ghost use Rattle.stored_database.specs.Definitions.{TableDefinition, Definitions, definition_cmp, descriptors_of, policies_of, database_of};
ghost use Rattle.stored_database.specs.RecordFormat.{role_record, membership_record, table_record, descriptor_record, policy_record, row_record};
ghost use Rattle.stored_database.specs.Items.{IsStoredMembership, IsStoredDescriptor, IsStoredPolicy, AreStored};
ghost use Rattle.stored_database.specs.Valid.{HasOwnDescriptors, HasOwnPolicies};
ghost use Rattle.stored_database.specs.Records.{HoldDefinitions};

/// The keys of records compare, byte by byte, as the items that they spell do in the database.
pub fn keys_are_in_the_order_of_items()
    ensures role { (a b : Role) → key_cmp (role_record a).0 (role_record b).0 ≡ role_cmp a b }
    ensures membership { (a b : Membership) → IsStoredMembership a → IsStoredMembership b
        → key_cmp (membership_record a).0 (membership_record b).0 ≡ membership_cmp a b }
    ensures table { (a b : TableDefinition)
        → key_cmp (table_record a).0 (table_record b).0 ≡ definition_cmp a b }
    ensures descriptor { (table : TheName) (id : ℕ) (a b : Descriptor) → IsStoredDescriptor table a
        → IsStoredDescriptor table b
        → key_cmp (descriptor_record id a).0 (descriptor_record id b).0 ≡ descriptor_cmp a b }
    ensures policy { (table : TheName) (id : ℕ) (a b : Policy) → IsStoredPolicy table a
        → IsStoredPolicy table b
        → key_cmp (policy_record id a).0 (policy_record id b).0 ≡ policy_cmp a b }
    ensures row { (id : ℕ) (layout : Layout) (a b : Row) → IsLayout layout → FitsTable layout a
        → FitsTable layout b
        → key_cmp (row_record id layout a).0 (row_record id layout b).0 ≡ row_cmp layout.key a b }
{}

/// Privilege descriptors and policies that are put together table by table, the tables in the order
/// of their names, are in the order of the database.
pub fn joined_lists_are_in_order()
    ensures descriptors { (tables : List TableDefinition) → Rising definition_cmp tables
        → Each HasOwnDescriptors tables → Each (λ t. Rising descriptor_cmp t.descriptors) tables
        → Rising descriptor_cmp (descriptors_of tables) }
    ensures policies { (tables : List TableDefinition) → Rising definition_cmp tables
        → Each HasOwnPolicies tables → Each (λ t. Rising policy_cmp t.policies) tables
        → Rising policy_cmp (policies_of tables) }
{}

/// The definitions that ordered records hold are in the order of the database.
pub fn held_definitions_are_in_order()
    ensures { (records : Records) (d : Definitions) → IsOrdered records → AreStored d
        → HoldDefinitions records d → IsInOrder (database_of d) }
{}
