//! Laws of the kinds of records: a key begins with the byte of one kind, and with the number of one
//! table where the kind has one. A key of no kind, or of no table, is an orphan.

ghost use Rattle.std.specs.Prelude.{◌≡◌, ◌<◌, ◌^◌, ◌⊎◌, ℕ, nat_eq, List, [], ◌∷◌, true, false};
ghost use Rattle.std.specs.List.{list_any};
ghost use Rattle.sql_types.specs.Row.{Row};
ghost use Rattle.sql_ast.specs.declared.role.Role.{Role};
ghost use Rattle.sql_ast.specs.declared.role.Membership.{Membership};
ghost use Rattle.sql_ast.specs.declared.privilege.Descriptor.{Descriptor};
ghost use Rattle.sql_ast.specs.declared.policy.Policy.{Policy};
ghost use Rattle.sql_ast.specs.Layout.{Layout};
ghost use Rattle.store.specs.Records.{Record, Records, has_prefix};
ghost use Rattle.store.specs.Items.{Holds};
ghost use Rattle.row_codec.specs.Rows.{row_prefix};
ghost use Rattle.abstract_database.specs.Lists.{Among};
ghost use Rattle.abstract_database.specs.Database.{Database};
ghost use Rattle.abstract_database.specs.Whole.{Each};
ghost use Rattle.stored_database.specs.Definitions.{TableDefinition, Definitions, ids_of};
ghost use Rattle.stored_database.specs.RecordFormat.{role_prefix, role_record, membership_prefix, membership_record, table_prefix, table_record, descriptor_prefix, descriptor_record, policy_prefix, policy_record, row_record};
ghost use Rattle.stored_database.specs.Items.{IsStoredTable};
ghost use Rattle.stored_database.specs.Records.{is_orphan, is_orphan_row, Define, HasNoRecords, Shows, StandsFor};

/// The key of each record begins with the byte of its kind, and with the number of its table.
pub fn keys_begin_with_their_kind()
    ensures role { (r : Role) → has_prefix role_prefix (role_record r).0 ≡ true }
    ensures membership { (m : Membership)
        → has_prefix membership_prefix (membership_record m).0 ≡ true }
    ensures table { (t : TableDefinition) → has_prefix table_prefix (table_record t).0 ≡ true }
    ensures descriptor { (id : ℕ) (d : Descriptor)
        → has_prefix (descriptor_prefix id) (descriptor_record id d).0 ≡ true }
    ensures policy { (id : ℕ) (p : Policy)
        → has_prefix (policy_prefix id) (policy_record id p).0 ≡ true }
    ensures row { (id : ℕ) (layout : Layout) (row : Row)
        → has_prefix (row_prefix id) (row_record id layout row).0 ≡ true }
{}

/// No key is of two kinds, nor of two tables.
pub fn keys_have_one_kind()
    ensures kind { (key : List ℕ) (a b : ℕ) → has_prefix (a ∷ []) key ≡ true
        → has_prefix (b ∷ []) key ≡ true → a ≡ b }
    ensures descriptor { (key : List ℕ) (a b : ℕ) → a < 2 ^ 32 → b < 2 ^ 32
        → has_prefix (descriptor_prefix a) key ≡ true
        → has_prefix (descriptor_prefix b) key ≡ true → a ≡ b }
    ensures policy { (key : List ℕ) (a b : ℕ) → a < 2 ^ 32 → b < 2 ^ 32
        → has_prefix (policy_prefix a) key ≡ true
        → has_prefix (policy_prefix b) key ≡ true → a ≡ b }
    ensures row { (key : List ℕ) (a b : ℕ) → a < 2 ^ 32 → b < 2 ^ 32
        → has_prefix (row_prefix a) key ≡ true → has_prefix (row_prefix b) key ≡ true → a ≡ b }
{}

/// Records with an orphan among them define nothing, and with an orphan row stand for no database.
/// Which keys are orphans the records of tables tell.
pub fn orphans_stand_for_nothing()
    ensures definitions { (records : Records) (tables : List TableDefinition) (e : Record)
        → Each IsStoredTable tables → Holds records table_prefix table_record tables
        → Among e records → is_orphan (ids_of tables) e.0 ≡ true
        → (d : Definitions) → Define records d → ⊥ }
    ensures rows { (records : Records) (tables : List TableDefinition) (e : Record)
        → Each IsStoredTable tables → Holds records table_prefix table_record tables
        → Among e records → is_orphan_row (ids_of tables) e.0 ≡ true
        → (db : Database) → StandsFor records db → ⊥ }
{}

/// A number of no table has no records, so a new table may take it; and numbers are from 1 to
/// 1,024.
pub fn free_numbers_have_no_records()
    ensures free { (records : Records) (d : Definitions) (db : Database) (id : ℕ)
        → Shows records d db → id < 2 ^ 32 → list_any (nat_eq id) (ids_of d.tables) ≡ false
        → HasNoRecords records id }
    ensures range { (records : Records) (d : Definitions) (db : Database) (id : ℕ)
        → Shows records d db → id < 2 ^ 32 → (id ≡ 0) ⊎ (1024 < id)
        → HasNoRecords records id }
{}
