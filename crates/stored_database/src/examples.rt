//! Records by the byte.

ghost use Rattle.std.specs.Prelude.{◌≡◌};
ghost use Rattle.stored_database.specs.RecordFormat.{role_record, membership_record, table_record, descriptor_record, policy_record, row_record};
ghost use Rattle.stored_database.specs.BothRecordFormats.{first_descriptor};
ghost use Rattle.stored_database.specs.Examples.{root, root_bytes, eve, eve_bytes, staff_to_bob, staff_to_bob_bytes, t, t_layout, t_bytes, select_to_ann, select_to_ann_bytes, select_to_ann_first_bytes, update_to_public, update_to_public_bytes, select_first_to_bob, select_first_to_bob_bytes, insert_fourth_to_bob, insert_fourth_to_bob_bytes, p, p_bytes, row, row_bytes, f, f_bytes, delete_to_public, delete_to_public_bytes, q, q_bytes};

/// One record of each kind, byte by byte.
pub fn records_by_the_byte()
    ensures superuser { role_record root ≡ root_bytes }
    ensures role { role_record eve ≡ eve_bytes }
    ensures membership { membership_record staff_to_bob ≡ staff_to_bob_bytes }
    ensures table { table_record t ≡ t_bytes }
    ensures descriptor { descriptor_record 1 select_to_ann ≡ select_to_ann_bytes }
    ensures record_format_1 { first_descriptor 1 select_to_ann ≡ select_to_ann_first_bytes }
    ensures public { descriptor_record 1 update_to_public ≡ update_to_public_bytes }
    ensures first_column { descriptor_record 1 select_first_to_bob ≡ select_first_to_bob_bytes }
    ensures fourth_column { descriptor_record 1 insert_fourth_to_bob ≡ insert_fourth_to_bob_bytes }
    ensures policy { policy_record 1 p ≡ p_bytes }
    ensures row { row_record 1 t_layout row ≡ row_bytes }
{}

/// The numbers that these leave out, byte by byte: FORCE alone, DELETE, and a policy that is PERMISSIVE, for
/// ALL, to PUBLIC and with a WITH CHECK.
pub fn numbers_by_the_byte()
    ensures forced { table_record f ≡ f_bytes }
    ensures delete { descriptor_record 1 delete_to_public ≡ delete_to_public_bytes }
    ensures permissive { policy_record 1 q ≡ q_bytes }
{}
