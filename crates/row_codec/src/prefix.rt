//! What the keys of records begin with.

ghost use Rattle.std.specs.Prelude.{◌≡◌, ◌∷◌, ◌++◌, OnOk, OnErr};
ghost use Rattle.byteorder.specs.Endian.{big_bytes};
ghost use Rattle.storage_sizes.specs.Kinds.{kind_byte};
ghost use Rattle.row_codec.specs.Rows.{row_prefix};

use byteorder::{BigEndian, ByteOrder};
use std::alloc::AllocError;
use storage_sizes::RecordKind;

/// What the keys of the records of a kind begin with that belong to one table: the byte of the kind,
/// and the table's id in four bytes.
pub fn table_prefix(kind: RecordKind, table: u32) -> [u8; 5]
    ensures { result ≡ kind_byte kind ∷ big_bytes 4 table }
{
    let mut prefix = [kind.byte(); 5];
    BigEndian::write_u32(&mut prefix[1..], table);
    prefix
}

/// Appends what the keys of a table's rows begin with in the store: a byte for rows, and the
/// table's id in four bytes. Where memory is refused, `out` stays as it is.
pub fn push_row_prefix(out: &mut Vec<u8>, table: u32) -> Result<(), AllocError>
    ensures ok { OnOk result (out.new.items ≡ out.old.items ++ row_prefix table) }
    ensures err { OnErr result (out.new.items ≡ out.old.items) }
{
    out.extend_from_slice(&table_prefix(RecordKind::Row, table))
}
