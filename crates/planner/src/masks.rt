//! Masks of what is had of a table: bit 0 is the table's, bit i + 1 that of the column of index i.

ghost use Rattle.std.specs.Prelude.{◌≡◌, ◌<◌};
ghost use Rattle.std.specs.List.{list_all, range_with_len};
ghost use Rattle.catalogue.specs.Grants.{has_bit};
ghost use Rattle.planner.specs.Rights.{covers as covers_column, covers_some as covers_one};

/// Whether a bit of a mask is set.
fn is_set(mask: u32, bit: u32) -> bool
    requires { bit < 32 }
    ensures { result ≡ has_bit mask bit }
{
    (mask >> bit) & 1 == 1
}

/// Whether the whole table is had.
pub(crate) fn is_whole(mask: u32) -> bool
    ensures { result ≡ has_bit mask 0 }
{
    is_set(mask, 0)
}

/// Whether the table or one of its columns at least is had.
pub(crate) fn covers_some(mask: u32) -> bool
    ensures { result ≡ covers_one (has_bit mask) }
{
    mask != 0
}

/// Whether a column is had, with the whole table or alone.
pub(crate) fn covers(mask: u32, column: usize) -> bool
    ensures { result ≡ covers_column (has_bit mask) column }
{
    is_set(mask, 0) || column < 31 && is_set(mask, column as u32 + 1)
}

/// Whether each of these columns is had.
pub(crate) fn covers_each(mask: u32, columns: &[usize]) -> bool
    ensures { result ≡ list_all (covers_column (has_bit mask)) columns.now }
{
    columns.iter().all(|column| covers(mask, *column))
}

/// Whether each of so many columns from the left is had.
pub(crate) fn covers_first(mask: u32, count: usize) -> bool
    ensures { result ≡ list_all (covers_column (has_bit mask)) (range_with_len 0 count) }
{
    for column in 0..count {
        if !covers(mask, column) {
            return false;
        }
    }
    true
}
