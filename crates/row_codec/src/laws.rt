//! Laws of the bytes of rows: each function does nothing, and its clauses are proved.

ghost use Rattle.std.specs.Prelude.{◌≡◌, ℕ, ◌<◌, ◌^◌, ◌++◌, List, length};
ghost use Rattle.sql_ast.specs.Layout.{Layout, IsLayout};
ghost use Rattle.sql_ast.specs.Rows.{key_size, record_size};
ghost use Rattle.sql_types.specs.Row.{Row};
ghost use Rattle.row_codec.specs.Rows.{row_key, row_value, row_prefix, SpellsOnce, HaveOwnPrefix, KeyOrderIsByteOrder};

/// Keys compare, byte by byte, as the values of the key's columns do, in the key's order. This
/// holds for each list of columns that are NOT NULL, so of the first columns of a key too.
pub fn key_order()
    ensures { KeyOrderIsByteOrder }
{}

/// A row's key and its other columns are as long as their sizes say.
pub fn sizes()
    ensures key { (layout : Layout) (row : Row) → length (row_key layout row) ≡ key_size layout.key row }
    ensures value { (layout : Layout) (row : Row)
        → length (row_value layout row) ≡ record_size layout.key row }
{}

/// Bytes spell one row that a table of these columns may hold, and no other.
pub fn one_row()
    ensures { (layout : Layout) (key value : List ℕ) → IsLayout layout → SpellsOnce layout key value }
{}

/// Keys of two tables' rows begin differently.
pub fn prefixes()
    ensures { (a b : ℕ) → a < 2 ^ 32 → b < 2 ^ 32 → HaveOwnPrefix a b }
{}
