//! Numbers of tables.

ghost use Rattle.std.specs.Prelude.{◌↔◌, IsTrue};
ghost use Rattle.catalogue_loading.specs.ValidityParts.{AreNumbered};

use catalogue::table::TableDefinition;

// The numbers from 0 to 1,024: a table has one of them, and none has 0.
const IDS: usize = 1025;

/// Whether each table has a number from 1 to 1,024, and no two have one. The tables are looked at
/// once.
pub(crate) fn are_numbered(tables: &[TableDefinition]) -> bool
    ensures { IsTrue result ↔ AreNumbered tables.now }
{
    let mut marks = [false; IDS];
    for table in tables {
        let id = table.id() as usize;
        if id == 0 {
            return false;
        }
        if id >= IDS {
            return false;
        }
        if marks[id] {
            return false;
        }
        marks[id] = true;
    }
    true
}
