//! The numbers of tables, and those that are free.

ghost use Rattle.std.specs.Prelude.{◌≡◌, ◌<◌, length, IfOk, IsSome, MatchOption};
ghost use Rattle.abstract_database.specs.Whole.{max_tables};
ghost use Rattle.stored_database.specs.Definitions.{ids_of};
ghost use Rattle.catalogue.specs.Numbers.{IsLeastFree, AreAllTaken, MarkTaken};

use crate::table::TableDefinition;
use std::alloc::{AllocError, Global};

// The numbers from 0 to 1,024: a table has one of them, and none has 0.
const IDS: usize = 1025;

/// The numbers of tables.
pub fn table_ids(alloc: Global, tables: &[TableDefinition]) -> Result<Vec<u32>, AllocError>
    ensures { IfOk result (λ ids. ids.items ≡ ids_of tables.now) }
{
    let mut ids = Vec::new(alloc);
    for table in tables {
        ids.push(table.id())?;
    }
    Ok(ids)
}

/// The least number from 1 to 1,024 that no table has, or `None` where each is taken: where there
/// are fewer tables, one is free. The tables are looked at once.
pub fn least_free_id(tables: &[TableDefinition]) -> Option<u32>
    ensures least { MatchOption result
        (AreAllTaken (ids_of tables.now))
        (IsLeastFree (ids_of tables.now)) }
    ensures some { length tables.now < max_tables → IsSome result }
{
    let marks = marks(tables);
    for id in 1..IDS {
        if !marks[id] {
            return Some(id as u32);
        }
    }
    None
}

/// Marks at the numbers that the tables have.
fn marks(tables: &[TableDefinition]) -> [bool; IDS]
    ensures { MarkTaken (ids_of tables.now) result }
{
    let mut marks = [false; IDS];
    for table in tables {
        let id = table.id() as usize;
        if id < IDS {
            marks[id] = true;
        }
    }
    marks
}
