//! Tables with what each role has of them.

ghost use Rattle.std.specs.Prelude.{◌≡◌, ◌∷◌, [], map, IfOk};
ghost use Rattle.abstract_database.specs.Whole.{Each};
ghost use Rattle.access_texts.specs.Access.{StandsForTable};

use catalogue::definitions::Catalogue;
use catalogue::table::TableDefinition;
use std::alloc::{AllocError, Global};
use table_access::table::{AccessToTable, access_to};

/// A table with what each role has of it.
#[derive(Drop)]
pub(crate) struct AccessOfTable<'a> {
    pub(crate) table: &'a TableDefinition,
    pub(crate) access: AccessToTable<'a>,
}

/// What each role has of these tables of a database, in their order.
pub(crate) fn each_access<'a>(
    alloc: Global,
    catalogue: &'a Catalogue,
    tables: &[&'a TableDefinition],
) -> Result<Vec<AccessOfTable<'a>>, AllocError>
    ensures tables { IfOk result (λ found. map (λ x. x.table.now) found.items ≡ map (λ t. t.now) tables.now) }
    ensures found { IfOk result (λ found. Each (StandsForTable catalogue.now) found.items) }
{
    let mut found = Vec::new(alloc);
    let mut rest = tables;
    while let [table, after @ ..] = rest {
        found.push(access_of(alloc, catalogue, table)?)?;
        rest = after;
    }
    Ok(found)
}

/// What each role has of a table of a database.
pub(crate) fn access_of<'a>(
    alloc: Global,
    catalogue: &'a Catalogue,
    table: &'a TableDefinition,
) -> Result<AccessOfTable<'a>, AllocError>
    ensures table { IfOk result (λ found. found.table.now ≡ table.now) }
    ensures found { IfOk result (StandsForTable catalogue.now) }
{
    let access = access_to(alloc, catalogue, table)?;
    Ok(AccessOfTable { table, access })
}
