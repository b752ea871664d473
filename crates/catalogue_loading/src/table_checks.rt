//! Tables that are those of a whole database.

ghost use Rattle.std.specs.Prelude.{◌↔◌, IsTrue, IfOk};
ghost use Rattle.abstract_database.specs.Whole.{Each};
ghost use Rattle.catalogue_loading.specs.ValidityParts.{IsWholeDefinition};

use crate::name_checks::know_name;
use crate::policy_checks::are_policies;
use crate::privilege_checks::has_whole_privileges;
use catalogue::definitions::Catalogue;
use catalogue::table::TableDefinition;
use std::alloc::{AllocError, Global};

/// Whether a table has an owner, and its descriptors and policies are whole.
fn is_whole_definition(
    alloc: Global,
    catalogue: &Catalogue,
    table: &TableDefinition,
) -> Result<bool, AllocError>
    ensures { IfOk result (λ whole. IsTrue whole
        ↔ IsWholeDefinition catalogue.now.roles table.now) }
{
    know_name(table.name());
    // For the proof: the names of columns differ, by their type.
    let _ = table.columns().as_slice();
    let policies = table.policies();
    if !catalogue.has_role(table.owner()) {
        return Ok(false);
    }
    if !are_policies(catalogue, policies) {
        return Ok(false);
    }
    has_whole_privileges(alloc, catalogue, table)
}

/// Whether all tables are.
pub(crate) fn are_whole_definitions(
    alloc: Global,
    catalogue: &Catalogue,
    tables: &[TableDefinition],
) -> Result<bool, AllocError>
    ensures { IfOk result (λ whole. IsTrue whole
        ↔ Each (IsWholeDefinition catalogue.now.roles) tables.now) }
{
    for table in tables {
        if !is_whole_definition(alloc, catalogue, table)? {
            return Ok(false);
        }
    }
    Ok(true)
}
