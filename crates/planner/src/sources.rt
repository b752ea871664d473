//! The tables of a plan and what guards their rows (PostgreSQL manual, "Row Security Policies").

ghost use Rattle.std.specs.Prelude.{◌≡◌, map, IfOk};
ghost use Rattle.std.specs.List.{All};
ghost use Rattle.planner.specs.Rights.{AreRightsOf};
ghost use Rattle.sql_ast.specs.declared.privilege.Action.TheVariants as action;
ghost use Rattle.std.specs.Prelude.{true};
ghost use Rattle.planner.specs.Sources.{IsGuardedFrom};

use crate::rights::Rights;
use catalogue::definitions::Catalogue;
use catalogue::table::TableDefinition;
use guards::guard::Guard;
use policy_composer::compose;
use sql_ast::privilege::Action;
use sql_types::items::Items;
use sql_types::name::Name;
use std::alloc::{AllocError, Global};

/// A table of a plan.
#[derive(Drop)]
pub struct Source<'c> {
    pub table: &'c TableDefinition,
    /// What the rows must meet that the statement sees, and those that it writes.
    pub guard: Guard<'c>,
}

/// The table with the guard of its rows from an action of the current role, which may need SELECT
/// too.
pub(crate) fn guard<'c>(
    alloc: Global,
    catalogue: &Catalogue,
    rights: &Rights<'_>,
    current: &Name,
    table: &'c TableDefinition,
    action: Action,
    reads: bool,
) -> Result<Source<'c>, AllocError>
    requires { AreRightsOf catalogue.now current.now rights.now }
    ensures table { IfOk result (λ s. s.table.now ≡ table.now) }
    ensures guard { IfOk result (IsGuardedFrom catalogue.now current.now action reads) }
{
    let roles = rights.roles();
    let guard = compose(alloc, catalogue, roles, current, table, action, reads)?;
    Ok(Source { table, guard })
}

/// The same of each of these tables, for SELECT.
pub(crate) fn guard_each<'c>(
    alloc: Global,
    catalogue: &Catalogue,
    rights: &Rights<'_>,
    current: &Name,
    tables: &[&'c TableDefinition],
) -> Result<Items<Source<'c>>, AllocError>
    requires { AreRightsOf catalogue.now current.now rights.now }
    ensures tables { IfOk result (λ sources.
        map (λ s. s.table.now) sources ≡ map (λ t. t.now) tables.now) }
    ensures guards { IfOk result
        (All (IsGuardedFrom catalogue.now current.now action.Select true)) }
{
    let mut sources = Items::new(alloc);
    for table in tables {
        let source = guard(
            alloc,
            catalogue,
            rights,
            current,
            *table,
            Action::Select,
            true,
        )?;
        sources.push(source)?;
    }
    Ok(sources)
}
