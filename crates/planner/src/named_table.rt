//! The one table that an INSERT, an UPDATE or a DELETE names.

ghost use Rattle.std.specs.Prelude.{IfOk, IfErr};
ghost use Rattle.planner.specs.Rights.{AreRightsOf};
ghost use Rattle.planner.specs.NamedTable.{IsNamed, IsMissing, IsGuarded};

use crate::rights::Rights;
use crate::sources::{Source, guard};
use crate::tables::find_table;
use catalogue::definitions::Catalogue;
use catalogue::table::TableDefinition;
use role_membership::RoleSet;
use sql_ast::privilege::Action;
use sql_types::name::Name;
use sql_types::state::Refusal;
use std::alloc::{AllocError, Global};

/// The table that a statement names, and the rights of the current role.
#[derive(Drop)]
pub(crate) struct NamedTable<'c> {
    pub rights: Rights<'c>,
    pub table: &'c TableDefinition,
}

/// The same table with the guard of its rows.
#[derive(Drop)]
pub(crate) struct GuardedTable<'c> {
    pub source: Source<'c>,
    /// The roles that the current role is in.
    pub roles: RoleSet<'c>,
}

impl<'c> NamedTable<'c> {
    /// The table of this name, for the current role. `UndefinedTable` comes where no table has it.
    pub(crate) fn find(
        alloc: Global,
        catalogue: &'c Catalogue,
        current: &'c Name,
        name: &Name,
    ) -> Result<NamedTable<'c>, Refusal>
        ensures found { IfOk result (IsNamed catalogue.now current.now name.now) }
        ensures missing { IfErr result (IsMissing catalogue.now name.now) }
    {
        let rights = Rights::of(alloc, catalogue, current)?;
        let table = find_table(catalogue, name)?;
        Ok(NamedTable { rights, table })
    }

    /// The table with the guard of its rows from an action of the current role, which may need SELECT
    /// too.
    pub(crate) fn guarded(
        self,
        alloc: Global,
        catalogue: &Catalogue,
        current: &Name,
        action: Action,
        reads: bool,
    ) -> Result<GuardedTable<'c>, AllocError>
        requires { AreRightsOf catalogue.now current.now self.rights }
        ensures { IfOk result
            (IsGuarded catalogue.now current.now self.entry.table.now action reads) }
    {
        let NamedTable { rights, table } = self;
        let source = guard(alloc, catalogue, &rights, current, table, action, reads)?;
        let roles = rights.into_roles();
        Ok(GuardedTable { source, roles })
    }
}
