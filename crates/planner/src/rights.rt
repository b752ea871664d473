//! What the current role may do with tables (PostgreSQL manual, "Privileges").

ghost use Rattle.std.specs.Prelude.{◌≡◌, map, IfOk};
ghost use Rattle.std.specs.List.{list_all};
ghost use Rattle.sql_ast.specs.declared.privilege.Action.TheVariants as action;
ghost use Rattle.abstract_database.specs.Needs.{on_columns, columns_read};
ghost use Rattle.gathering.specs.Queries.{bound_of};
ghost use Rattle.planner.specs.Changed.{values_of, where_of, expressions_in};
ghost use Rattle.planner.specs.Rights.{AreRightsOf, IsGivenToAny, IsHeld, meets, needs_of_change, needs_of_write};
ghost use Rattle.planner.specs.Selected.{may_read};

use crate::masks::{covers_each, covers_some, is_whole};
use crate::reading::{covers_changes, covers_query};
use catalogue::definitions::Catalogue;
use catalogue::table::TableDefinition;
use expressions::types::Typed;
use gathering::query::Query;
use role_membership::{RoleSet, closure};
use sql_ast::privilege::Action;
use sql_types::name::Name;
use std::alloc::{AllocError, Global};

/// The name under which a table is asked for what PUBLIC has.
const PUBLIC: &str = "";

/// The rights of a role: a superuser has each, another role those of the roles that it is in.
#[derive(Drop)]
pub(crate) struct Rights<'a> {
    is_superuser: bool,
    roles: RoleSet<'a>,
}

impl<'a> Rights<'a> {
    /// The rights of the role of a name.
    pub(crate) fn of(
        alloc: Global,
        catalogue: &'a Catalogue,
        role: &'a Name,
    ) -> Result<Rights<'a>, AllocError>
        ensures { IfOk result (AreRightsOf catalogue.now role.now) }
    {
        let roles = closure(alloc, catalogue.memberships(), role)?;
        Ok(Rights {
            is_superuser: catalogue.is_superuser(role),
            roles,
        })
    }

    /// The roles that the role is in, lent.
    pub(crate) fn roles(&self) -> &RoleSet<'a>
        ensures { result.now ≡ self.now.roles }
    {
        &self.roles
    }

    /// The roles that the role is in.
    pub(crate) fn into_roles(self) -> RoleSet<'a>
        ensures { result ≡ self.entry.roles }
    {
        self.roles
    }

    /// Whether they may write rows of a table: whether they have the action on each of these columns,
    /// and where there are none, on one at least. DELETE they must have on the whole table.
    pub(crate) fn may_write(
        &self,
        action: Action,
        table: &TableDefinition,
        columns: &[usize],
    ) -> bool
        ensures { result ≡ list_all (meets self.now table.now)
            (needs_of_write action table.now.definition.name columns.now) }
    {
        let mask = self.held(action, table);
        match action {
            Action::Delete => is_whole(mask),
            _ => covers_some(mask) && covers_each(mask, columns),
        }
    }

    /// Whether they may read what new values and a condition read of their table.
    fn may_read_changes(
        &self,
        table: &TableDefinition,
        values: &[Typed],
        condition: &Option<Typed>,
    ) -> bool
        ensures { result ≡ list_all (meets self.now table.now)
            (on_columns table.now.definition.name action.Select
            (columns_read 0 (expressions_in values.now condition.now))) }
    {
        covers_changes(self.held(Action::Select, table), values, condition)
    }

    /// Whether they may read what a query reads of the table of this number.
    pub(crate) fn may_read_query(
        &self,
        table: &TableDefinition,
        query: &Query,
        number: usize,
    ) -> bool
        ensures { result ≡ may_read self.now (bound_of query.now) number table.now }
    {
        let mask = self.held(Action::Select, table);
        covers_some(mask) && covers_query(mask, query, number, table.columns())
    }

    /// Whether they have what a statement needs that changes rows of a table, and may set these
    /// columns.
    pub(crate) fn may_change(
        &self,
        action: Action,
        table: &TableDefinition,
        columns: &[usize],
        values: &[Typed],
        condition: &Option<Typed>,
    ) -> bool
        ensures { result ≡ list_all (meets self.now table.now)
            (needs_of_change action table.now.definition columns.now
            (values_of values.now) (where_of condition.now)) }
    {
        self.may_write(action, table, columns) && self.may_read_changes(table, values, condition)
    }

    /// What they have of a table for an action, as a mask: bit 0 is set for the whole table, bit i + 1
    /// for the column of index i. For each role of the closure, and once for PUBLIC, the table looks up
    /// what its descriptors give.
    fn held(&self, action: Action, table: &TableDefinition) -> u32
        ensures { IsHeld self.now action table.now result }
    {
        if self.is_superuser {
            return u32::MAX;
        }
        table.held(action, PUBLIC) | held_by_any(action, table, self.roles.names())
    }
}

/// What descriptors of the table give any of these roles for an action.
fn held_by_any(action: Action, table: &TableDefinition, roles: &[&str]) -> u32
    ensures { IsGivenToAny table.now.descriptors action (map (λ r. r.now) roles.now) result }
{
    let mut mask = 0;
    for role in roles {
        mask |= table.held(action, role);
    }
    mask
}
