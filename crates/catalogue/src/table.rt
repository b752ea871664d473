//! Tables with their privilege descriptors and policies.

ghost use Rattle.std.specs.Prelude.{◌≡◌, ◌↔◌, ◌&&◌, IsTrue, bytes_eq, find, IfOk, IfSome};
ghost use Rattle.std.specs.List.{list_any, list_all};
ghost use Rattle.std.specs.Option.{option_copied, option_map};
ghost use Rattle.abstract_database.specs.Database.{is_policy_named};
ghost use Rattle.abstract_database.specs.Privileges.{same_key};
ghost use Rattle.catalogue.specs.Grants.{is_for, AreNamed, IsGivenBy};
ghost use Rattle.catalogue.specs.Policies.{IsBoundPolicy, policies_in};
ghost use Rattle.catalogue.specs.Descriptors.{table_after};
ghost use Rattle.catalogue.specs.Rooms.{HasRoomFor};
ghost use Rattle.catalogue.specs.Tables.{definition_of, AreParts, HasOrderedParts, HasBoundPolicies, table_scope};

use crate::descriptor_change::DescriptorChange;
use crate::grants::GrantIndex;
use crate::order::{compare_descriptors, compare_names, descriptors_rise, policies_rise};
use crate::policy::CataloguePolicy;
use crate::reservation::{Reservation, changed};
use sql_ast::columns::Columns;
use sql_ast::privilege::{Action, Descriptor};
use sql_types::items::Items;
use sql_types::name::Name;
use sql_types::try_copy::TryCopy;
use std::alloc::{AllocError, Global};
use std::marker::Model;
use std::mem;

/// What a [`TableDefinition`] is made of.
#[derive(Drop)]
pub struct TableParts {
    /// The number that stands for the table in records.
    pub id: u32,
    pub name: Name,
    pub owner: Name,
    pub columns: Columns,
    /// Whether row security is enabled (PostgreSQL manual, ALTER TABLE).
    pub row_security: bool,
    /// Whether row security concerns the owner too (PostgreSQL manual, ALTER TABLE).
    pub forced: bool,
    /// The privilege descriptors for the table, by action, column, grantor and grantee.
    pub descriptors: Items<Descriptor>,
    /// The policies of the table, by name.
    pub policies: Items<CataloguePolicy>,
}

impl TableParts {
    /// Whether the privilege descriptors and the policies are those of this table, each list in its
    /// order.
    pub fn are_in_order(&self) -> bool
        ensures { IsTrue result ↔ HasOrderedParts (definition_of self.now) }
    {
        let descriptors = self.descriptors.as_slice();
        let policies = self.policies.as_slice();
        let own_descriptors = descriptors_name(descriptors, &self.name);
        let own_policies = policies_name(policies, &self.name);
        let order = both(descriptors_rise(descriptors), policies_rise(policies));
        both(both(own_descriptors, own_policies), order)
    }
}

impl TryCopy for TableParts {
    fn try_copy(&self, alloc: Global) -> Result<TableParts, AllocError> {
        let name = self.name.try_copy(alloc)?;
        let owner = self.owner.try_copy(alloc)?;
        let columns = self.columns.try_copy(alloc)?;
        let descriptors = self.descriptors.try_copy(alloc)?;
        let policies = self.policies.try_copy(alloc)?;
        Ok(TableParts {
            id: self.id,
            name,
            owner,
            columns,
            row_security: self.row_security,
            forced: self.forced,
            descriptors,
            policies,
        })
    }
}

/// A table apart from its rows, which contracts see as a `TableDefinition` of the crate
/// `stored_database`. Its descriptors and policies are for it and in their order, and the conditions
/// of its policies are bound to its columns.
#[derive(Drop)]
pub struct TableDefinition {
    parts: TableParts,
    // What the descriptors give, made of them and kept with them.
    grants: GrantIndex,
}

impl Model for TableDefinition {
    ghost use Rattle.stored_database.specs.Definitions.{TableDefinition as DefinedTable};
    ghost use Rattle.catalogue.specs.Tables.{definition_of, AreParts};
    ghost use Rattle.catalogue.specs.Grants.{IsIndexOf};
    ghost use Rattle.std.specs.Coded.{codes};
    ghost use Rattle.sql_ast.specs.contracts.expr.Expr as expr;

    ghost Value = { DefinedTable };

    ghost coded = { Prim.hlevel (codes, expr.the_row.coded) };

    ghost view = { λ t. definition_of t.parts };

    ghost invariant = { λ t. AreParts t.parts × IsIndexOf t.parts.descriptors t.grants };
}

impl TableDefinition {
    /// The table that these parts define, made in the time of a sort of its privilege descriptors.
    pub fn new(alloc: Global, parts: TableParts) -> Result<TableDefinition, AllocError>
        requires { AreParts parts }
        ensures { IfOk result (λ table. table ≡ definition_of parts) }
    {
        let grants = GrantIndex::of(alloc, parts.descriptors.as_slice())?;
        Ok(TableDefinition { parts, grants })
    }

    /// The table that these parts define, which have the privilege descriptors of this table: what it
    /// has found out of them is copied, and they are not looked at again.
    pub fn with_parts(
        &self,
        alloc: Global,
        parts: TableParts,
    ) -> Result<TableDefinition, AllocError>
        requires parts { AreParts parts }
        requires descriptors { parts.descriptors ≡ self.now.descriptors }
        ensures { IfOk result (λ table. table ≡ definition_of parts) }
    {
        let grants = self.grants.try_copy(alloc)?;
        Ok(TableDefinition { parts, grants })
    }

    /// Makes a change of the privilege descriptors of the table in the memory that was taken for it.
    pub(crate) fn change_descriptors(&mut self, change: DescriptorChange, reservation: Reservation)
        requires table { change.table ≡ self.old.definition.name }
        requires reservation { HasRoomFor change self.old.descriptors reservation }
        ensures { self.new ≡ table_after change self.old }
    {
        let alloc = reservation.allocator();
        let descriptors = mem::replace(&mut self.parts.descriptors, Items::new(alloc));
        let index = mem::replace(&mut self.grants, GrantIndex::empty(alloc));
        let (descriptors, index) = changed(descriptors, index, change, reservation);
        self.parts.descriptors = descriptors;
        self.grants = index;
    }

    /// A copy of the parts of which the table is made.
    pub fn copy_parts(&self, alloc: Global) -> Result<TableParts, AllocError>
        ensures table { IfOk result (λ parts. definition_of parts ≡ self.now) }
        ensures parts { IfOk result AreParts }
    {
        self.parts.try_copy(alloc)
    }

    /// The number that stands for the table in records.
    pub fn id(&self) -> u32
        ensures { result ≡ self.now.id }
    {
        self.parts.id
    }

    /// The name of the table, lent.
    pub fn name(&self) -> &Name
        ensures { result.now ≡ self.now.definition.name }
    {
        &self.parts.name
    }

    /// The role that owns the table, lent.
    pub fn owner(&self) -> &Name
        ensures { result.now ≡ self.now.definition.owner }
    {
        &self.parts.owner
    }

    /// The columns of the table and its key, lent.
    pub fn columns(&self) -> &Columns
        ensures { result.now ≡ self.now.definition.layout }
    {
        &self.parts.columns
    }

    /// Whether row security is enabled.
    pub fn row_security(&self) -> bool
        ensures { result ≡ self.now.definition.row_security }
    {
        self.parts.row_security
    }

    /// Whether row security concerns the owner too.
    pub fn forced(&self) -> bool
        ensures { result ≡ self.now.definition.forced }
    {
        self.parts.forced
    }

    /// The privilege descriptors for the table, lent, in the order of action, column, grantor and
    /// grantee.
    pub fn descriptors(&self) -> &[Descriptor]
        ensures descriptors { result.now ≡ self.now.descriptors }
        ensures order { HasOrderedParts self.now }
    {
        self.parts.descriptors.as_slice()
    }

    /// The privilege descriptor for the table of this action, column, grantor and grantee, or `None` where
    /// there is none. It takes as many comparisons as the number of descriptors has binary digits.
    pub fn descriptor_like(&self, descriptor: &Descriptor) -> Option<&Descriptor>
        ensures { option_copied result ≡ find (same_key descriptor.now) self.now.descriptors }
    {
        let descriptors = self.descriptors();
        match descriptors.binary_search_by(|old| compare_descriptors(old, descriptor)) {
            Ok(index) => descriptors.get(index),
            Err(_) => None,
        }
    }

    /// What the privilege descriptors give a grantee for an action, as a mask: bit 0 is set where one
    /// gives it on the whole table, bit i + 1 where one gives it on the column of index i; PUBLIC alone has
    /// the empty name. It takes as many comparisons of names as the number of descriptors has binary digits.
    pub fn held(&self, action: Action, grantee: &str) -> u32
        ensures given { IsGivenBy self.now.descriptors action grantee.now result }
        ensures named { AreNamed self.now.descriptors }
    {
        self.grants.held(action, grantee)
    }

    /// Whether a privilege descriptor is for a grantee, whatever it gives; PUBLIC has the empty name. It
    /// takes as many comparisons of names as the number of descriptors has binary digits.
    pub fn names_grantee(&self, grantee: &str) -> bool
        ensures names { result ≡ list_any (is_for grantee.now) self.now.descriptors }
        ensures named { AreNamed self.now.descriptors }
    {
        self.grants.names(grantee)
    }

    /// The policies of the table, lent, in the order of their names, with their conditions bound to
    /// the columns of the table.
    pub fn policies(&self) -> &[CataloguePolicy]
        ensures policies { policies_in result.now ≡ self.now.policies }
        ensures bound { HasBoundPolicies self.now.definition result.now }
        ensures order { HasOrderedParts self.now }
    {
        self.parts.policies.as_slice()
    }

    /// The policy of a name, or `None` where no policy of the table has it. It takes as many
    /// comparisons of names as the number of policies has binary digits.
    pub fn policy(&self, name: &Name) -> Option<&CataloguePolicy>
        ensures policy { option_map (λ p. p.policy) (option_copied result)
            ≡ find (is_policy_named self.now.definition.name name.now) self.now.policies }
        ensures bound { IfSome result
            (λ p. IsBoundPolicy (table_scope self.now.definition) p.now) }
    {
        let policies = self.policies();
        match policies.binary_search_by(|policy| compare_names(&policy.policy.name, name)) {
            Ok(index) => policies.get(index),
            Err(_) => None,
        }
    }

    /// Whether the table has a policy of this name.
    pub fn has_policy(&self, name: &Name) -> bool
        ensures { result
            ≡ list_any (is_policy_named self.now.definition.name name.now) self.now.policies }
    {
        self.policy(name).is_some()
    }
}

impl TryCopy for TableDefinition {
    fn try_copy(&self, alloc: Global) -> Result<TableDefinition, AllocError> {
        let parts = self.parts.try_copy(alloc)?;
        let grants = self.grants.try_copy(alloc)?;
        Ok(TableDefinition { parts, grants })
    }
}

/// Whether each of the privilege descriptors is for this table.
fn descriptors_name(descriptors: &[Descriptor], table: &Name) -> bool
    ensures { result ≡ list_all (λ d. bytes_eq d.table table.now) descriptors.now }
{
    descriptors
        .iter()
        .all(|descriptor| descriptor.table == *table)
}

/// Whether each of the policies is of this table.
fn policies_name(policies: &[CataloguePolicy], table: &Name) -> bool
    ensures { result ≡ list_all (λ p. bytes_eq p.policy.table table.now) policies.now }
{
    policies.iter().all(|policy| policy.policy.table == *table)
}

fn both(one: bool, other: bool) -> bool
    ensures { result ≡ (one && other) }
{
    one && other
}
