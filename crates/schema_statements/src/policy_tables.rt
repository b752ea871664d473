//! A table with one policy more, or one less.

ghost use Rattle.std.specs.Prelude.{◌≡◌, false, IfOk};
ghost use Rattle.std.specs.List.{list_any};
ghost use Rattle.abstract_database.specs.Database.{is_policy_named};
ghost use Rattle.catalogue.specs.Policies.{IsBoundPolicy};
ghost use Rattle.catalogue.specs.Tables.{table_scope};
ghost use Rattle.catalogue_changes.specs.StatementChanges.{with_one_policy, without_one_policy};

use crate::policies::{drop_named, put_policy};
use catalogue::policy::CataloguePolicy;
use catalogue::table::TableDefinition;
use sql_types::items::Items;
use sql_types::name::Name;
use std::alloc::{AllocError, Global};

/// The table with one more policy, which has a name of its own.
pub(crate) fn with_policy(
    alloc: Global,
    table: &TableDefinition,
    policy: CataloguePolicy,
) -> Result<TableDefinition, AllocError>
    requires own { policy.policy.table ≡ table.now.definition.name }
    requires new { list_any
        (is_policy_named policy.policy.table policy.policy.name) table.now.policies ≡ false }
    requires bound { IsBoundPolicy (table_scope table.now.definition) policy }
    ensures { IfOk result (λ next. next ≡ with_one_policy policy.policy table.now) }
{
    let mut parts = table.copy_parts(alloc)?;
    let mut policies = parts.policies.into_vec();
    put_policy(&mut policies, policy)?;
    parts.policies = Items::from_vec(policies);
    table.with_parts(alloc, parts)
}

/// The table without the policy of this name.
pub(crate) fn without_policy(
    alloc: Global,
    table: &TableDefinition,
    name: &Name,
) -> Result<TableDefinition, AllocError>
    ensures { IfOk result (λ next. next ≡ without_one_policy name.now table.now) }
{
    let mut parts = table.copy_parts(alloc)?;
    let mut policies = parts.policies.into_vec();
    drop_named(&mut policies, name);
    parts.policies = Items::from_vec(policies);
    table.with_parts(alloc, parts)
}
