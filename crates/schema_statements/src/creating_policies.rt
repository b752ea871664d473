//! CREATE POLICY (PostgreSQL manual, CREATE POLICY).

ghost use Rattle.std.specs.Prelude.{◌≡◌, ◌++◌, false, option_to_list, Ok, IfOk, IfErr, OnOk};
ghost use Rattle.std.specs.List.{list_any, AllByRecursion};
ghost use Rattle.sql_ast.specs.Read.{IsReadCreatePolicy};
ghost use Rattle.expr_parser.specs.Written.{IsAsWritten};
ghost use Rattle.store.specs.StatementError.{FailsForMemory};
ghost use Rattle.abstract_database.specs.Database.{is_policy_named};
ghost use Rattle.abstract_database.specs.Definitions.{policy_of};
ghost use Rattle.abstract_database.specs.Statements.{create_policy as creates_policy};
ghost use Rattle.catalogue.specs.Policies.{IsBoundPolicy};
ghost use Rattle.catalogue.specs.Tables.{table_scope};
ghost use Rattle.catalogue.specs.Executed.{Defines};
ghost use Rattle.catalogue_changes.specs.Carried.{IsCurrent};
ghost use Rattle.schema_statements.specs.Refusing.{IsRightRefusal};
ghost use Rattle.schema_statements.specs.PolicyChecks.{may_create};

use crate::grantees::are_roles;
use crate::new_policy::bound_policy;
use crate::owners::acts_as_owner;
use crate::policy_limits::keeps_limits;
use crate::policy_tables::with_policy;
use catalogue::change::SchemaChange;
use catalogue::definitions::Catalogue;
use catalogue::effect::Effect;
use catalogue::policy::CataloguePolicy;
use catalogue::table::TableDefinition;
use catalogue_changes::{defined, push_table_put};
use sql_ast::statement::CreatePolicy;
use sql_types::name::Name;
use sql_types::state::{Refusal, SqlState};
use sql_types::tag::Tag;
use std::alloc::Global;
use store::{Batch, StatementError};

/// Carries out CREATE POLICY, as the parser reads it and its conditions are written, for the current
/// role: it puts the table with the policy too, among the others by name. Where nothing else is written
/// the policy is permissive, for every command and for every role.
///
/// It is refused with `UndefinedTable` where no table has the name; with `UndefinedObject` where a name
/// after TO is no role's; with `DuplicateObject` where the table has a policy of this name; with
/// `UndefinedColumn` where a condition names a column that the table does not have, or a column of
/// another table; with `DatatypeMismatch` where a condition has no type or another one than BOOLEAN;
/// with `InsufficientPrivilege` where the current role is neither a superuser nor in the owner; with
/// `ProgramLimitExceeded` where the policy is for more than 255 roles or takes more than 1,200 bytes.
/// It fails for memory alone.
pub fn create_policy(
    alloc: Global,
    catalogue: &Catalogue,
    current: &Name,
    statement: &CreatePolicy,
) -> Result<Effect, StatementError>
    ensures memory { IfErr result FailsForMemory }
    ensures executes { IsReadCreatePolicy statement.now
        → AllByRecursion IsAsWritten
        (option_to_list statement.now.using ++ option_to_list statement.now.check)
        → Defines (IsCurrent current.now)
        (λ db users. creates_policy db users statement.now) catalogue.now result }
{
    let Some(old) = catalogue.table(&statement.table) else {
        return Err(StatementError::Refused(SqlState::UndefinedTable));
    };
    let policy = checked_policy(alloc, catalogue, current, old, statement)?;
    let table = with_policy(alloc, old, policy)?;
    let mut changes = Batch::new(alloc);
    push_table_put(alloc, catalogue, &table, &mut changes)?;
    let change = SchemaChange::PutTable(table);
    Ok(defined(Tag::CreatePolicy, None, changes, change))
}

// The new policy of a table, with its conditions bound to the columns. It is refused as
// `create_policy` is, but for `UndefinedTable`.
fn checked_policy(
    alloc: Global,
    catalogue: &Catalogue,
    current: &Name,
    table: &TableDefinition,
    statement: &CreatePolicy,
) -> Result<CataloguePolicy, Refusal>
    requires { table.now.definition.name ≡ statement.now.table }
    ensures policy { IfOk result (λ new. new.policy ≡ policy_of statement.now) }
    ensures bound { IfOk result (IsBoundPolicy (table_scope table.now.definition)) }
    ensures new { OnOk result (list_any
        (is_policy_named statement.now.table statement.now.policy) table.now.policies ≡ false) }
    ensures allowed { OnOk result
        (may_create catalogue.now current.now table.now statement.now ≡ Ok tt) }
    ensures refused { IfErr result (λ refusal. IsRightRefusal refusal
        (may_create catalogue.now current.now table.now statement.now)) }
{
    if !are_roles(catalogue, &statement.grantees) {
        return Err(Refusal(SqlState::UndefinedObject));
    }
    if table.has_policy(&statement.policy) {
        return Err(Refusal(SqlState::DuplicateObject));
    }
    let bound = bound_policy(alloc, table, statement)?;
    if !acts_as_owner(alloc, catalogue, current, table.owner())? {
        return Err(Refusal(SqlState::InsufficientPrivilege));
    }
    if !keeps_limits(&bound.policy) {
        return Err(Refusal(SqlState::ProgramLimitExceeded));
    }
    Ok(bound)
}
