//! The policy that CREATE POLICY makes, and its conditions (PostgreSQL manual, CREATE POLICY).

ghost use Rattle.std.specs.Prelude.{◌≡◌, ◌++◌, map, Ok, IfOk, IfErr, OnOk};
ghost use Rattle.sql_ast.specs.Scope.{tables_of};
ghost use Rattle.expressions.specs.Parts.{part_of};
ghost use Rattle.abstract_database.specs.Checks.{policy_parts};
ghost use Rattle.abstract_database.specs.Definitions.{policy_of as new_policy};
ghost use Rattle.catalogue.specs.Policies.{IsBoundPolicy};
ghost use Rattle.catalogue.specs.Tables.{table_scope};
ghost use Rattle.schema_statements.specs.Refusing.{IsRightRefusal};
ghost use Rattle.schema_statements.specs.PolicyChecks.{parts_over, are_conditions, Takes};

use crate::grantees::policy_roles;
use catalogue::policy::CataloguePolicy;
use catalogue::table::TableDefinition;
use expressions::parts::{Part, bind};
use expressions::types::Typed;
use sql_ast::columns::ColumnType;
use sql_ast::policy::{Policy, PolicyClause, PolicyCommand, PolicyKind};
use sql_ast::scope::{Scope, ScopeTable};
use sql_ast::statement::CreatePolicy;
use sql_types::state::Refusal;
use sql_types::try_copy::TryCopy;
use std::alloc::{AllocError, Global};

// The policy of a statement: permissive, for every command and for every role where nothing else is
// written.
fn policy_of(alloc: Global, statement: &CreatePolicy) -> Result<Policy, AllocError>
    ensures { IfOk result (λ policy. policy ≡ new_policy statement.now) }
{
    let table = statement.table.try_copy(alloc)?;
    let name = statement.policy.try_copy(alloc)?;
    let roles = policy_roles(alloc, &statement.grantees)?;
    let using = statement.using.try_copy(alloc)?;
    let check = statement.check.try_copy(alloc)?;
    Ok(Policy {
        table,
        name,
        kind: statement.kind.unwrap_or(PolicyKind::Permissive),
        command: statement.command.unwrap_or(PolicyCommand::All),
        roles,
        using,
        check,
    })
}

/// The policy of a statement with its conditions bound, which are BOOLEAN expressions over the columns
/// of a table: the names of both are resolved, and then the types of both are checked. It is refused
/// as by [`bind`].
pub(crate) fn bound_policy(
    alloc: Global,
    table: &TableDefinition,
    statement: &CreatePolicy,
) -> Result<CataloguePolicy, Refusal>
    ensures policy { IfOk result (λ bound. bound.policy ≡ new_policy statement.now) }
    ensures bound { IfOk result (IsBoundPolicy (table_scope table.now.definition)) }
    ensures allowed { OnOk result
        (are_conditions (policy_parts table.now.definition statement.now) ≡ Ok tt) }
    ensures refused { IfErr result (λ refusal. IsRightRefusal refusal
        (are_conditions (policy_parts table.now.definition statement.now))) }
{
    let tables = [ScopeTable {
        name: table.name(),
        columns: table.columns(),
    }];
    let scope = Scope { tables: &tables };
    let mut parts = Vec::new(alloc);
    add_condition(&mut parts, &scope, &statement.using)?;
    add_condition(&mut parts, &scope, &statement.check)?;
    let mut bound = bind(alloc, parts.as_slice())?.into_vec();
    let using = take_condition(&statement.using, &mut bound);
    let check = take_condition(&statement.check, &mut bound);
    let policy = policy_of(alloc, statement)?;
    Ok(CataloguePolicy {
        policy,
        using,
        check,
    })
}

// Adds what may be a condition.
fn add_condition<'e, 's>(
    parts: &mut Vec<Part<'e, 's>>,
    scope: &Scope<'s>,
    clause: &'e Option<PolicyClause>,
) -> Result<(), AllocError>
    ensures { OnOk result (map part_of parts.new.items
        ≡ map part_of parts.old.items ++ parts_over (tables_of scope.now) clause.now) }
{
    match clause {
        None => Ok(()),
        Some(clause) => {
            parts.push(Part {
                expression: &clause.expression,
                scope: *scope,
                expected: Some(ColumnType::Boolean),
            })?;
            Ok(())
        }
    }
}

// Takes off the first of what was bound, where there is a condition.
fn take_condition(clause: &Option<PolicyClause>, bound: &mut Vec<Typed>) -> Option<Typed>
    ensures { Takes clause.now bound.old.items bound.new.items result }
{
    match clause {
        Some(_) if !bound.is_empty() => Some(bound.remove(0)),
        _ => None,
    }
}
