//! Policies with their conditions bound to the columns of their table.

ghost use Rattle.std.specs.Prelude.{◌≡◌, IfOk};
ghost use Rattle.sql_ast.specs.Scope.{tables_of};
ghost use Rattle.catalogue.specs.Policies.{scope_of, BindsClause, BindsOptional, BindsClauses, BindsPolicy};

use expressions::types::{Typed, check_types};
use sql_ast::columns::{ColumnType, Columns};
use sql_ast::policy::{Policy, PolicyClause};
use sql_ast::scope::{Scope, ScopeTable};
use sql_types::name::Name;
use sql_types::state::{Refusal, SqlState};
use sql_types::try_copy::TryCopy;
use std::alloc::{AllocError, Global};

/// A policy, and its conditions bound to the columns of its table: once, so that no statement that
/// reads rows has to bind them.
#[derive(Drop)]
pub struct CataloguePolicy {
    pub policy: Policy,
    /// The condition of USING, where there is one.
    pub using: Option<Typed>,
    /// The condition of WITH CHECK, where there is one.
    pub check: Option<Typed>,
}

impl TryCopy for CataloguePolicy {
    fn try_copy(&self, alloc: Global) -> Result<CataloguePolicy, AllocError> {
        let using = self.using.try_copy(alloc)?;
        let check = self.check.try_copy(alloc)?;
        let policy = self.policy.try_copy(alloc)?;
        Ok(CataloguePolicy {
            policy,
            using,
            check,
        })
    }
}

/// A policy with its conditions bound to the columns of a table, or `None` where one of them is not
/// a BOOLEAN expression over these columns.
pub fn bind_policy(
    alloc: Global,
    policy: Policy,
    table: &Name,
    columns: &Columns,
) -> Result<Option<CataloguePolicy>, AllocError>
    ensures { IfOk result (BindsPolicy (scope_of table.now columns.now) policy) }
{
    let tables = [ScopeTable {
        name: table,
        columns,
    }];
    let scope = Scope { tables: &tables };
    match bind_clauses(alloc, &policy, &scope)? {
        None => Ok(None),
        Some(bound) => Ok(Some(CataloguePolicy {
            policy,
            using: bound.using,
            check: bound.check,
        })),
    }
}

/// The clauses of a policy, bound.
#[derive(Drop)]
struct BoundClauses {
    using: Option<Typed>,
    check: Option<Typed>,
}

/// Both clauses of a policy, bound, or `None` where one of them is no condition.
fn bind_clauses(
    alloc: Global,
    policy: &Policy,
    scope: &Scope<'_>,
) -> Result<Option<BoundClauses>, AllocError>
    ensures { IfOk result (BindsClauses (tables_of scope.now) policy.now) }
{
    let Some(using) = bind_optional(alloc, &policy.using, scope)? else {
        return Ok(None);
    };
    let Some(check) = bind_optional(alloc, &policy.check, scope)? else {
        return Ok(None);
    };
    Ok(Some(BoundClauses { using, check }))
}

/// What may be a clause, bound, or `None` where it is no condition.
fn bind_optional(
    alloc: Global,
    clause: &Option<PolicyClause>,
    scope: &Scope<'_>,
) -> Result<Option<Option<Typed>>, AllocError>
    ensures { IfOk result (BindsOptional (tables_of scope.now) clause.now) }
{
    match clause {
        None => Ok(Some(None)),
        Some(clause) => match bind_clause(alloc, clause, scope)? {
            None => Ok(None),
            Some(typed) => Ok(Some(Some(typed))),
        },
    }
}

/// A clause, bound, or `None` where it is no condition.
fn bind_clause(
    alloc: Global,
    clause: &PolicyClause,
    scope: &Scope<'_>,
) -> Result<Option<Typed>, AllocError>
    ensures { IfOk result (BindsClause (tables_of scope.now) clause.now) }
{
    match check_types(alloc, &clause.expression, scope) {
        Ok(typed) => {
            if typed.fits(ColumnType::Boolean) {
                Ok(Some(typed))
            } else {
                Ok(None)
            }
        }
        Err(Refusal(SqlState::OutOfMemory)) => Err(AllocError),
        Err(_) => Ok(None),
    }
}
