//! The formulas of a table's policies.

ghost use Rattle.std.specs.Prelude.{◌≡◌, IfOk, OnOk};
ghost use Rattle.std.specs.Option.{option_copied};
ghost use Rattle.policy_composer.specs.Formulas.{IsFormulaOf, AreFormulasOf, AreExisting, AreNew, Adds};

use crate::policies::{GuardedRows, applies, condition};
use catalogue::policy::CataloguePolicy;
use expressions::types::Typed;
use guards::guard::Formula;
use role_membership::RoleSet;
use sql_ast::policy::PolicyKind;
use sql_ast::privilege::Action;
use sql_types::items::Items;
use std::alloc::{AllocError, Global};

/// Adds the condition of a policy, if it has one, behind those of its kind.
fn add<'a>(
    formula: &mut Formula<'a>,
    kind: PolicyKind,
    condition: Option<&'a Typed>,
) -> Result<(), AllocError>
    ensures { OnOk result (Adds kind (option_copied condition.entry) formula.old formula.new) }
{
    if let Some(condition) = condition {
        match kind {
            PolicyKind::Permissive => formula.permissive.push(condition)?,
            PolicyKind::Restrictive => formula.restrictive.push(condition)?,
        }
    }
    Ok(())
}

/// The formula of the policies that apply to an action of a role that is in these roles.
fn formula<'a>(
    alloc: Global,
    roles: &RoleSet<'_>,
    policies: &'a [CataloguePolicy],
    action: Action,
    rows: GuardedRows,
) -> Result<Formula<'a>, AllocError>
    ensures { IfOk result (IsFormulaOf roles.now action rows policies.now) }
{
    let mut formula = Formula {
        permissive: Items::new(alloc),
        restrictive: Items::new(alloc),
    };
    for policy in policies {
        if applies(&policy.policy, roles, action) {
            add(&mut formula, policy.policy.kind, condition(policy, rows))?;
        }
    }
    Ok(formula)
}

/// The formula of an action, and where SELECT is needed too that of SELECT behind it.
fn formulas<'a>(
    alloc: Global,
    roles: &RoleSet<'_>,
    policies: &'a [CataloguePolicy],
    action: Action,
    rows: GuardedRows,
    reads: bool,
) -> Result<Items<Formula<'a>>, AllocError>
    ensures { IfOk result (AreFormulasOf roles.now action rows reads policies.now) }
{
    let mut formulas = Items::new(alloc);
    formulas.push(formula(alloc, roles, policies, action, rows)?)?;
    if reads {
        let select = formula(
            alloc,
            roles,
            policies,
            Action::Select,
            GuardedRows::Existing,
        )?;
        formulas.push(select)?;
    }
    Ok(formulas)
}

/// The formulas that guard existing rows from an action, which may need SELECT too.
pub(crate) fn existing_formulas<'a>(
    alloc: Global,
    roles: &RoleSet<'_>,
    policies: &'a [CataloguePolicy],
    action: Action,
    reads: bool,
) -> Result<Items<Formula<'a>>, AllocError>
    ensures { IfOk result (AreExisting roles.now policies.now action reads) }
{
    let rows = GuardedRows::Existing;
    match action {
        Action::Select => formulas(alloc, roles, policies, action, rows, false),
        Action::Insert => Ok(Items::new(alloc)),
        Action::Update => formulas(alloc, roles, policies, action, rows, reads),
        Action::Delete => formulas(alloc, roles, policies, action, rows, reads),
    }
}

/// The formulas that new rows of an action must meet, which may need SELECT too.
pub(crate) fn new_formulas<'a>(
    alloc: Global,
    roles: &RoleSet<'_>,
    policies: &'a [CataloguePolicy],
    action: Action,
    reads: bool,
) -> Result<Items<Formula<'a>>, AllocError>
    ensures { IfOk result (AreNew roles.now policies.now action reads) }
{
    let rows = GuardedRows::New;
    match action {
        Action::Insert => formulas(alloc, roles, policies, action, rows, false),
        Action::Update => formulas(alloc, roles, policies, action, rows, reads),
        Action::Select => Ok(Items::new(alloc)),
        Action::Delete => Ok(Items::new(alloc)),
    }
}
