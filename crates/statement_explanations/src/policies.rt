//! The policies that apply to a statement.

ghost use Rattle.std.specs.Prelude.{◌≡◌, ◌&&◌, ◌++◌, map, IfOk, OnOk};
ghost use Rattle.std.specs.Option.{option_copied};
ghost use Rattle.expressions.specs.Rows.{names_of};
ghost use Rattle.key_ranges.specs.BoxCode.{role_names};
ghost use Rattle.policy_composer.specs.Formulas.{applies as apply, bound_condition};
ghost use Rattle.policy_composer.specs.declared.policies.GuardedRows.TheVariants as rows;
ghost use Rattle.statement_explanations.specs.Explanations.{existing_bounding, guarded_policies, new_bounding, policies_asked, policies_explained, policies_of, policies_told, policy_bounding, policy_told, same_kind};

use crate::conditions::bounding_of;
use crate::explanation::{Bounding, PolicyExplanation};
use catalogue::policy::CataloguePolicy;
use catalogue::table::TableDefinition;
use expressions::eval::Users;
use expressions::infallible::is_infallible;
use expressions::types::Typed;
use policy_composer::applies;
use role_membership::RoleSet;
use sql_ast::policy::PolicyKind;
use sql_ast::privilege::Action;
use sql_types::items::Items;
use std::alloc::{AllocError, Global};

/// Of which table, and for whom, policies are told.
#[derive(Clone, Copy)]
pub(crate) struct PolicySearch<'a> {
    pub(crate) alloc: Global,
    pub(crate) table: &'a TableDefinition,
    /// The roles that the current role is in.
    pub(crate) roles: &'a RoleSet<'a>,
    pub(crate) users: &'a Users<'a>,
}

impl<'a> PolicySearch<'a> {
    /// The policies that apply to an action, and then those that apply to SELECT where the statement
    /// reads too, of a table that row security guards.
    pub(crate) fn explain(
        &self,
        policies: &'a [CataloguePolicy],
        is_guarded: bool,
        action: Action,
        reads: bool,
    ) -> Result<Items<PolicyExplanation<'a>>, AllocError>
        ensures { IfOk result (λ told. map policy_told told ≡ guarded_policies is_guarded
            (policies_explained self.now.table.now.id self.now.table.now.definition.layout
            (names_of self.now.users.now) (role_names self.now.users.now) self.now.roles.now action reads
            policies.now)) }
    {
        let mut told = Items::new(self.alloc);
        if !is_guarded {
            return Ok(told);
        }
        self.push_asked(&mut told, policies, action)?;
        if reads {
            self.push_asked(&mut told, policies, Action::Select)?;
        }
        Ok(told)
    }

    // Appends the policies that apply to an action, permissive ones first.
    fn push_asked(
        &self,
        told: &mut Items<PolicyExplanation<'a>>,
        policies: &'a [CataloguePolicy],
        action: Action,
    ) -> Result<(), AllocError>
        ensures { OnOk result (map policy_told told.new ≡ map policy_told told.old
            ++ policies_told self.now.table.now.id self.now.table.now.definition.layout
            (names_of self.now.users.now) (role_names self.now.users.now) action
            (policies_asked self.now.roles.now action policies.now)) }
    {
        self.push_kind(told, policies, action, PolicyKind::Permissive)?;
        self.push_kind(told, policies, action, PolicyKind::Restrictive)
    }

    // Appends the policies of a kind that apply to an action.
    fn push_kind(
        &self,
        told: &mut Items<PolicyExplanation<'a>>,
        policies: &'a [CataloguePolicy],
        action: Action,
        kind: PolicyKind,
    ) -> Result<(), AllocError>
        ensures { OnOk result (map policy_told told.new ≡ map policy_told told.old
            ++ policies_told self.now.table.now.id self.now.table.now.definition.layout
            (names_of self.now.users.now) (role_names self.now.users.now) action
            (policies_of self.now.roles.now action kind policies.now)) }
    {
        for policy in policies {
            if self.is_asked(policy, action, kind) {
                let bounding = self.bounding(policy, action)?;
                told.push(PolicyExplanation {
                    policy,
                    action,
                    bounding,
                })?;
            }
        }
        Ok(())
    }

    // Whether a policy is of a kind and applies to an action.
    fn is_asked(&self, policy: &CataloguePolicy, action: Action, kind: PolicyKind) -> bool
        ensures { result ≡ (apply self.now.roles.now action policy.now.policy && same_kind kind policy.now.policy.kind) }
    {
        applies(&policy.policy, self.roles, action) && same_kind(kind, policy.policy.kind)
    }

    // What the condition of a policy that is asked for an action does for the keys of its table.
    fn bounding(&self, policy: &CataloguePolicy, action: Action) -> Result<Bounding, AllocError>
        ensures { IfOk result (λ found. found ≡ policy_bounding self.now.table.now.id self.now.table.now.definition.layout
            (names_of self.now.users.now) (role_names self.now.users.now) action policy.now) }
    {
        match action {
            Action::Insert => Ok(new_bounding(new_condition(policy))),
            Action::Select | Action::Update | Action::Delete => {
                self.existing_bounding(policy.using.as_ref())
            }
        }
    }

    // What the condition of existing rows does for the keys of the table.
    fn existing_bounding(&self, condition: Option<&Typed>) -> Result<Bounding, AllocError>
        ensures { IfOk result (λ found. found ≡ existing_bounding self.now.table.now.id self.now.table.now.definition.layout
            (names_of self.now.users.now) (role_names self.now.users.now) (option_copied condition.entry)) }
    {
        match condition {
            None => Ok(Bounding {
                bounds: false,
                may_fail: false,
            }),
            Some(condition) => bounding_of(self.alloc, self.table, 0, condition, self.users),
        }
    }
}

// The condition that a policy has for new rows: WITH CHECK, or USING where that is missing.
fn new_condition(policy: &CataloguePolicy) -> Option<&Typed>
    ensures { option_copied result ≡ bound_condition rows.New policy.now }
{
    match policy.check.as_ref() {
        Some(check) => Some(check),
        None => policy.using.as_ref(),
    }
}

// What the condition of new rows does for keys: it bounds nothing.
fn new_bounding(condition: Option<&Typed>) -> Bounding
    ensures { result ≡ new_bounding (option_copied condition.entry) }
{
    match condition {
        None => Bounding {
            bounds: false,
            may_fail: false,
        },
        Some(condition) => Bounding {
            bounds: false,
            may_fail: !is_infallible(condition),
        },
    }
}

fn same_kind(kind: PolicyKind, other: PolicyKind) -> bool
    ensures { result ≡ same_kind kind other }
{
    match (kind, other) {
        (PolicyKind::Permissive, PolicyKind::Permissive) => true,
        (PolicyKind::Restrictive, PolicyKind::Restrictive) => true,
        _ => false,
    }
}
