//! Policies that are those of a whole database (PostgreSQL manual, CREATE POLICY).

ghost use Rattle.std.specs.Prelude.{◌≡◌, ◌↔◌, ◌≤◌, IsTrue, length};
ghost use Rattle.std.specs.List.{list_all};
ghost use Rattle.sql_ast.specs.Read.{HasClauses};
ghost use Rattle.abstract_database.specs.Lists.{Rising, name_cmp};
ghost use Rattle.abstract_database.specs.Whole.{Each, ConcernsRoles, ArePolicyRoles};
ghost use Rattle.catalogue_loading.specs.ValidityChecks.{is_role_of};
ghost use Rattle.catalogue_loading.specs.ValidityParts.{IsPolicy};

use crate::name_checks::{know_name, know_text};
use catalogue::definitions::Catalogue;
use catalogue::policy::CataloguePolicy;
use catalogue::table::TableDefinition;
use sql_ast::policy::{Policy, PolicyCommand, PolicyRoles};
use sql_ast::privilege::Action;
use sql_types::name::Name;

// The most roles of a policy.
const MAX_POLICY_ROLES: usize = 255;

/// Whether names stand in rising order, none of them twice.
fn names_rise(names: &[Name]) -> bool
    ensures { IsTrue result ↔ Rising name_cmp names.now }
{
    names.is_sorted_by(|left, right| left.as_str().cmp(right.as_str()).is_lt())
}

fn are_roles(catalogue: &Catalogue, names: &[Name]) -> bool
    ensures { result ≡ list_all (is_role_of catalogue.now.roles) names.now }
{
    names.iter().all(|name| catalogue.has_role(name))
}

/// Whether names are 1 to 255 of roles, in rising order.
fn are_policy_roles(catalogue: &Catalogue, names: &[Name]) -> bool
    ensures { IsTrue result ↔ ArePolicyRoles catalogue.now.roles names.now }
{
    if names.is_empty() {
        return false;
    }
    if names.len() > MAX_POLICY_ROLES {
        return false;
    }
    if !are_roles(catalogue, names) {
        return false;
    }
    names_rise(names)
}

/// Whether a policy is for PUBLIC or for roles.
fn concerns_roles(catalogue: &Catalogue, roles: &PolicyRoles) -> bool
    ensures { IsTrue result ↔ ConcernsRoles catalogue.now.roles roles.now }
{
    match roles {
        PolicyRoles::Public => true,
        PolicyRoles::Only(names) => are_policy_roles(catalogue, names.as_slice()),
    }
}

/// Whether a policy has the clauses that its command takes: WITH CHECK alone for INSERT, USING alone
/// for SELECT and DELETE, and USING for each other.
fn has_clauses(policy: &Policy) -> bool
    ensures { IsTrue result ↔ HasClauses policy.now.command policy.now.using policy.now.check }
{
    let using = policy.using.is_some();
    let check = policy.check.is_some();
    match policy.command {
        PolicyCommand::Only(Action::Insert) => !using && check,
        PolicyCommand::Only(Action::Select) | PolicyCommand::Only(Action::Delete) => {
            using && !check
        }
        PolicyCommand::Only(Action::Update) | PolicyCommand::All => using,
    }
}

/// Whether a policy is for roles and has the clauses that its command takes.
fn is_policy(catalogue: &Catalogue, policy: &Policy) -> bool
    ensures { IsTrue result ↔ IsPolicy catalogue.now.roles policy.now }
{
    // For the proof: a name is text, and has no zero byte.
    know_name(&policy.name);
    // For the proof: a text has no zero byte.
    know_text(&policy.using);
    // For the proof: a text has no zero byte.
    know_text(&policy.check);
    concerns_roles(catalogue, &policy.roles) && has_clauses(policy)
}

/// Whether the policies of a table are.
pub(crate) fn are_policies(catalogue: &Catalogue, policies: &[CataloguePolicy]) -> bool
    ensures { IsTrue result ↔ Each (λ p. IsPolicy catalogue.now.roles p.policy) policies.now }
{
    for policy in policies {
        if !is_policy(catalogue, &policy.policy) {
            return false;
        }
    }
    true
}
