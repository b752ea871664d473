//! The roles after TO (PostgreSQL manual, CREATE POLICY).

ghost use Rattle.std.specs.Prelude.{◌≡◌, [], fold, unwrap_or, IfOk};
ghost use Rattle.std.specs.List.{list_all};
ghost use Rattle.sql_ast.specs.declared.policy.PolicyRoles.TheVariants.{Only as only};
ghost use Rattle.abstract_database.specs.Database.{has_role};
ghost use Rattle.abstract_database.specs.Checks.{grantee_roles};
ghost use Rattle.abstract_database.specs.Definitions.{policy_roles as roles_of, with_grantee};
ghost use Rattle.stored_database.specs.Definitions.{database_of};

use crate::policy_names::put_name;
use catalogue::definitions::Catalogue;
use sql_ast::policy::PolicyRoles;
use sql_ast::privilege::Grantee;
use sql_types::items::Items;
use sql_types::try_copy::TryCopy;
use std::alloc::{AllocError, Global};

/// Whether each grantee that is not PUBLIC is a role of the catalogue.
pub(crate) fn are_roles(catalogue: &Catalogue, grantees: &Option<Items<Grantee>>) -> bool
    ensures { result ≡ list_all (has_role (database_of catalogue.now))
        (grantee_roles (unwrap_or grantees.now [])) }
{
    match grantees {
        None => true,
        Some(grantees) => catalogue.knows_grantees(grantees.as_slice()),
    }
}

/// The roles of a new policy: those after TO in rising order, each once; every role where PUBLIC
/// stands among them or nothing is written.
pub(crate) fn policy_roles(
    alloc: Global,
    grantees: &Option<Items<Grantee>>,
) -> Result<PolicyRoles, AllocError>
    ensures { IfOk result (λ roles. roles ≡ roles_of grantees.now) }
{
    match grantees {
        None => Ok(PolicyRoles::Public),
        Some(grantees) => roles_among(alloc, grantees.as_slice()),
    }
}

fn roles_among(alloc: Global, grantees: &[Grantee]) -> Result<PolicyRoles, AllocError>
    ensures { IfOk result (λ roles. roles ≡ fold with_grantee (only []) grantees.now) }
{
    let mut names = Vec::new(alloc);
    for grantee in grantees {
        match grantee {
            Grantee::Public => return Ok(PolicyRoles::Public),
            Grantee::Role(name) => put_name(&mut names, name.try_copy(alloc)?)?,
        }
    }
    Ok(PolicyRoles::Only(Items::from_vec(names)))
}
