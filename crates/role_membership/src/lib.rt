//! Which roles a role is in, and what GRANT and REVOKE of roles leave of the memberships (SQL:2016 Foundation, "Roles";
//! PostgreSQL manual, "Role Membership").
#![tactic(auto)]

mod chains;
mod checks;
mod granting;
mod marked;
mod members;
mod memberships;
mod merge;
mod merging;
mod revoking;
mod role_set;

pub use checks::is_superuser;
pub use granting::grant_roles;
pub use members::{closure, is_member};
pub use memberships::{Memberships, memberships_rise};
pub use revoking::revoke_roles;
pub use role_set::RoleSet;
