//! Laws of who may define what, and of the roles that statements are executed for.

ghost use Rattle.database_laws.specs.Definitions.{definers_may_define, who_may_define_does};
ghost use Rattle.database_laws.specs.Rights.{executed_for_roles, set_roles_are_allowed, roles_are_set, roles_are_reset};

/// Roles are defined by superusers, memberships given and taken by superusers and by those who have
/// the admin option, tables and their policies changed by those who act as the owner, privileges
/// given and taken by those who have some. None of these is refused with 42501 (PostgreSQL manual,
/// GRANT, REVOKE, CREATE POLICY).
pub fn definitions_need_rights()
    ensures only { definers_may_define }
    ensures not_refused { who_may_define_does }
{}

/// A statement is executed for a login role that there is, and for a set role that there is and
/// that the login role is in, or as a superuser may set (PostgreSQL manual, SET ROLE).
pub fn roles_are_allowed()
    ensures executed { executed_for_roles }
    ensures set { set_roles_are_allowed }
{}

/// SET ROLE sets its role, SET ROLE NONE and RESET ROLE the login role, and nothing else changes
/// (PostgreSQL manual, SET ROLE).
pub fn roles_are_set_and_reset()
    ensures set { roles_are_set }
    ensures reset { roles_are_reset }
{}
