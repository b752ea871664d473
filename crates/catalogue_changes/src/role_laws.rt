//! Laws of the changes of roles and memberships.
ghost use Rattle.std.specs.Prelude.{List};
ghost use Rattle.sql_ast.specs.declared.role.Role.{Role};
ghost use Rattle.sql_ast.specs.declared.role.Membership.{Membership};
ghost use Rattle.abstract_database.specs.Lists.{TheName};
ghost use Rattle.catalogue.specs.declared.change.SchemaChange.TheVariants as change;
ghost use Rattle.catalogue_changes.specs.SchemaChanges.{Leads};

/// The changes of CREATE ROLE lead to the database with the role.
pub fn roles_are_put()
    ensures { (r : Role) → Leads (change.PutRole r) }
{}

/// The changes of DROP ROLE lead to the database without the role and its memberships.
pub fn roles_are_dropped()
    ensures { (name : TheName) → Leads (change.DropRole name) }
{}

/// The changes of GRANT and REVOKE of roles lead to the database with the memberships after them.
pub fn memberships_are_set()
    ensures { (ms : List Membership) → Leads (change.SetMemberships ms) }
{}
