//! Laws of the statements on roles and memberships: what each makes is a change.
ghost use Rattle.std.specs.Prelude.{◌≡◌, List, Ok};
ghost use Rattle.sql_ast.specs.declared.role.Membership.{Membership};
ghost use Rattle.sql_ast.specs.declared.statement.CreateRole.{CreateRole};
ghost use Rattle.sql_ast.specs.declared.statement.DropRole.{DropRole};
ghost use Rattle.sql_ast.specs.declared.statement.GrantRole.{GrantRole};
ghost use Rattle.sql_ast.specs.declared.statement.RevokeRole.{RevokeRole};
ghost use Rattle.expressions.specs.Meaning.{UserNames};
ghost use Rattle.abstract_database.specs.Database.{Database};
ghost use Rattle.abstract_database.specs.Roles.{without_memberships};
ghost use Rattle.abstract_database.specs.Checks.{checked_grant_role};
ghost use Rattle.abstract_database.specs.Statements.{create_role, drop_role, grant_role, revoke_role};
ghost use Rattle.stored_database.specs.Definitions.{Definitions};
ghost use Rattle.stored_database.specs.Valid.{Describes};
ghost use Rattle.catalogue.specs.declared.change.SchemaChange.TheVariants as change;
ghost use Rattle.catalogue_changes.specs.StatementChanges.{IsDoneBy, role_by};

/// CREATE ROLE puts its role, and DROP ROLE drops its own.
pub fn roles_come_and_go_by_changes()
    ensures created { (d : Definitions) (db : Database) (users : UserNames) (s : CreateRole)
        → IsDoneBy (change.PutRole (role_by s)) d db (create_role db users s) }
    ensures dropped { (d : Definitions) (db : Database) (users : UserNames) (s : DropRole)
        → IsDoneBy (change.DropRole s.role) d db (drop_role db users s) }
{}

/// GRANT of roles sets the memberships that its checks give, and REVOKE of roles those that it
/// leaves.
pub fn memberships_come_and_go_by_changes()
    ensures granted { (d : Definitions) (db : Database) (users : UserNames) (s : GrantRole)
        (ms : List Membership) → checked_grant_role db users s ≡ Ok ms
        → IsDoneBy (change.SetMemberships ms) d db (grant_role db users s) }
    ensures revoked { (d : Definitions) (db : Database) (users : UserNames) (s : RevokeRole)
        → Describes d db → IsDoneBy (change.SetMemberships
        (without_memberships s.admin_option_for s.roles s.members d.memberships)) d db
        (revoke_role db users s) }
{}
