//! How many roles of a database may do everything, or log in.
ghost use Rattle.std.specs.Prelude.{◌≡◌, count_by};
ghost use Rattle.sql_ast.specs.declared.role.Role.{Role};
ghost use Rattle.database_dumps.specs.Roles.{is_superuser_role, has_login};

use catalogue::definitions::Catalogue;

/// How many roles of a database are superusers, and how many may log in.
#[derive(Clone, Copy, Debug, PartialEq, Eq, Drop)]
pub struct RestoredRoles {
    pub superusers: u64,
    pub logins: u64,
}

/// How many roles of these definitions are superusers, and how many may log in.
pub(crate) fn count_roles(catalogue: &Catalogue) -> RestoredRoles
    ensures superusers { result.superusers ≡ count_by is_superuser_role catalogue.now.roles }
    ensures logins { result.logins ≡ count_by has_login catalogue.now.roles }
{
    let roles = catalogue.roles();
    let superusers = roles
        .iter()
        .filter(|role| role.attributes.superuser)
        .count();
    let logins = roles.iter().filter(|role| role.attributes.login).count();
    RestoredRoles {
        superusers: superusers as u64,
        logins: logins as u64,
    }
}
