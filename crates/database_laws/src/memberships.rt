//! Laws of what GRANT and REVOKE leave of the memberships of roles.

ghost use Rattle.database_laws.specs.Memberships.{grants_give_named_memberships, grants_give_all_memberships, grants_take_no_membership, revoke_takes_memberships, revoke_clears_options, revokes_change_memberships};

/// A GRANT of roles that is not refused gives the memberships of its roles and members, with the
/// admin option where it says so, and no other. It takes none, and no option (SQL:2016 Foundation,
/// 12.5; PostgreSQL manual, GRANT).
pub fn grant_gives_the_named_memberships()
    ensures nothing_else { grants_give_named_memberships }
    ensures all { grants_give_all_memberships }
    ensures nothing_taken { grants_take_no_membership }
{}

/// A REVOKE of roles that is not refused takes the memberships of its roles and members, and no
/// other. Of their admin option alone it keeps them without it, and touches no other (SQL:2016
/// Foundation, 12.7; PostgreSQL manual, REVOKE).
pub fn revoke_takes_the_named_memberships()
    ensures memberships { revoke_takes_memberships }
    ensures options { revoke_clears_options }
    ensures nothing_else { revokes_change_memberships }
{}
