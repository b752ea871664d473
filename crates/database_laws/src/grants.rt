//! Laws of GRANT and REVOKE as statements.

ghost use Rattle.database_laws.specs.Privileges.{revoked_set_is_the_old};
ghost use Rattle.database_laws.specs.LeastGrantors.{holders_are_acting_grantors, acting_grantors_are_the_least};
ghost use Rattle.database_laws.specs.Grants.{acting_grantors_may_grant, owners_are_acting_grantors, grants_give_what_they_name, grants_give_all_they_name, grants_take_nothing, restrict_takes_the_named, cascade_leaves_the_supported, revokes_leave_the_supported, refused_for_dependents, grants_warn, revokes_warn, revoke_undoes_grant};

/// A privilege is granted by the owner of the table, or by one who holds a grant option for it
/// (SQL:2016 Foundation, 12.8).
pub fn grantors_may_grant()
    ensures may { acting_grantors_may_grant }
    ensures owner { owners_are_acting_grantors }
{}

/// Where several roles may be the acting grantor it is the role itself, and else the least in byte order
/// of those that it is in and that hold a grant option (PostgreSQL manual, GRANT: any of them).
pub fn grantors_are_the_least()
    ensures itself { holders_are_acting_grantors }
    ensures least { acting_grantors_are_the_least }
{}

/// GRANT gives just what it names: a descriptor for each action on the table or on a column, and each
/// grantee, by the acting grantor, or the option to one that was there. It takes nothing (SQL:2016
/// Foundation, 12.2).
pub fn grant_gives_what_it_names()
    ensures nothing_else { grants_give_what_they_name }
    ensures all { grants_give_all_they_name }
    ensures nothing_taken { grants_take_nothing }
{}

/// REVOKE takes just what it names, and where it names the table, what the same grantor granted on its
/// columns too: with RESTRICT nothing else, or it is refused with 2B000; with CASCADE also what nothing
/// supports any more (SQL:2016 Foundation, 12.7; PostgreSQL manual, REVOKE).
pub fn revoke_takes_what_it_names()
    ensures restrict { restrict_takes_the_named }
    ensures cascade { cascade_leaves_the_supported }
    ensures supported { revokes_leave_the_supported }
    ensures refused { refused_for_dependents }
{}

/// A REVOKE of what a GRANT just gave, by the same role, succeeds and leaves the database that was
/// there: where nothing that it takes was there before.
pub fn revoke_undoes_grant()
    ensures set { revoked_set_is_the_old }
    ensures database { revoke_undoes_grant }
{}

/// GRANT and REVOKE warn, with 01007 and 01006, just where a privilege that they name, on the table or
/// on a column, has no acting grantor, or with ALL none of them has one (SQL:2016 Foundation, 12.2 and
/// 12.7; PostgreSQL manual, GRANT).
pub fn what_is_left_out_warns()
    ensures grant { grants_warn }
    ensures revoke { revokes_warn }
{}
