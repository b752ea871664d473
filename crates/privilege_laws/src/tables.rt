//! Laws of tables on which a tenant has no privilege.

ghost use Rattle.privilege_laws.specs.Reached.{unreached_tables_tell_nothing, runs_beside_unreached_tables, crowds_tell_all, other_tables_are_out_of_sight, parts_beside_unreached_tables, parts_behind_others};
ghost use Rattle.privilege_laws.specs.Shown.{reached_rows_are_shown, apparent_rows_are_shown, reached_machines_are_shown, alike_machines_are_shown, runs_over_shown_rows, parts_over_shown_rows, patterns_tell_all_that_is_shown};
ghost use Rattle.privilege_laws.specs.TwoOwners.{PlansTellNothing, PlansTellStaff, BothAreHidden};

/// A tenant reaches a table where one of the roles that it acts as, or a role that such a role is in, has a
/// privilege on it or on one of its columns, by itself, by a membership or as PUBLIC; a superuser reaches each.
/// Take two machines over databases of the same definitions, with the same rows in each table that the tenant
/// reaches. Each event of its own is answered the same by both, and leaves them so again, without exception:
/// statements over rows, definitions, GRANT and REVOKE of privileges and of roles, blocks, openings and closes.
/// It sets its own roles alone, and what others hold or have open is the same: the writer lock, and whether
/// there is room for a session.
///
/// So it is in two runs in which others do what they will, as long as what is committed keeps its definitions
/// and the rows of the tables that the tenant reaches. Where others hold the writer lock or have sessions open
/// in one of them alone, an own write or opening may part them (55P03, 53300), and so may a set role that is
/// none of the tenant's.
pub fn unreached_tables_tell_nothing()
    ensures event { unreached_tables_tell_nothing }
    ensures runs { runs_beside_unreached_tables }
{}

/// Where the tenant sets its own roles alone, and meets 55P03 and 53300 at the same places of both such runs,
/// all of its answers are the same, to the end.
pub fn crowds_tell_all_beside_unreached_tables()
    ensures { crowds_tell_all }
{}

/// A statement over rows of a table that the tenant does not reach leaves what it reaches, whoever makes it.
pub fn writes_to_unreached_tables_are_out_of_sight()
    ensures { other_tables_are_out_of_sight }
{}

/// What `unreached_tables_tell_nothing` forbids: two different answers to an own event, alone or behind an act
/// of another, but for the writer lock, for the sessions of its client or at a set role of others.
pub fn unreached_tables_part_nothing()
    ensures own { parts_beside_unreached_tables }
    ensures behind { parts_behind_others }
{}

/// Two machines meet the premises, and two break the law. The first two differ in a row of another tenant's
/// table; a tenant has two sessions in both, one of them in a block that has written. Over the second two a
/// membership gives it SELECT on that table: its SELECT is answered differently, so these are not related to it.
pub fn memberships_reach_tables()
    ensures alike { PlansTellNothing }
    ensures apart { PlansTellStaff }
{}

/// Privileges and policies together. Two databases show a tenant the same where in each table that it reaches
/// the same rows say something to each pair of users that it acts as (`tenants_are_told_what_they_see` of
/// `database_laws`); the rows of other tables may differ. Runs over such machines are told alike, up to the
/// exceptions of hidden rows. Where the tenant makes none that tells without a listed refusal, and meets these
/// at the same places, all of its answers are the same, to the end.
pub fn tenants_are_told_what_is_shown()
    ensures runs { runs_over_shown_rows }
    ensures parts { parts_over_shown_rows }
    ensures patterns { patterns_tell_all_that_is_shown }
{}

/// Databases and machines that differ in tables that the tenant does not reach show it the same, and so do those
/// that look alike to it.
pub fn privileges_and_policies_hide()
    ensures reached { reached_rows_are_shown }
    ensures apparent { apparent_rows_are_shown }
    ensures reached_machines { reached_machines_are_shown }
    ensures alike_machines { alike_machines_are_shown }
{}

/// Two machines that meet the premises of `tenants_are_told_what_is_shown` by both at once: rows that policies
/// hide differ, and so does a table that the tenant does not reach. Two that differ in its own rows break the law.
pub fn both_are_hidden_at_once()
    ensures { BothAreHidden }
{}
