//! Laws of sessions: of refusals, of what one leaves of the others, and of the writer lock.

ghost use Rattle.database_laws.specs.Codes.{statements_have_codes_of_their_own, machines_need_no_store};
ghost use Rattle.database_laws.specs.OutOfSight.{unseen_by_others, unseen_by_all, unseen_events, apart_is_out_of_sight, tenants_are_out_of_sight};
ghost use Rattle.database_laws.specs.Told.{what_a_tenant_is_told, unseen_acts_are_out_of_sight};
ghost use Rattle.database_laws.specs.ToldApart.{machines_part_at_exceptions, machines_part_behind_others, one_refusal_parts_no_machines};
ghost use Rattle.database_laws.specs.TwoTenants.{MeetThePremises};
ghost use Rattle.database_laws.specs.Openings.{only_logins_open, logins_are_authorized};
ghost use Rattle.database_laws.specs.Sessions.{effects_are_no_refusals, other_sessions_stay, blocks_keep_their_role, only_the_holder_changes, others_see_the_committed, uncommitted_is_not_seen};

/// A session is opened only for a role that has LOGIN itself, superusers too, and such a role is never
/// refused with 28000 (PostgreSQL manual, CREATE ROLE).
pub fn sessions_are_for_logins()
    ensures only { only_logins_open }
    ensures authorized { logins_are_authorized }
{}

/// What a statement answers once it takes effect is no refusal.
pub fn effects_are_no_refusals()
    ensures { effects_are_no_refusals }
{}

/// A statement of the database is refused by itself neither for its block, its session, the writer lock
/// or a connection, nor for memory, space or the device: these codes come of the machine or of a store.
/// A machine that has not stopped refuses nothing for memory, space or the device, but a text that was
/// read as such a refusal.
pub fn statements_have_codes_of_their_own()
    ensures statements { statements_have_codes_of_their_own }
    ensures machines { machines_need_no_store }
{}

/// An event of one session leaves every other one: its roles, and its block. A statement leaves the
/// login role of its session, and the role that a ROLLBACK will bring back: the one that was set at
/// BEGIN (SQL:2016 Foundation, 4.41; PostgreSQL manual, SET ROLE).
pub fn sessions_stay_apart()
    ensures others { other_sessions_stay }
    ensures own { blocks_keep_their_role }
{}

/// One session at a time changes what will be committed, and the others see what is.
pub fn one_holder()
    ensures holder { only_the_holder_changes }
    ensures committed { others_see_the_committed }
    ensures unseen { uncommitted_is_not_seen }
{}

/// What a tenant is told goes by what it may see. A tenant is some sessions, and the pairs of users as
/// which they act: each a login role and a role that it sets. Take two machines that differ in rows which
/// policies hide from all of these pairs, in the sessions of others and in who of the others holds the
/// writer lock. The tenant's events are the same in two runs, one over each; events of others stand between
/// them, different ones in each run, and change what is committed out of the sight of all of the pairs.
/// Then the tenant's own events are answered the same, in blocks, over sessions that are closed and opened
/// again, and over restarts, up to the first exception: a key stands already over one of the machines; an
/// UPDATE or DELETE that reads no column passes its checks, and not all policies of its table for the set
/// role are FOR ALL without WITH CHECK; the tenant changes policies, row security or memberships; it is
/// refused a write for the writer lock that another session holds, or an opening beside 256 sessions of its
/// client, over one of the machines and not over the other; or it sets a role that is none of its pairs.
///
/// A statement over rows that the others may write only where they are silent for all of the pairs changes
/// what is committed out of their sight.
pub fn tenants_are_told_what_they_see()
    ensures told { what_a_tenant_is_told }
    ensures unseen { unseen_acts_are_out_of_sight }
{}

/// What `tenants_are_told_what_they_see` forbids: two different answers to an own event, alone or behind an act
/// of another, are told alike only at an exception of the machines as this act left them. Nor does the law end
/// where both refuse an own event with one code.
pub fn tenants_part_at_exceptions()
    ensures own { machines_part_at_exceptions }
    ensures behind { machines_part_behind_others }
    ensures alike { one_refusal_parts_no_machines }
{}

/// What others do out of sight looks as before: a statement over rows each of which its users may write
/// only where it is silent for others leaves a database that looks to these as it did. So an event of
/// another session, in a block or outside one, that makes no statement but such a one changes what is
/// committed only out of sight.
pub fn others_act_out_of_sight()
    ensures one { unseen_by_others }
    ensures all { unseen_by_all }
    ensures events { unseen_events }
{}

/// Tables of tenants: where each policy of a table that is for one of two roles is FOR ALL without WITH
/// CHECK, and no row passes for the one without a value that is not true for the other, what the one may
/// write is out of the sight of the other. So it is under the one policy `USING (tenant = current_user)`,
/// for each two roles that row security concerns.
pub fn tenants_act_out_of_sight()
    ensures apart { apart_is_out_of_sight }
    ensures tenants { tenants_are_out_of_sight }
{}

/// Databases meet the premises of these laws that differ in the rows of one tenant alone, over a table
/// `notes (tenant, k)` that all may read and change, with the policy `USING (tenant = current_user)`; both
/// are whole. So do machines over them in which another tenant's session is open, which is told its own
/// rows by both.
pub fn tenants_meet_the_premises()
    ensures { MeetThePremises }
{}
