//! Laws of tables on which a tenant has no privilege, over two stores.

ghost use Rattle.database_laws.specs.HiddenRuns.{IsException};
ghost use Rattle.privilege_laws.specs.Related.{NothingTells};
ghost use Rattle.privilege_laws.specs.Shown.{shown_to};
ghost use Rattle.store_privilege_laws.specs.MoreOverStores.{stores_tell_but_hidden_columns, hidden_columns_part_no_stores, NotesOverStores, PayOverStores};
ghost use Rattle.privilege_laws.specs.Reached.{reached_by};
ghost use Rattle.store_privilege_laws.specs.RelatedStores.{StoresTellRelated, StoresPartWhereTold, StoresPartBehindOthers};
ghost use Rattle.store_privilege_laws.specs.PlansOverStores.{StoresTellNothing, StoresPartAtPlans};

use database_laws::runs::{Reader, Stopping};

/// `unreached_tables_tell_nothing` of `privilege_laws` over two stores, each with stops of its own. The databases
/// differ in rows of tables that the tenant does not reach, and others do what they will in such tables. If the tenant
/// asks both the same in the same order, both answer it the same, up to the first own write or opening that parts
/// them for what others hold or have open (55P03, 53300), or set role that is none of its own. It ends at the first
/// own event, too, that one of the stores refuses in place of the machine and the other does not refuse alike, and
/// at the first failure of a device under an event of another.
pub fn unreached_tables_tell_nothing_over_stores<R: Reader, S: Stopping, T: Stopping>()
    ensures { StoresTellRelated reached_by NothingTells R.Reads S.Leave T.Leave }
{}

/// What that forbids: two different answers to an own event that no store gives in place of the machine, alone or
/// behind an event of another, but where the machines, as this event left them, let it part.
pub fn unreached_tables_part_no_stores<R: Reader, S: Stopping, T: Stopping>()
    ensures own { StoresPartWhereTold reached_by NothingTells R.Reads S.Leave T.Leave }
    ensures behind { StoresPartBehindOthers reached_by NothingTells R.Reads S.Leave T.Leave }
{}

/// Two servers meet the premises, and two break the law. Over the first two another tenant's table differs. Over the
/// second two a membership gives the tenant SELECT on that table: they part at it.
pub fn memberships_part_stores()
    ensures alike { StoresTellNothing }
    ensures apart { StoresPartAtPlans }
{}

/// `tenants_are_told_what_is_shown` of `privilege_laws` over two stores: where policies hide rows of the tables that the
/// tenant reaches, too, up to the exceptions of hidden rows, and what ends the law over stores.
/// `tenants_are_told_but_hidden_columns` over two stores: where columns are hidden, up to a size that is refused over
/// one of them alone and the tenant's own definitions.
pub fn stores_tell_what_is_shown<R: Reader, S: Stopping, T: Stopping>()
    ensures rows { StoresTellRelated shown_to IsException R.Reads S.Leave T.Leave }
    ensures columns { stores_tell_but_hidden_columns R.Reads S.Leave T.Leave }
{}

/// What that forbids: two different answers to an own event that no store gives in place of the machine, but where the
/// machines let it part.
pub fn what_is_hidden_parts_no_stores<R: Reader, S: Stopping, T: Stopping>()
    ensures rows { StoresPartWhereTold shown_to IsException R.Reads S.Leave T.Leave }
    ensures columns { hidden_columns_part_no_stores R.Reads S.Leave T.Leave }
{}

/// Of each kind two servers meet the premises, and two break the law: where the tenant's own rows differ, and where a
/// policy names the column.
pub fn own_rows_and_policies_part_stores()
    ensures rows { NotesOverStores }
    ensures columns { PayOverStores }
{}
