//! Laws of a tenant whose clients have other numbers in each run.

ghost use Rattle.client_laws.specs.Clients.{what_clients_are_told, places_change_no_answer, patterns_determine_clients_answers, what_stores_tell_clients, own_clients_have_places};
ghost use Rattle.client_laws.specs.TwoRuns.{TwoRunsMeetThePremises, ClientsPartAtSelect};
ghost use Rattle.client_laws.specs.StoresApart.{RunsOverStoresMeetThePremises, StoresPartAtSelect, BytesPartAtSelect};

use database_laws::runs::{Reader, Stopping};

/// Take two machines with many clients each, and a tenant. Its clients have other numbers in each run, since
/// others came before them; each is given one place, the same in both runs, and no two clients of a run have one.
/// The databases may differ in rows that policies hide from all pairs of users as which the tenant acts, and others
/// do what they will out of its sight. If the tenant does the same in both runs, in one order over all of its
/// clients, it is told alike up to the first exception of `tenants_are_told_what_they_see` of `database_laws`.
///
/// `answers`: by its place a client gets what it gets by its number. `patterns`: where 23505, 55P03 and 53300 come
/// at the same places, all answers to the tenant's clients are the same.
pub fn clients_are_told_what_they_see()
    ensures runs { what_clients_are_told }
    ensures answers { places_change_no_answer }
    ensures patterns { patterns_determine_clients_answers }
{}

/// The same of two servers, each over a store of its own, with stops of its own: as
/// `stores_tell_tenants_what_they_see` of `database_laws`.
pub fn stores_tell_clients_what_they_see<R: Reader, S: Stopping, T: Stopping>()
    ensures { what_stores_tell_clients R.Reads S.Leave T.Leave }
{}

/// Whatever clients a tenant has in a run, and by what names it knows them, no two by one name: a place for each
/// client is found, where the tenant's are at even places, by their names, and all others are at odd ones.
pub fn own_clients_have_places()
    ensures { own_clients_have_places }
{}

/// Two runs meet the premises of `clients_are_told_what_they_see`, and two break the law. In the first two a tenant
/// has two clients, one with a block that writes, and another tenant has two; all log in as one role that sets the
/// role of its tenant. The first run knows the tenant's clients by 0 and 2, the second by 5 and 4, and the other
/// tenant's rows and events differ. Over the second two the tenant's own rows differ: they part at a SELECT.
pub fn clients_have_other_numbers_in_each_run()
    ensures alike { TwoRunsMeetThePremises }
    ensures apart { ClientsPartAtSelect }
{}

/// Over stores, too, two runs meet the premises, and two break the laws: those of `stores_tell_clients_what_they_see`, and of
/// `clients_get_the_same_bytes`. In the first two each of two tenants has two clients. All log in as one role, and set the
/// role of their tenant; one begins a block and writes in it. Each client of the one tenant gets the same bytes to the end.
/// Over the second two the tenant's own rows differ: they part at a SELECT.
pub fn clients_of_stores_part_at_a_select()
    ensures alike { RunsOverStoresMeetThePremises }
    ensures apart { StoresPartAtSelect }
    ensures bytes { BytesPartAtSelect }
{}
