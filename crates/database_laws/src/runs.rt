//! Laws of runs: of the machine, and of a server over a store.

ghost use Rattle.abstract_database.specs.Runs.{ReadingRelation, Stops};
ghost use Rattle.database_laws.specs.ToldApart.{stores_part_at_exceptions, stores_part_behind_others, one_refusal_parts_no_stores};
ghost use Rattle.database_laws.specs.ToldStores.{what_stores_tell_a_tenant, own_events_go_alike, others_go_unseen};
ghost use Rattle.database_laws.specs.StoreRuns.{long_texts_are_answered_for_their_length, full_machines_answer_openings, machines_answer_closes, commit_numbers_never_fall, stops_leave_what_was_answered};
ghost use Rattle.database_laws.specs.Runs.{one_transition, one_run, machine_runs_join, store_runs_join, stores_make_transitions, stores_run_the_machine, refusals_over_a_store};

/// What texts are read as.
pub trait Reader {
    ghost Reads: { ReadingRelation };
}

/// What a stop at a moment may leave.
pub trait Stopping {
    ghost Leave: { Stops };
}

/// Where a text is read as at most one statement, an event has one transition, and a list of
/// events one list of answers and one machine after it.
pub fn transitions_are_unique<R: Reader>()
    ensures event { one_transition R.Reads }
    ensures run { one_run R.Reads }
{}

/// A run, and then another from where it ended, are a run of all their events; and a run of all
/// is a run of the first events, and then one of the later.
pub fn runs_join<R: Reader, S: Stopping>()
    ensures machine { machine_runs_join R.Reads }
    ensures store { store_runs_join R.Reads S.Leave }
{}

/// A run over a store is a run of the machine, where no answer is a refusal for memory, space, a
/// commit number or the device. A refusal is the machine's own, which fails an open block; or it
/// is for memory, space or a commit number, and the statement counts as not issued; or the device
/// failed, and the machine has stopped.
pub fn stores_run_the_machine<R: Reader, S: Stopping>()
    ensures event { stores_make_transitions R.Reads S.Leave }
    ensures run { stores_run_the_machine R.Reads S.Leave }
    ensures refused { refusals_over_a_store R.Reads S.Leave }
{}

/// The same as `tenants_are_told_what_they_see` over two stores, each with stops of its own: the tenant's own
/// events are answered the same, up to the first exception, the first own event that one of the stores refuses
/// in place of the machine (for memory, for space, after the last commit number, or of the device) and the other
/// does not refuse alike, or the first failure of a device under an event of another. So goes each own event, and
/// each event of another leaves the machines alike to the tenant.
pub fn stores_tell_tenants_what_they_see<R: Reader, S: Stopping, T: Stopping>()
    ensures runs { what_stores_tell_a_tenant R.Reads S.Leave T.Leave }
    ensures own { own_events_go_alike R.Reads S.Leave T.Leave }
    ensures others { others_go_unseen R.Reads S.Leave }
{}

/// What `stores_tell_tenants_what_they_see` forbids: two different answers to an own event that no store gives in
/// place of the machine's, alone or behind an event of another, are told alike only at an exception of the
/// machines as this event left them. An own event that both refuse with one code, which its text is not itself
/// read as if it is for memory, space or of the device, leaves the machines alike to the tenant.
pub fn stores_part_at_exceptions<R: Reader, S: Stopping, T: Stopping>()
    ensures own { stores_part_at_exceptions R.Reads S.Leave T.Leave }
    ensures behind { stores_part_behind_others R.Reads S.Leave T.Leave }
    ensures alike { one_refusal_parts_no_stores R.Reads S.Leave T.Leave }
{}

/// What needs nothing of the store is answered by the machine, whatever there is of memory, of space or
/// of the device: a text that is too long, an opening beside 256 sessions of its client, and each close.
pub fn limits_come_before_the_store<R: Reader>()
    ensures texts { long_texts_are_answered_for_their_length R.Reads }
    ensures openings { full_machines_answer_openings R.Reads }
    ensures closes { machines_answer_closes R.Reads }
{}

/// Over a run the number of the last commit never falls. After each of its events a stop leaves what has
/// been answered, or where the device failed what was then under way.
pub fn stores_keep_what_was_answered<R: Reader, S: Stopping>()
    ensures numbers { commit_numbers_never_fall R.Reads S.Leave }
    ensures stops { stops_leave_what_was_answered R.Reads S.Leave }
{}
