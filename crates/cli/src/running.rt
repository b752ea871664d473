//! The run of a script over a store, or over a new database in memory.

ghost use Rattle.std.specs.Prelude.{◌≡◌};
ghost use Rattle.sql_types.specs.Name.{IsUtf8Name};
ghost use Rattle.store.specs.Store.{KeepsHistory};
ghost use Rattle.cli.specs.Running.{RunsOver, RunsOverNew};

use crate::ending::Ending;
use crate::fault::CommandFault;
use recovery::open;
use server::decide::EventHandler;
use sql_types::name::Name;
use std::alloc::Global;
use store::{MemStore, Store};
use stored_database::{new_records_stand_for_a_new_database, one_database};
use wire::script_run::run_script;
use wire::text_sink::TakesText;

/// How the run of a script ended, and the store after it.
#[derive(Drop)]
pub struct Run<S> {
    pub ending: Ending,
    pub store: S,
}

/// Runs a script over a server that is opened over a store, whose events `handler` decides: each
/// answer is told to `out` before the next line is read. However it ends, the sessions that are
/// still open are then closed, unless the server has stopped; the store is handed back.
///
/// Where no server is opened, nothing is told to `out`: `Fault` is `Memory` where an allocation
/// failed, `Device` where the device failed, `Damaged` where the records stand for no database, and
/// `Full` or `Number` where records in record format 1 have no room in record format 2, or no commit
/// number. Records in record format 2 were only read then, and so were those that are damaged;
/// of others a stop leaves the same database. After it `Fault` is `Memory` where an allocation for
/// the script's lines failed and `Output` where `out` did.
pub fn run_script_over<S: Store, X: EventHandler + Drop, K: TakesText>(
    alloc: Global,
    store: S,
    handler: X,
    script: &str,
    out: &mut K,
) -> Run<S>
    ensures history { KeepsHistory (S.state store) (S.state result.store) }
    ensures runs { RunsOver X X.Reads S.state K.Sink store script.now out.old result.ending
        result.store out.new }
{
    let mut server = match open(alloc, store, handler) {
        Ok(server) => server,
        Err(refused) => {
            return Run {
                ending: Ending::Fault(CommandFault::from(refused.fault)),
                store: refused.store,
            };
        }
    };
    let end = run_script(alloc, &mut server, script, out);
    Run {
        ending: Ending::from(end),
        store: server.into_store(),
    }
}

/// Runs a script over a new database in memory, whose one role is the superuser `admin`. What is
/// written are the answers of the session machine to the events that the lines request, one after
/// the other; in place of an answer stands 53200 where an allocation failed. The machine never
/// stops. Where memory is refused before the first line, `Fault` is `Memory` and nothing is written.
pub fn run_in_memory<X: EventHandler + Drop, K: TakesText>(
    alloc: Global,
    handler: X,
    admin: &Name,
    script: &str,
    out: &mut K,
) -> Ending
    ensures runs { RunsOverNew X X.Reads K.Sink admin.now script.now out.old result out.new }
{
    // For the proof: the name is one of UTF-8.
    know_name(admin);
    // For the proof: the records of a new store stand for a new database.
    new_records_stand_for_a_new_database();
    // For the proof: records stand for one database.
    one_database();
    let Ok(store) = MemStore::new(alloc, admin) else {
        return Ending::Fault(CommandFault::Memory);
    };
    run_script_over(alloc, store, handler, script, out).ending
}

// A name is one of UTF-8.
fn know_name(name: &Name)
    ensures { IsUtf8Name name.now }
{
    // For the proof: the bytes of a text are UTF-8.
    let _ = name.as_str().as_bytes();
}
