//! One life of a database in a store.

ghost use Rattle.std.specs.Prelude.{◌≡◌, ◌++◌, ℕ, List, Some, Err, IfErr, OnErr, OnOk, false};
ghost use Rattle.sql_types.specs.declared.answer.Answer.{Answer as TheAnswer};
ghost use Rattle.store.specs.Store.{KeepsHistory, stored};
ghost use Rattle.abstract_database.specs.Runs.{Standing};
ghost use Rattle.recovery.specs.Openings.{OnlyLooks};
ghost use Rattle.databases.specs.Lives.{all_of_client, IsFoundLeft, Lives, IsRefused, StepsAt, Answers};

use recovery::{OpeningFault, Refused, open};
use server::decide::EventHandler;
use server::server::{ONLY_CLIENT, Server};
use sql_types::answer::Answer;
use sql_types::event::Event;
use std::alloc::{AllocError, Global};
use store::{Fault, Store};
use stored_database::one_database;

/// One life: opens a server over the contents of a store, answers events in their order, adds the
/// answers to those that are there, and gives the store back.
///
/// Where the contents stand for a database that the last life may have left, the answers are those
/// of the session machine over it, each given at a moment of the store's clock, and whenever the life
/// stops, what is left stands for a database that a next life goes on from. Contents of record format 1 are of record format 2 before the first
/// event, and no more than one commit has then been made. The counts of its end are the store's, so
/// that a refusal for space or the device is one that the store counted.
///
/// After an error no event was answered. A store of record format 2 was then only read, and so
/// was one whose contents stand for no database: what its reads leave alone is as it was, unless
/// the store had failed before. A stop leaves of any other the database that was there, in either
/// record format, at every moment. `Device`: the store had failed, or it counted a failure: the device
/// failed, or what it gave was none of the store's. `Damaged`: the contents stand for no database.
/// `Full`, `Number`: no room, or no commit number, is left for the contents in record format 2.
/// All faults of a commit come only where they are of the first.
pub fn live_over<S: Store, X: EventHandler + Drop>(
    alloc: Global,
    store: S,
    handler: X,
    events: &[Event],
    answers: &mut Vec<Answer>,
) -> (S, Result<(), OpeningFault>)
    ensures history { KeepsHistory (S.state store) (S.state result.0) }
    ensures lives { (S.state store).sound → (S.state store).has_failed ≡ false → (s : Standing)
        → IsFoundLeft s (Some (stored (S.state store)))
        → Lives X X.Reads S.state s (all_of_client 0 events.now) answers.old.items answers.new.items
        (S.state store) result.0 result.1 }
    ensures refused { IfErr result.1
        (λ fault. IsRefused fault (S.state store) (S.state result.0)) }
    ensures preserved { (S.state store).has_failed ≡ false → IfErr result.1
        (λ fault. OnlyLooks (S.state store).record_format (Err fault) → S.preserved store result.0) }
    ensures unanswered { OnErr result.1 (answers.new.items ≡ answers.old.items) }
{
    // For the proof: records stand for one database.
    one_database();
    match open(alloc, store, handler) {
        Ok(server) => answer_events(server, events, answers),
        Err(Refused { store, fault }) => (store, Err(fault)),
    }
}

// Answers events in their order, and gives the store back. The only error is that an allocation
// failed before the first of them.
fn answer_events<S: Store, X: EventHandler + Drop>(
    server: Server<S, X>,
    events: &[Event],
    answers: &mut Vec<Answer>,
) -> (S, Result<(), OpeningFault>)
    ensures history { KeepsHistory (S.state server.store) (S.state result.0) }
    ensures answers { Answers X.Reads S.state server (all_of_client 0 events.now) answers.old.items answers.new.items
        result.0 result.1 }
{
    let mut server = server;
    let ran = step_by_step(&mut server, events, answers);
    let store = server.into_store();
    match ran {
        Ok(()) => (store, Ok(())),
        Err(_) => (store, Err(OpeningFault::Read(Fault::Memory))),
    }
}

// Answers events in their order, a step for each, and adds the answers to those that are there. The
// memory for the answers is taken first: where that fails, nothing changes.
fn step_by_step<S: Store, X: EventHandler>(
    server: &mut Server<S, X>,
    events: &[Event],
    answers: &mut Vec<Answer>,
) -> Result<(), AllocError>
    ensures history { KeepsHistory (S.state server.old.store) (S.state server.new.store) }
    ensures ok { OnOk result ((told : List TheAnswer) × (moments : List ℕ)
        × (answers.new.items ≡ answers.old.items ++ told)
        × StepsAt X.Reads S.state server.old (all_of_client 0 events.now) told moments server.new) }
    ensures err { OnErr result ((server.new ≡ server.old)
        × (answers.new.items ≡ answers.old.items)) }
{
    answers.reserve(events.len())?;
    for event in events {
        let answer = server.step(ONLY_CLIENT, event);
        match answers.push(answer) {
            Ok(()) => {}
            Err(_) => unreachable!(),
        }
    }
    Ok(())
}
