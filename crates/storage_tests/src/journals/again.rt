//! Openings, commits, and journals turned on and off, that are refused memory.

use crate::journals::devices::{JournalSwitch, SwitchAnswer, TestDevice};
use crate::journals::script::{BatchScript, ScriptStep};
use crate::journals::tally::TestTally;
use crate::journals::test_stores::{TestStore, new_device, opened};
use crate::journals::wanted::ROOT;
use crate::stores::map_calls;
use crate::stores::records::memory_of;
use anyhow::{Result, bail};
use kv_store::OpenFault;
use store::{Batch, MemStore, StoreFault};

/// Makes the steps of a script, each again that is refused memory, and sees that nothing has changed by the first. At last the
/// device is opened once more.
pub fn step_again(script: &BatchScript, tally: &mut TestTally) -> Result<()> {
    let store = opened_again(script, new_device(script.alloc, true)?)?;
    let mut memory = memory_of(script.alloc, ROOT)?;
    let device = after_steps(script, store, &mut memory, tally)?;
    look_at_last(script, device, &mut memory, tally)
}

/// The device of a store after all steps.
fn after_steps(
    script: &BatchScript,
    store: TestStore,
    memory: &mut MemStore,
    tally: &mut TestTally,
) -> Result<TestDevice> {
    let mut store = store;
    for step in &script.steps {
        tally.count_first();
        store = stepped(script, store, memory, *step, tally)?;
    }
    Ok(store.into_device())
}

/// Opens a device at the end of a script, and looks at it.
fn look_at_last(
    script: &BatchScript,
    device: TestDevice,
    memory: &mut MemStore,
    tally: &mut TestTally,
) -> Result<()> {
    let mut store = opened_again(script, device)?;
    look(&mut store, memory, tally)?;
    tally.count_second();
    Ok(())
}

/// A store after one more step, which the store in memory has too where it is a commit.
fn stepped(
    script: &BatchScript,
    store: TestStore,
    memory: &mut MemStore,
    step: ScriptStep,
    tally: &mut TestTally,
) -> Result<TestStore> {
    let mut store = store;
    match step {
        ScriptStep::Commit(index) => {
            commit_both(script, &mut store, memory, index, tally)?;
            Ok(store)
        }
        ScriptStep::Turn(switch) => {
            let device = turned_again(script, store.into_device(), switch, tally);
            opened_again(script, device)
        }
    }
}

/// Makes the commit of an index in a store, again where it is refused memory, and in the store in memory.
fn commit_both(
    script: &BatchScript,
    store: &mut TestStore,
    memory: &mut MemStore,
    index: usize,
    tally: &mut TestTally,
) -> Result<()> {
    commit(store, memory, &mut script.batch(index, 0)?, tally)?;
    map_calls::commit(memory, &mut script.batch(index, 0)?)?;
    Ok(())
}

/// The store on a device, which is opened again where that is refused memory.
fn opened_again(script: &BatchScript, device: TestDevice) -> Result<TestStore> {
    match TestStore::open(script, device) {
        Ok(store) => Ok(store),
        Err((device, OpenFault::Memory)) => opened(script, device),
        Err((_, fault)) => bail!("not opened: {fault:?}"),
    }
}

/// A device whose journal is turned on or off, again where that is refused memory.
fn turned_again(
    script: &BatchScript,
    device: TestDevice,
    switch: JournalSwitch,
    tally: &mut TestTally,
) -> TestDevice {
    let (device, answer) = switch.turn(script.alloc, device);
    if !matches!(&answer, SwitchAnswer::Memory) {
        tally.disagree(
            answer.number().is_some(),
            "a journal is not turned on or off",
        );
        return device;
    }
    let (device, again) = switch.turn(script.alloc, device);
    tally.disagree(again.number().is_some(), "a journal is refused again");
    device
}

/// Makes a commit, and again with the same batch where it is refused memory. The store in memory does not have it yet.
fn commit(
    store: &mut TestStore,
    memory: &mut MemStore,
    batch: &mut Batch,
    tally: &mut TestTally,
) -> Result<(), StoreFault> {
    let number = store.number();
    let answer = store.commit(batch);
    if answer != Err(StoreFault::Memory) {
        tally.disagree(answer.is_ok(), "a commit is not made");
        return Ok(());
    }
    tally.disagree(store.number() == number, "a refused commit has a number");
    look(store, memory, tally)?;
    let again = store.commit(batch);
    tally.disagree(again.is_ok(), "a commit is refused again");
    Ok(())
}

/// Sees that a store has the records of one in memory, again where it is refused memory.
fn look(
    store: &mut TestStore,
    memory: &mut MemStore,
    tally: &mut TestTally,
) -> Result<(), StoreFault> {
    let found = match store.has(memory) {
        Err(StoreFault::Memory) => store.has(memory)?,
        answer => answer?,
    };
    tally.disagree(found, "other records than in memory");
    Ok(())
}
