//! Commits of which a call of the device fails.

use crate::journals::devices::DeviceEvent;
use crate::journals::images::TestImage;
use crate::journals::script::BatchScript;
use crate::journals::tally::TestTally;
use crate::journals::test_stores::{TestStore, commit_first, new_device, opened};
use crate::journals::wanted::wanted_first;
use anyhow::Result;
use store::StoreFault;

/// More calls than a commit makes on 64 pages.
const MAX_CALLS: u64 = 1_024;

/// Makes each call fail that a commit of a script makes.
pub fn fail_commits(script: &BatchScript, tally: &mut TestTally) -> Result<()> {
    for index in 0..script.len() {
        fail_calls(script, index, tally)?;
    }
    Ok(())
}

/// Makes each call of a commit fail, before it is carried out or after.
fn fail_calls(script: &BatchScript, index: usize, tally: &mut TestTally) -> Result<()> {
    for calls in 0..MAX_CALLS {
        let passes = fail_call(script, index, DeviceEvent::Failure(calls), tally)?;
        if fail_call(script, index, DeviceEvent::LateFailure(calls), tally)? && passes {
            return Ok(());
        }
    }
    Ok(())
}

/// Makes a call fail. Answers whether the commit makes no more calls than those before it.
fn fail_call(
    script: &BatchScript,
    index: usize,
    event: DeviceEvent,
    tally: &mut TestTally,
) -> Result<bool> {
    let mut store = opened(script, new_device(script.alloc, true)?)?;
    commit_first(script, &mut store, index, tally)?;
    if commit_failing(script, &mut store, index, event, tally)? {
        return Ok(true);
    }
    let image = TestImage::of(script.alloc, store.into_device())?;
    check_restarts(script, index, &image, tally)?;
    Ok(false)
}

/// Makes a commit of which a call fails, and sees that a store that has failed makes no more calls. Answers whether the commit
/// makes no more calls than those before that one.
fn commit_failing(
    script: &BatchScript,
    store: &mut TestStore,
    index: usize,
    event: DeviceEvent,
    tally: &mut TestTally,
) -> Result<bool> {
    let failures = store.failures();
    store.prepare(event);
    let answer = store.commit(&mut script.batch(index, 0)?);
    if store.failures() == failures {
        tally.disagree(answer.is_ok(), "a commit is not made");
        return Ok(true);
    }
    tally.count_first();
    let is_so = answer == Err(StoreFault::Device);
    tally.disagree(is_so, "a failure is answered otherwise");
    store.prepare(DeviceEvent::StatementError(0));
    let is_closed = store.is_closed(&mut script.batch(index, 1)?);
    tally.disagree(is_closed, "a call is answered after a failure");
    let is_quiet = store.failures() == failures.saturating_add(1);
    tally.disagree(is_quiet, "a call is made after a failure");
    Ok(false)
}

/// Sees what a device has, as it is and started again by each choice of its unsynced sectors.
fn check_restarts(
    script: &BatchScript,
    index: usize,
    image: &TestImage,
    tally: &mut TestTally,
) -> Result<()> {
    check(script, index, image, tally)?;
    for choice in &image.choices()? {
        check(script, index, &image.restarted(*choice)?, tally)?;
    }
    Ok(())
}

/// Sees that a device has the records before the commit of an index or those after it.
fn check(
    script: &BatchScript,
    index: usize,
    image: &TestImage,
    tally: &mut TestTally,
) -> Result<()> {
    tally.count_second();
    let mut store = opened(script, image.device()?)?;
    let is_found = has(script, &mut store, index)?
        || has(script, &mut store, index.saturating_add(1))?;
    tally.disagree(is_found, "other records after a failure");
    Ok(())
}

/// Whether a store has the records after so many commits.
pub fn has(script: &BatchScript, store: &mut TestStore, commits: usize) -> Result<bool> {
    let mut wanted = wanted_first(script, commits)?;
    Ok(store.has(&mut wanted)?)
}
