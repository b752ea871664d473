//! Openings of which a call of the device fails.

use crate::journals::devices::{DeviceEvent, TestDevice};
use crate::journals::failing::has;
use crate::journals::images::TestImage;
use crate::journals::script::BatchScript;
use crate::journals::tally::TestTally;
use crate::journals::test_stores::{TestStore, commit_first, new_device, opened};
use anyhow::Result;
use kv_store::OpenFault;

/// More calls than an opening makes on 64 pages.
const MAX_CALLS: u64 = 2_048;

/// Makes each call of an opening fail, behind each commit of a script.
pub fn fail_openings(script: &BatchScript, tally: &mut TestTally) -> Result<()> {
    for commits in 0..script.len().saturating_add(1) {
        let image = image_after(script, commits, tally)?;
        fail_calls(script, &image, commits, tally)?;
    }
    Ok(())
}

/// Makes each call of an opening fail, behind so many commits.
fn fail_calls(
    script: &BatchScript,
    image: &TestImage,
    commits: usize,
    tally: &mut TestTally,
) -> Result<()> {
    for calls in 0..MAX_CALLS {
        if fail_opening(script, image, commits, calls, tally)? {
            return Ok(());
        }
    }
    Ok(())
}

/// What a device holds on which so many commits were made.
fn image_after(script: &BatchScript, commits: usize, tally: &mut TestTally) -> Result<TestImage> {
    let mut store = opened(script, new_device(script.alloc, true)?)?;
    commit_first(script, &mut store, commits, tally)?;
    TestImage::of(script.alloc, store.into_device())
}

/// Makes a call fail that comes after so many. Answers whether the opening makes no more calls than these.
fn fail_opening(
    script: &BatchScript,
    image: &TestImage,
    commits: usize,
    calls: u64,
    tally: &mut TestTally,
) -> Result<bool> {
    let device = image.device()?;
    device.prepare(DeviceEvent::Failure(calls));
    let failures = device.failures();
    match TestStore::open(script, device) {
        Ok(store) => {
            tally.disagree(store.failures() == failures, "a failure is answered by Ok");
            Ok(true)
        }
        Err((device, fault)) => {
            let is_so = fault == OpenFault::Device
                && device.failures() == failures.saturating_add(1);
            tally.disagree(is_so, "a failing opening is answered otherwise");
            check(script, device, commits, tally)?;
            Ok(false)
        }
    }
}

/// Sees that a device of which an opening failed has the records after so many commits.
fn check(
    script: &BatchScript,
    device: TestDevice,
    commits: usize,
    tally: &mut TestTally,
) -> Result<()> {
    tally.count_first();
    tally.count_second();
    let mut store = opened(script, device)?;
    let is_found = has(script, &mut store, commits)?;
    tally.disagree(is_found, "other records after an opening that failed");
    Ok(())
}
