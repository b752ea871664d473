//! Journals that are turned on and off while a call of the device fails.

use crate::journals::devices::{DeviceEvent, SwitchAnswer};
use crate::journals::images::{SectorChoice, TestImage};
use crate::journals::script::{BatchScript, ScriptStep};
use crate::journals::tally::TestTally;
use crate::journals::turning::{Standing, Turning};
use anyhow::Result;

/// More calls than are made where a journal is turned on or off on 64 pages.
const MAX_CALLS: u64 = 2_048;

/// Makes each call fail that a step of a script makes which turns the journal on or off.
pub fn fail_switches(script: &BatchScript, tally: &mut TestTally) -> Result<()> {
    let mut standing = Standing::new(script)?;
    for step in &script.steps {
        fail_step(script, &mut standing, *step, tally)?;
    }
    Ok(())
}

/// Makes a step whole, after each call of it has failed where it turns the journal on or off.
fn fail_step(
    script: &BatchScript,
    standing: &mut Standing,
    step: ScriptStep,
    tally: &mut TestTally,
) -> Result<()> {
    if let ScriptStep::Turn(switch) = step {
        let turning = Turning::of(script, switch, standing)?;
        fail_each(script, &turning, &standing.image, tally)?;
    }
    standing.go_on(script, step, tally)
}

/// Makes each call fail, before it is carried out or after.
fn fail_each(
    script: &BatchScript,
    turning: &Turning,
    image: &TestImage,
    tally: &mut TestTally,
) -> Result<()> {
    for calls in 0..MAX_CALLS {
        let passes = fail_call(script, turning, image, DeviceEvent::Failure(calls), tally)?;
        let event = DeviceEvent::LateFailure(calls);
        if fail_call(script, turning, image, event, tally)? && passes {
            return Ok(());
        }
    }
    Ok(())
}

/// Makes a call fail. Answers whether no more calls are made than those before it.
fn fail_call(
    script: &BatchScript,
    turning: &Turning,
    image: &TestImage,
    event: DeviceEvent,
    tally: &mut TestTally,
) -> Result<bool> {
    let device = image.device()?;
    let failures = device.failures();
    device.prepare(event);
    let (device, answer) = turning.switch.turn(script.alloc, device);
    let failures = device.failures().saturating_sub(failures);
    if failures == 0 {
        let is_so = answer.number().is_some();
        tally.disagree(is_so, "a journal is not turned on or off");
        return Ok(true);
    }
    tally.count_first();
    let is_so = matches!(&answer, SwitchAnswer::Device) && failures == 1;
    tally.disagree(is_so, "a failure is answered otherwise");
    check_restarts(
        script,
        turning,
        &TestImage::of(script.alloc, device)?,
        tally,
    )?;
    Ok(false)
}

/// Sees what a device has that failed, and was started again.
fn check_restarts(
    script: &BatchScript,
    turning: &Turning,
    failed: &TestImage,
    tally: &mut TestTally,
) -> Result<()> {
    for choice in [SectorChoice::New, SectorChoice::Old] {
        tally.count_second();
        let _has_journal = turning.check(script, &failed.restarted(choice)?, None, tally)?;
    }
    Ok(())
}
