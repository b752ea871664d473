//! Stops while a journal is turned on or off, after each count of sector writes.

use crate::journals::devices::{DeviceEvent, JournalSwitch, SwitchAnswer};
use crate::journals::images::{SectorChoice, TestImage};
use crate::journals::script::{BatchScript, ScriptStep};
use crate::journals::tally::TestTally;
use crate::journals::turning::{Standing, Turning};
use anyhow::Result;

/// More writes than are made where a journal is turned on or off on 64 pages.
const MAX_WRITES: u64 = 1_024;

/// The stops of the steps of a script that turn the journal on or off.
#[derive(Clone, Copy)]
struct Switches {
    every: u64,
    restarts: u64,
}

/// Stops each step of a script that turns the journal on or off. Of the devices that were started again one in so many is
/// followed by stops of the same step.
pub fn stop_switches(script: &BatchScript, every: u32, tally: &mut TestTally) -> Result<()> {
    let mut switches = Switches {
        every: u64::from(every.max(1)),
        restarts: 0,
    };
    let mut standing = Standing::new(script)?;
    switches.follow(script, &mut standing, tally)
}

impl Switches {
    /// Makes the steps of a script one after the other, and stops each before that turns the journal on or off.
    fn follow(
        &mut self,
        script: &BatchScript,
        standing: &mut Standing,
        tally: &mut TestTally,
    ) -> Result<()> {
        for step in &script.steps {
            if let ScriptStep::Turn(switch) = *step {
                self.stop_twice(script, standing, switch, tally)?;
            }
            standing.go_on(script, *step, tally)?;
        }
        Ok(())
    }

    /// Stops a journal that is turned on or off, and stops that again on a part of what is left.
    fn stop_twice(
        &mut self,
        script: &BatchScript,
        standing: &Standing,
        switch: JournalSwitch,
        tally: &mut TestTally,
    ) -> Result<()> {
        for left in &stop_each(script, standing, switch, tally)? {
            self.restarts = self.restarts.wrapping_add(1);
            if self.restarts % self.every.max(1) == 0 {
                let _left = stop_each(script, left, switch, tally)?;
            }
        }
        Ok(())
    }
}

/// Stops a journal that is turned on or off after each count of writes. What is left of it by each choice.
fn stop_each(
    script: &BatchScript,
    standing: &Standing,
    switch: JournalSwitch,
    tally: &mut TestTally,
) -> Result<Vec<Standing>> {
    let turning = Turning::of(script, switch, standing)?;
    let mut left = Vec::new(script.alloc);
    stop_all(script, &turning, &standing.image, &mut left, tally)?;
    Ok(left)
}

/// Stops it after each count of writes, until it is made whole. Adds what is left of it by each choice.
fn stop_all(
    script: &BatchScript,
    turning: &Turning,
    image: &TestImage,
    left: &mut Vec<Standing>,
    tally: &mut TestTally,
) -> Result<()> {
    for writes in 0..MAX_WRITES {
        if stop_after(script, turning, image, writes, left, tally)? {
            return Ok(());
        }
    }
    Ok(())
}

/// Stops it after so many writes. Answers whether it was made whole.
fn stop_after(
    script: &BatchScript,
    turning: &Turning,
    image: &TestImage,
    writes: u64,
    left: &mut Vec<Standing>,
    tally: &mut TestTally,
) -> Result<bool> {
    let device = image.device()?;
    device.prepare(DeviceEvent::StatementError(writes));
    let (device, answer) = turning.switch.turn(script.alloc, device);
    let answered = answer.number();
    let is_so = matches!(&answer, SwitchAnswer::Number(_) | SwitchAnswer::Device);
    tally.disagree(is_so, "a stop is answered otherwise");
    let stopped = TestImage::of(script.alloc, device)?;
    restart_each(script, turning, &stopped, answered, left, tally)?;
    Ok(answered.is_some())
}

/// Starts a device again by each choice of its unsynced sectors, and adds what is left there. Where all of them are new, it is
/// turned once more, too.
fn restart_each(
    script: &BatchScript,
    turning: &Turning,
    stopped: &TestImage,
    answered: Option<u64>,
    left: &mut Vec<Standing>,
    tally: &mut TestTally,
) -> Result<()> {
    turn_again(script, turning, stopped, tally)?;
    for choice in &stopped.choices()? {
        let image = stopped.restarted(*choice)?;
        left.push(looked_at(script, turning, image, answered, tally)?)?;
    }
    Ok(())
}

/// Turns the journal of a device on or off once more, all of whose sectors are new.
fn turn_again(
    script: &BatchScript,
    turning: &Turning,
    stopped: &TestImage,
    tally: &mut TestTally,
) -> Result<()> {
    let mut standing = turning.left(stopped.restarted(SectorChoice::New)?);
    standing.go_on(script, ScriptStep::Turn(turning.switch), tally)
}

/// What is left on a device that was started again, after a look at what it has.
fn looked_at(
    script: &BatchScript,
    turning: &Turning,
    image: TestImage,
    answered: Option<u64>,
    tally: &mut TestTally,
) -> Result<Standing> {
    if turning.check(script, &image, answered, tally)? {
        tally.count_first();
    } else {
        tally.count_second();
    }
    Ok(turning.left(image))
}
