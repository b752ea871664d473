//! Stops of commits after each count of sector writes, several lives deep.

use crate::journals::devices::DeviceEvent;
use crate::journals::images::{SectorChoice, TestImage};
use crate::journals::script::BatchScript;
use crate::journals::tally::TestTally;
use crate::journals::test_stores::{TestStore, commit_whole, new_device, opened, synced};
use crate::journals::wanted::{wanted_after, with};
use anyhow::Result;
use std::alloc::{AllocError, Global};
use store::StoreFault;

/// More writes than a commit makes on 64 pages.
const MAX_WRITES: u64 = 1_024;

/// What a device holds after a stop: the lives in which the commits were made, of which the last was under way, whether that one was
/// answered, and the number before it.
struct Stopped {
    image: TestImage,
    lives: Vec<u8>,
    life: u8,
    is_answered: bool,
    number: u64,
}

// Written and not derived: where a value is dropped this is one call, and not its parts one by one.
impl Drop for Stopped {
    fn drop(self) {
        let Stopped {
            image: _,
            lives: _,
            life: _,
            is_answered: _,
            number: _,
        } = self;
    }
}

impl Stopped {
    /// What the device holds that is started again.
    fn restarted(&self, choice: SectorChoice) -> Result<Stopped, AllocError> {
        Ok(Stopped {
            image: self.image.restarted(choice)?,
            lives: self.lives.clone()?,
            life: self.life,
            is_answered: self.is_answered,
            number: self.number,
        })
    }

    /// The lives of the commits before the one that was under way.
    fn before(&self) -> &[u8] {
        let commits = self.lives.len().saturating_sub(1);
        self.lives.get(..commits).unwrap_or(&[])
    }
}

/// A commit that is to be stopped, of an index, and made in a life of a device that holds this, with commits that were made in
/// these lives. Those between are made before it.
#[derive(Clone, Copy)]
struct NextCommit<'a> {
    image: &'a TestImage,
    before: &'a [u8],
    life: u8,
    index: usize,
}

/// The stops of a script.
#[derive(Drop)]
struct Stops {
    lives: u8,
    every: u64,
    restarts: u64,
    /// The devices whose lives are still to come.
    waiting: Vec<Stopped>,
}

/// Stops each commit of a script, and lets the lives that follow come, up to so many. Of the devices that were started again one in
/// so many is followed by stops.
pub fn stop_commits(
    script: &BatchScript,
    lives: u32,
    every: u32,
    tally: &mut TestTally,
) -> Result<()> {
    let image = TestImage::of(script.alloc, new_device(script.alloc, true)?)?;
    let mut stops = Stops {
        lives: u8::try_from(lives).unwrap_or(u8::MAX),
        every: u64::from(every.max(1)),
        restarts: 0,
        waiting: Vec::new(script.alloc),
    };
    stops.follow(script, &image, tally)
}

impl Stops {
    /// Stops each commit of a script in the first life of a device, and lets the lives that follow come.
    fn follow(
        &mut self,
        script: &BatchScript,
        image: &TestImage,
        tally: &mut TestTally,
    ) -> Result<()> {
        for index in 0..script.len() {
            let next = NextCommit {
                image,
                before: &[],
                life: 0,
                index,
            };
            self.stop_each(script, &next, tally)?;
            self.follow_waiting(script, tally)?;
        }
        Ok(())
    }

    /// Lets the lives that wait come, and those that follow them.
    fn follow_waiting(&mut self, script: &BatchScript, tally: &mut TestTally) -> Result<()> {
        for _ in 0..u64::MAX {
            let Some(stopped) = self.waiting.pop() else {
                return Ok(());
            };
            self.live(script, &stopped, tally)?;
        }
        Ok(())
    }

    /// Stops a commit after each count of writes.
    fn stop_each(
        &mut self,
        script: &BatchScript,
        next: &NextCommit<'_>,
        tally: &mut TestTally,
    ) -> Result<()> {
        for writes in 0..MAX_WRITES {
            if self.stop_after(script, next, writes, tally)? {
                return Ok(());
            }
        }
        Ok(())
    }

    /// Stops a commit after so many writes, and starts the device again. Answers whether the commit was made whole.
    fn stop_after(
        &mut self,
        script: &BatchScript,
        next: &NextCommit<'_>,
        writes: u64,
        tally: &mut TestTally,
    ) -> Result<bool> {
        let stopped = stopped_after(script, next, writes, tally)?;
        self.await_lives(&stopped)?;
        Ok(stopped.is_answered)
    }

    /// Has the lives of a device wait, one for each choice of its unsynced sectors.
    fn await_lives(&mut self, stopped: &Stopped) -> Result<(), AllocError> {
        for choice in &stopped.image.choices()? {
            self.waiting.push(stopped.restarted(*choice)?)?;
        }
        Ok(())
    }

    /// Looks at what a device holds that was started again, makes the next commit there, and may stop it.
    fn live(
        &mut self,
        script: &BatchScript,
        stopped: &Stopped,
        tally: &mut TestTally,
    ) -> Result<()> {
        tally.count_second();
        let mut store = opened(script, stopped.image.device()?)?;
        match found(script, &mut store, stopped, tally)? {
            Some(found) => self.go_on(script, store, stopped, found, tally),
            None => Ok(()),
        }
    }

    /// Makes the next commit in a store that was found with these ones, and may stop it.
    fn go_on(
        &mut self,
        script: &BatchScript,
        store: TestStore,
        stopped: &Stopped,
        found: &[u8],
        tally: &mut TestTally,
    ) -> Result<()> {
        let next = NextCommit {
            image: &stopped.image,
            before: found,
            life: stopped.life.saturating_add(1),
            index: found.len(),
        };
        make_next(script, store, &next, tally)?;
        if next.life < self.lives {
            self.restarts = self.restarts.wrapping_add(1);
            if self.restarts % self.every.max(1) == 0 {
                return self.stop_each(script, &next, tally);
            }
        }
        Ok(())
    }
}

/// What a device holds after a commit is stopped after so many writes.
fn stopped_after(
    script: &BatchScript,
    next: &NextCommit<'_>,
    writes: u64,
    tally: &mut TestTally,
) -> Result<Stopped> {
    let mut store = opened(script, next.image.device()?)?;
    let lives = made_before(script, &mut store, next, tally)?;
    let number = store.number();
    let is_answered = is_answered(script, &mut store, next, writes, tally)?;
    Ok(Stopped {
        image: TestImage::of(script.alloc, store.into_device())?,
        lives,
        life: next.life,
        is_answered,
        number,
    })
}

/// Makes the commits between, before one that is to be stopped. Answers the lives of all that the device has then, and of that one.
fn made_before(
    script: &BatchScript,
    store: &mut TestStore,
    next: &NextCommit<'_>,
    tally: &mut TestTally,
) -> Result<Vec<u8>> {
    let mut made = Vec::from_slice(script.alloc, next.before)?;
    for ahead in next.before.len()..next.index {
        commit_whole(script, store, ahead, next.life, tally)?;
        made.push(next.life)?;
    }
    made.push(next.life)?;
    Ok(made)
}

/// Makes a commit, which is stopped after so many writes. Whether it is answered all the same.
fn is_answered(
    script: &BatchScript,
    store: &mut TestStore,
    next: &NextCommit<'_>,
    writes: u64,
    tally: &mut TestTally,
) -> Result<bool> {
    let mut batch = script.batch(next.index, next.life)?;
    store.prepare(DeviceEvent::StatementError(writes));
    let answer = store.commit(&mut batch);
    tally.count_first();
    let is_so = answer.is_ok() || answer == Err(StoreFault::Device);
    tally.disagree(is_so, "a stop is answered otherwise");
    Ok(answer.is_ok())
}

/// The commits that a device has which was started again: all, or those before the one that was under way, if it was not answered.
fn found<'a>(
    script: &BatchScript,
    store: &mut TestStore,
    stopped: &'a Stopped,
    tally: &mut TestTally,
) -> Result<Option<&'a [u8]>> {
    let number = store.number();
    let is_next = stopped.number <= number && number <= stopped.number.saturating_add(1);
    tally.disagree(is_next, "a number that is none of the two");
    if has(script, store, &stopped.lives)? {
        return Ok(Some(stopped.lives.as_slice()));
    }
    if !stopped.is_answered && has(script, store, stopped.before())? {
        return Ok(Some(stopped.before()));
    }
    tally.disagree(false, "other records after a stop");
    Ok(None)
}

/// Whether a store has the records after commits that were made in these lives.
fn has(script: &BatchScript, store: &mut TestStore, lives: &[u8]) -> Result<bool> {
    let mut wanted = wanted_after(script, lives)?;
    Ok(store.has(&mut wanted)?)
}

/// Makes the next commit in a store, and finds it after a stop.
fn make_next(
    script: &BatchScript,
    store: TestStore,
    next: &NextCommit<'_>,
    tally: &mut TestTally,
) -> Result<()> {
    let mut store = store;
    let answer = store.commit(&mut script.batch(next.index, next.life)?);
    tally.disagree(answer.is_ok(), "the next commit is not made");
    let image = synced(script.alloc, store.into_device())?;
    tally.disagree(
        is_next_found(script, &image, next)?,
        "the next commit is not found",
    );
    Ok(())
}

/// Whether a device has the commits before the next one, and that one behind them.
fn is_next_found(script: &BatchScript, image: &TestImage, next: &NextCommit<'_>) -> Result<bool> {
    let mut store = opened(script, image.device()?)?;
    has(
        script,
        &mut store,
        &with(script.alloc, next.before, next.life)?,
    )
}
