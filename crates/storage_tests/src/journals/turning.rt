//! What a device is to have whose journal is turned on or off.

use crate::journals::devices::{JournalSwitch, SwitchAnswer};
use crate::journals::failing::has;
use crate::journals::images::TestImage;
use crate::journals::roots::Roots;
use crate::journals::script::{BatchScript, ScriptStep};
use crate::journals::tally::TestTally;
use crate::journals::test_stores::{commit_whole, new_device, opened, opens_in_pages, synced};
use crate::journals::wanted::wanted_first;
use anyhow::{Result, bail};

/// What a device holds after steps of a script, and how many of these are commits.
pub struct Standing {
    pub image: TestImage,
    pub commits: usize,
}

// Written and not derived: where a value is dropped this is one call, and not its parts one by one.
impl Drop for Standing {
    fn drop(self) {
        let Standing {
            image: _,
            commits: _,
        } = self;
    }
}

impl Standing {
    /// A new store without a journal.
    pub fn new(script: &BatchScript) -> Result<Standing> {
        Ok(Standing {
            image: TestImage::of(script.alloc, new_device(script.alloc, false)?)?,
            commits: 0,
        })
    }

    /// Makes one more step whole.
    pub fn go_on(
        &mut self,
        script: &BatchScript,
        step: ScriptStep,
        tally: &mut TestTally,
    ) -> Result<()> {
        match step {
            ScriptStep::Commit(index) => {
                self.image = self.after_commit(script, index, tally)?;
                self.commits = index.saturating_add(1);
            }
            ScriptStep::Turn(switch) => {
                let turning = Turning::of(script, switch, self)?;
                self.image = turning.turn(script, &self.image, tally)?;
            }
        }
        Ok(())
    }

    /// What the device holds after the commit of an index.
    fn after_commit(
        &self,
        script: &BatchScript,
        index: usize,
        tally: &mut TestTally,
    ) -> Result<TestImage> {
        let mut store = opened(script, self.image.device()?)?;
        commit_whole(script, &mut store, index, 0, tally)?;
        TestImage::of(script.alloc, store.into_device())
    }
}

/// A journal that is turned on or off, and what the device has before: so many commits, roots, and a number.
#[derive(Clone, Copy)]
pub struct Turning {
    pub switch: JournalSwitch,
    commits: usize,
    roots: Roots,
    number: u64,
}

impl Turning {
    /// What is left where the device holds this then.
    pub fn left(&self, image: TestImage) -> Standing {
        Standing {
            image,
            commits: self.commits,
        }
    }

    /// That of a device after steps of a script.
    pub fn of(script: &BatchScript, switch: JournalSwitch, standing: &Standing) -> Result<Turning> {
        let store = opened(script, standing.image.device()?)?;
        Ok(Turning {
            switch,
            commits: standing.commits,
            roots: Roots::of(&standing.image),
            number: store.number(),
        })
    }

    /// Turns the journal on or off, and sees what a stop leaves then. Answers what the device holds.
    pub fn turn(
        &self,
        script: &BatchScript,
        image: &TestImage,
        tally: &mut TestTally,
    ) -> Result<TestImage> {
        let (device, answer) = self.switch.turn(script.alloc, image.device()?);
        let SwitchAnswer::Number(number) = answer else {
            bail!("a journal is not turned on or off");
        };
        let left = synced(script.alloc, device)?;
        self.check_turned(script, &left, number, tally)?;
        Ok(left)
    }

    /// Sees that a device has what it is to have where the call was answered by a number, and is opened as a store in pages alone
    /// where the journal is turned off.
    fn check_turned(
        &self,
        script: &BatchScript,
        left: &TestImage,
        number: u64,
        tally: &mut TestTally,
    ) -> Result<()> {
        let _has_journal = self.check(script, left, Some(number), tally)?;
        if self.switch.is_on() {
            return Ok(());
        }
        let mut wanted = wanted_first(script, self.commits)?;
        let is_opened = opens_in_pages(script, left, &mut wanted)?;
        tally.disagree(is_opened, "no store in pages");
        Ok(())
    }

    /// Sees that a device has the commits, and the roots and the number that may be there, where the call was answered by a number
    /// or not. Answers whether it has a journal.
    pub fn check(
        &self,
        script: &BatchScript,
        image: &TestImage,
        answered: Option<u64>,
        tally: &mut TestTally,
    ) -> Result<bool> {
        let roots = Roots::of(image);
        let mut store = opened(script, image.device()?)?;
        let number = store.number();
        let has_journal = store.has_journal();
        let is_found = has(script, &mut store, self.commits)?;
        tally.disagree(is_found, "other records");
        let may_have = self.may_have(roots, answered.is_some());
        tally.disagree(may_have, "other roots");
        let is_number = self.may_number(roots, number) && answered.unwrap_or(number) == number;
        tally.disagree(is_number, "another number");
        let is_named = has_journal == roots.has_journal;
        tally.disagree(is_named, "another kind than the root says");
        Ok(has_journal)
    }

    /// By how much the number of the root rises.
    fn rise(&self) -> u64 {
        match (self.switch, self.roots.has_journal) {
            (JournalSwitch::On, false) => 1,
            (JournalSwitch::Off, true) => 2,
            (JournalSwitch::On, true) | (JournalSwitch::Off, false) => 0,
        }
    }

    /// Whether these roots may be there: the number has not fallen, and has risen by as much as it is to where the call was
    /// answered. There is a journal then as was asked for, and else as before. No root sector says of one that is off.
    fn may_have(&self, roots: Roots, is_answered: bool) -> bool {
        let risen = roots.number.saturating_sub(self.roots.number);
        let is_last = risen == self.rise();
        let is_on = self.switch.is_on();
        let has_journal = if is_last {
            is_on
        } else {
            self.roots.has_journal
        };
        let is_rid = is_on || !roots.had_journal;
        roots.number >= self.roots.number
            && risen <= self.rise()
            && roots.has_journal == has_journal
            && (!is_answered || is_last && is_rid)
    }

    /// Whether a store may have this number: without a journal it is that of the root, and with one it has not fallen.
    fn may_number(&self, roots: Roots, number: u64) -> bool {
        if roots.has_journal {
            self.number <= number && number <= self.number.saturating_add(1)
        } else {
            number == roots.number
        }
    }
}
