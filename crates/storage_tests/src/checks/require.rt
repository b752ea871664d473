//! Conditions of checks.

use anyhow::{Result, bail};

/// What a check found: the first condition that does not hold, if there is one.
#[derive(Clone, Copy)]
pub struct Findings {
    failed: Option<&'static str>,
}

impl Findings {
    /// All that was looked at holds.
    pub fn new() -> Findings {
        Findings { failed: None }
    }

    /// Takes in whether a condition holds, and the text of it where it is the first that does not.
    pub fn require(&mut self, holds: bool, what: &'static str) {
        if !holds && self.failed.is_none() {
            self.failed = Some(what);
        }
    }

    /// Fails with the text of the first condition that does not hold.
    pub fn finish(self) -> Result<()> {
        match self.failed {
            Some(what) => bail!(what),
            None => Ok(()),
        }
    }
}

/// Fails with this text where something does not hold.
pub fn require(holds: bool, what: &'static str) -> Result<()> {
    if !holds {
        bail!(what);
    }
    Ok(())
}
