//! What was counted in a test.

use crate::stores::call::CallWords;
use crate::transcript::Transcript;
use std::alloc::Global;

/// What was counted in a test: two numbers, and a line for each disagreement.
pub struct TestTally {
    pub first: u64,
    pub second: u64,
    disagreements: u64,
    told: Transcript,
}

// Written and not derived: where a value is dropped this is one call, and not its parts one by one.
impl Drop for TestTally {
    fn drop(self) {
        let TestTally {
            first: _,
            second: _,
            disagreements: _,
            told: _,
        } = self;
    }
}

impl TestTally {
    /// Nothing was counted.
    pub fn new(alloc: Global) -> TestTally {
        TestTally {
            first: 0,
            second: 0,
            disagreements: 0,
            told: Transcript::new(alloc),
        }
    }

    /// Counts one more of the first kind.
    pub fn count_first(&mut self) {
        self.first = self.first.saturating_add(1);
    }

    /// Counts one more of the second kind.
    pub fn count_second(&mut self) {
        self.second = self.second.saturating_add(1);
    }

    /// Counts a disagreement and tells of it, unless all is as it should be.
    pub fn disagree(&mut self, is_so: bool, told: &str) {
        if !is_so {
            self.disagreements = self.disagreements.saturating_add(1);
            self.told.put_all(&["  ", told, "\n"]);
        }
    }

    /// Tells the counts, unless the test is not to tell them, and each disagreement, on lines.
    pub fn tell(&self, call: &CallWords<'_>, is_counted: bool, out: &mut Transcript) {
        out.put_all(&[call.word, ":"]);
        if is_counted {
            let (firsts, seconds) = counted(call.name);
            out.put_after_blank(self.first);
            out.put_all(&[" ", firsts, ","]);
            out.put_after_blank(self.second);
            out.put_all(&[" ", seconds, ","]);
        }
        out.put_after_blank(self.disagreements);
        out.put(" disagreements\n");
        out.put_transcript(&self.told);
    }
}

/// What the two numbers of a test count.
fn counted(test: &str) -> (&'static str, &'static str) {
    match test {
        "stops" => ("stops", "restarts"),
        "openings" => ("failing calls", "openings"),
        "counts" => ("sectors", "syncs"),
        "switches" => ("restarts with a journal", "restarts without one"),
        "again" => ("steps", "looks"),
        _ => ("failing calls", "devices"),
    }
}
