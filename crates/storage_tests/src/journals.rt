//! Stops stores with a journal, and makes calls of their devices fail, again and again, and tells how often that was done and how
//! often something else was found than was to be found.
//!
//! A line is a test by itself; one whose first word is `#` is printed as it is. The first word names the test, the others make a
//! script: `put:KEY:VALUE`, `remove:KEY` and `rise:FROM:TO:VALUE` as in the part `stores`, and `commit` behind each batch. `on`
//! and `off` between two batches turn the journal on and off, in the tests that know of steps. In the
//! life n of a device, from 0 on, all bytes of values are n more. Each store lies on a device of 64 pages, and is made new with
//! the record of the role root, unless it says otherwise. A test answers what was counted, or, with the word `uncounted` before
//! the script, only how often there was a disagreement, of which a line tells each one.
//!
//! - `stops:CACHE:LIVES:EVERY`: each commit of the script is stopped after each count of its sector writes. The device starts again
//!   with the sectors that were written since the last sync all old, all new, those of even or of odd numbers new, and each
//!   single one new. The next life opens it with a cache of so many pages, and finds the records before the commit or those after
//!   it, and those after it if it was answered. There the next commit is made, stopped in the same way, up to so many lives deep.
//!   Of the devices that were started again one in EVERY is followed by stops, all of them with the word `all` on the command
//!   line. In each the next commit is made whole, too, and found again.
//! - `fails:CACHE`: each call of the device that a commit makes fails, before it is carried out or after. The commit is answered
//!   by Device, all that follows too, without a call. The device starts again as above, or is opened as it is, and has the
//!   records before the commit or those after it.
//! - `openings:CACHE`: each call of an opening fails, behind each commit. It is answered by Device, and a further one finds the
//!   records.
//! - `counts:CACHE`: how many sectors the commits of the script write, and how many syncs they make.
//! - `full:ROUNDS:SIZE`: rows are put into a store with a journal and into one without, until one is full, and then seven rows
//!   that lie apart are changed in each of so many rounds, each in a commit. It answers how often the one with a journal is full
//!   where the other is not.
//! - `switches:CACHE:EVERY`: each step of the script that turns the journal on or off is stopped after each count of its sector
//!   writes, and the device starts again as above. It is made new without a journal. What is found there has the records of the
//!   commits before, and a journal exactly where the root in force says so. The number of the root does not fall, nor that of
//!   a store with a journal. With all sectors new the step is made once more, whole: after `off` neither root says that there is a
//!   journal, and the device opens as a store in pages alone. On one in EVERY of the devices that were started again the step is
//!   stopped once more. It answers how many of them had a journal.
//! - `failing_switches:CACHE`: each call of such a step fails, before it is carried out or after. It is answered by Device, and
//!   the device starts again with its unsynced sectors all new, and all old.
//! - `again:CACHE`: the steps of the script, and an opening at its end. Each that is refused memory is made again: for runs in
//!   which a request for memory is refused, of which each that ends well prints the same.
//!
//! What is to be found is what a store in memory has after the same commits. The counts stand beside `journals.py`, another program,
//! which knows of stores what docs/formats.md says of a journal.

mod again;
mod counts;
mod devices;
mod failing;
mod failing_switches;
mod full;
mod images;
mod logged;
mod openings;
mod record_lists;
mod roots;
mod script;
mod stops;
mod switches;
mod tally;
mod test_stores;
mod turning;
mod wanted;

use crate::journals::script::BatchScript;
use crate::journals::tally::TestTally;
use crate::stores::call::{CallWords, number_in};
use crate::transcript::Transcript;
use anyhow::{Result, bail};
use kv_store::MAX_CACHE_PAGES;
use std::alloc::Global;

/// Runs the test of a line, and tells what came of it.
pub fn follow(alloc: Global, tries_all: bool, line: &str, out: &mut Transcript) -> Result<()> {
    let (word, rest) = line.split_once(' ').unwrap_or((line, ""));
    let first = CallWords::new(alloc, word);
    match first.name {
        "" => Ok(()),
        "#" => Ok(out.put_all(&[line, "\n"])),
        "full" => full::fill(&first, out),
        _ => follow_script(&first, tries_all, rest, out),
    }
}

/// Runs the test that a word names with the script behind it, and tells what came of it.
fn follow_script(
    first: &CallWords<'_>,
    tries_all: bool,
    rest: &str,
    out: &mut Transcript,
) -> Result<()> {
    let cache = number_in(first.first) as usize;
    if cache == 0 || cache > MAX_CACHE_PAGES {
        bail!("no cache has so many pages");
    }
    let (words, is_counted) = match rest.strip_prefix("uncounted ") {
        Some(words) => (words, false),
        None => (rest, true),
    };
    let script = BatchScript::new(first.alloc, cache, words)?;
    let mut tally = TestTally::new(first.alloc);
    run_test(first, tries_all, &script, &mut tally)?;
    tally.tell(first, is_counted, out);
    Ok(())
}

/// Runs the test that a word names with a script.
fn run_test(
    first: &CallWords<'_>,
    tries_all: bool,
    script: &BatchScript,
    tally: &mut TestTally,
) -> Result<()> {
    match first.name {
        "stops" => {
            let every = every_of(tries_all, first.third);
            stops::stop_commits(script, number_in(first.second), every, tally)
        }
        "fails" => failing::fail_commits(script, tally),
        "openings" => openings::fail_openings(script, tally),
        "counts" => counts::count(script, tally),
        "switches" => switches::stop_switches(script, every_of(tries_all, first.second), tally),
        "failing_switches" => failing_switches::fail_switches(script, tally),
        "again" => again::step_again(script, tally),
        _ => bail!("there is no such test"),
    }
}

/// Of how many devices one is followed by stops.
fn every_of(tries_all: bool, argument: &str) -> u32 {
    if tries_all { 1 } else { number_in(argument) }
}
