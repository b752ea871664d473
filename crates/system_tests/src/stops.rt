//! Stops of the whole server at each sector write, calls of its device that fail, and frames that are none.
//!
//! The script in a file `NAME.stopped` is run over a database on a device of 64 pages.
//!
//! - Stops: at each event that commits the device stops after each count of sector writes. It is started again with every
//!   unsynced sector old, every one new, the even ones new, the odd ones new, and each single one new. The map that a server
//!   finds on it is that of a server in memory after the same events, without the event under way or with it, and with it
//!   where that event was answered by anything but 58030. One more commit is then made, and found again.
//! - Second stops: where one more commit is made after a stop, it is stopped in the same way. The map is that before this
//!   commit or after it, and after it where it was answered.
//! - Failing calls: each call that an event makes fails in turn, the reads too. The events before are answered as in memory,
//!   that event and each later one by 58030. The device is started again as after a stop. The map is that before the event or
//!   after it, and one more commit is made, and found again.
//! - Failing calls of openings: each call of an opening fails in turn, on devices with unsynced sectors too, which a stop of
//!   the server alone leaves. It is refused, and nothing is written. The next opening finds the map before the event or after
//!   it, also where the device is started again as after a stop, and what it found is there after a further stop.
//! - Migrations: a device whose records are of record format 1 is opened, and that is stopped after each count of sector
//!   writes, and each of its calls fails in turn, without effect and with it. What that leaves is opened by each choice of
//!   sectors, a part of these openings is stopped once more, and each comes to the records of record format 2 under the next
//!   number.
//! - Copies: the database of such a device is copied to a new device, and this is stopped after each count of sector writes; so
//!   is that at the end of a script, where a part of the stops is tried. What a stop leaves is opened by each choice of sectors:
//!   it is no database or the whole one, and this alone once the copy is answered. What was copied stays as it was.
//! - Bad frames, given whole and byte by byte, are answered by 08P01 for session 0, and nothing after them is.
//!
//! A line tells each disagreement. A part of the tests is the same in each run.

pub mod answered_events;
mod bad_frames;
mod choices;
mod commits;
mod copy_stops;
pub mod fault;
pub mod images;
mod kinds;
mod openings;
mod parts;
mod places;
mod scripts;
pub mod servers;
mod tallies;
mod work;

use crate::device_images::DeviceImage;
use crate::files::{names_of, text_of};
use crate::stops::bad_frames::send_bad_frames;
use crate::stops::commits::ScriptEvent;
use crate::stops::copy_stops::stop_copies;
use crate::stops::fault::TestFault;
use crate::stops::images::Image;
use crate::stops::kinds::Kind;
use crate::stops::openings::{Opening, hinder_migration};
use crate::stops::parts::Parts;
use crate::stops::places::PlaceStep;
use crate::stops::scripts::Script;
use crate::stops::servers::{CACHE_PAGES, DeviceServer, open_new};
use crate::stops::tallies::Tests;
use crate::stops::work::hinder_each;
use std::alloc::Global;
use std::io;

/// The scripts with stops, and of how many commits one is stopped where a part of the stops is tried.
const STOPPED: [(&str, usize); 5] = [
    ("revoke_cascades", 1),
    ("revoke_in_a_block", 1),
    ("longest_key", 1),
    ("forty_commits", 8),
    ("revoke_cascades_to_columns", 1),
];

/// The scripts with failing calls, and of how many events the calls of one fail where a part is tried. The database of the
/// last one alone has more than one page, so that there is something to read again.
const FAILING: [(&str, usize); 4] = [
    ("revoke_cascades", 1),
    ("revoke_in_a_block", 1),
    ("write_slot", 1),
    ("forty_commits", 8),
];

/// The script whose database is copied at its end, and of how many stops of the copy one is tried where a part is: no multiple of
/// the sectors of a page.
const COPIED: (&str, usize) = ("forty_commits", 7);

/// How many pages the server keeps where calls fail.
const CACHES: [usize; 2] = [1, CACHE_PAGES];

/// Tries a part of each kind of test, or all of it, and counts what goes otherwise than expected.
pub fn try_stops(
    rt: &HostRuntime,
    alloc: Global,
    all: bool,
    differing: &mut u64,
) -> io::Result<()> {
    let mut tests = Tests::new(alloc, all);
    if let Err(fault) = try_all(rt, alloc, all, &mut tests) {
        *differing = differing.saturating_add(1);
        println!(rt; "stops end early: {fault:?}")?;
    }
    tests.close(rt)?;
    *differing = differing.saturating_add(tests.disagreements());
    tests.print_sums(rt)
}

/// Tries a part of each kind of test, or all of it.
fn try_all(rt: &HostRuntime, alloc: Global, all: bool, tests: &mut Tests) -> Result<(), TestFault> {
    for (name, part) in STOPPED {
        stop_commits(rt, alloc, name, tests.parts.step(part), tests)?;
    }
    for (name, part) in FAILING {
        fail_script(rt, alloc, name, tests.parts.step(part), tests)?;
    }
    for name in &names_of(rt, alloc, ".image")? {
        hinder_image(rt, alloc, name.as_str(), all, tests)?;
    }
    copy_last(rt, alloc, tests)?;
    send_bad_frames(alloc, tests);
    Ok(())
}

/// The script in the file `NAME.stopped`.
fn read_script(rt: &HostRuntime, alloc: Global, name: &str) -> Result<Script, TestFault> {
    let text = text_of(rt, alloc, name, ".stopped")?;
    Script::from_text(alloc, text.as_str())
}

/// Stops each event of a script that commits, or one of `every` of them, and prints a line for each.
fn stop_commits(
    rt: &HostRuntime,
    alloc: Global,
    name: &str,
    every: usize,
    tests: &mut Tests,
) -> Result<(), TestFault> {
    let script = read_script(rt, alloc, name)?;
    let mut left: usize = 0;
    for index in 0..script.talk.events.len() {
        if script.changes_map(index)? {
            if left == 0 {
                stop_commit(alloc, name, &script, index, tests);
                tests.close(rt)?;
                left = every;
            }
            left = left.saturating_sub(1);
        }
    }
    Ok(())
}

/// Stops the event of a script at an index, and adds the line of it.
fn stop_commit(alloc: Global, name: &str, script: &Script, index: usize, tests: &mut Tests) {
    let event = ScriptEvent {
        script,
        index,
        cache: CACHE_PAGES,
    };
    tests.begin(PlaceStep::Events(index));
    hinder_each(alloc, &event, Kind::Stops, tests);
    tests.lines.put(name);
    tests.lines.put(": event ");
    tests
        .lines
        .put_number((index as u64).saturating_add(1), ": ");
    tests.put_stops_and_openings();
}

/// Fails each call of the events of a script, or of one of `every` of them, and each call of an opening at its end. Prints the
/// lines of it for each number of pages that the server keeps.
fn fail_script(
    rt: &HostRuntime,
    alloc: Global,
    name: &str,
    every: usize,
    tests: &mut Tests,
) -> Result<(), TestFault> {
    let script = read_script(rt, alloc, name)?;
    for cache in CACHES {
        fail_events(alloc, &script, cache, every, tests);
        fail_last_openings(alloc, &script, cache, tests)?;
        tests.put_failures_and_openings(name, cache as u64);
        tests.close(rt)?;
    }
    Ok(())
}

/// Fails each call of the events of a script, or of one of `every` of them, of a server that keeps so many pages.
fn fail_events(alloc: Global, script: &Script, cache: usize, every: usize, tests: &mut Tests) {
    for index in (0..script.talk.events.len()).step_by(every.max(1)) {
        let event = ScriptEvent {
            script,
            index,
            cache,
        };
        tests.begin(PlaceStep::Events(index));
        hinder_each(alloc, &event, Kind::Failures, tests);
    }
}

/// Fails each call of an opening after the last event of a script, by a server that keeps so many pages.
fn fail_last_openings(
    alloc: Global,
    script: &Script,
    cache: usize,
    tests: &mut Tests,
) -> Result<(), TestFault> {
    let last = script.talk.events.len();
    let image = image_at_end(alloc, script)?;
    let opening = Opening {
        script,
        image: &image,
        first: last,
        last,
        cache,
    };
    tests.begin(PlaceStep::Events(last));
    hinder_each(alloc, &opening, Kind::Openings, tests);
    Ok(())
}

/// What a device holds after all events of a script.
fn image_at_end(alloc: Global, script: &Script) -> Result<Image, TestFault> {
    let mut server = open_new(alloc, CACHE_PAGES)?;
    let count = script.talk.events.len();
    script.talk.give_first(alloc, count, &mut server)?;
    Image::of(alloc, server.end())
}

/// Stops and fails openings of the device of which the file `NAME.image` tells, if it tells that, stops copies of its database,
/// and prints the line of it.
fn hinder_image(
    rt: &HostRuntime,
    alloc: Global,
    name: &str,
    all: bool,
    tests: &mut Tests,
) -> Result<(), TestFault> {
    let told = DeviceImage::read(rt, alloc, name)?;
    if told.is_stopped {
        tests.parts = Parts::new(all);
        hinder_bytes(alloc, name, told.bytes.as_slice(), tests)?;
        tests.close(rt)?;
    }
    Ok(())
}

/// Stops and fails openings of a device that has these bytes, adds the line of it, and stops copies of its database.
fn hinder_bytes(
    alloc: Global,
    name: &str,
    bytes: &[u8],
    tests: &mut Tests,
) -> Result<(), TestFault> {
    let image = Image::of_bytes(alloc, bytes)?;
    tests.begin(PlaceStep::Events(0));
    hinder_migration(alloc, &image, tests)?;
    tests.lines.put(name);
    tests.lines.put(": migration: ");
    tests.put_stops_and_openings();
    stop_copies(alloc, &image, 1, tests)
}

/// Stops copies of the database at the end of a script.
fn copy_last(rt: &HostRuntime, alloc: Global, tests: &mut Tests) -> Result<(), TestFault> {
    let (name, part) = COPIED;
    let script = read_script(rt, alloc, name)?;
    let source = image_at_end(alloc, &script)?;
    tests.begin(PlaceStep::Events(script.talk.events.len()));
    stop_copies(alloc, &source, tests.parts.step(part) as u64, tests)
}
