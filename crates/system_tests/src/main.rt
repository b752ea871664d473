//! Gives the events of every script of the folder that it is started in to a server, and opens the devices that files of it tell.
//! Prints a line for each: what was run, and how many answers came as expected, or the first one that differs.
//!
//! A script `NAME.script` has beside it the file `NAME.expected`, which holds the answers. All of its events are handed at once to a
//! server over a store in memory, and to one life of a database on a device. In `NAME.long`, a script with long lines, and in what
//! it is answered, `{N*X}` stands for N times X. So it does in `NAME.small`, a script for a device of 64 pages alone. A script with an
//! invalid line, of which a message is expected, is left out: it ends in the program alone. So `tests/test_commands.py` hands it to
//! that, with the files of this folder of which nothing is said here: command lines, frames, and orders that something outside of the
//! program hinders.
//!
//! Devices whose bytes stand in files `NAME.image` are opened, as `opened_images` tells, those of an earlier format among them. A
//! server is given what no script can show.
//!
//! At last the whole server is stopped, and calls of its device fail, as `stops` tells: a part of these tests is tried. With
//! the word `all` nothing else is tried, and all of them are.
#![tactic(auto)]

mod answers;
mod device_images;
mod event_lists;
mod events;
mod files;
mod lines;
mod long_scripts;
mod opened_images;
mod reports;
mod servers;
mod stops;
mod stores;
mod unscripted;

use crate::event_lists::{Taker, answers_of, has_message};
use crate::files::{names_of, text_of};
use crate::long_scripts::expanded;
use crate::opened_images::printed_of;
use crate::reports::report;
use crate::stops::try_stops;
use crate::stores::{PAGES, SMALL_PAGES};
use crate::unscripted::check_unscripted;
use std::alloc::Global;
use std::process::ExitCode;
use std::{env, io};

/// What is done with a file of the folder.
#[derive(Clone, Copy)]
enum Test {
    /// All events of a script are given at once.
    Script(Taker),
    /// The same of a script with long lines.
    LongScript(Taker),
    /// A device is opened.
    Image,
}

/// What is done with the files of each ending: what a line begins with, and what is tried.
const SCRIPTS: [(&str, Test); 2] = [
    ("at once", Test::Script(Taker::Server)),
    ("in a life", Test::Script(Taker::Life(PAGES))),
];

const LONG_SCRIPTS: [(&str, Test); 2] = [
    ("at once", Test::LongScript(Taker::Server)),
    ("in a life", Test::LongScript(Taker::Life(PAGES))),
];

const SMALL_SCRIPTS: [(&str, Test); 1] = [(
    "in a life on 64 pages",
    Test::LongScript(Taker::Life(SMALL_PAGES)),
)];

const IMAGES: [(&str, Test); 1] = [("image", Test::Image)];

impl Test {
    /// What comes of the file of a name.
    fn given(
        self,
        rt: &HostRuntime,
        alloc: Global,
        name: &str,
        ending: &str,
    ) -> io::Result<String> {
        match self {
            Test::Script(taker) => {
                answers_of(alloc, taker, text_of(rt, alloc, name, ending)?.as_str())
            }
            Test::LongScript(taker) => {
                answers_of(alloc, taker, expanded_of(rt, alloc, name, ending)?.as_str())
            }
            Test::Image => printed_of(rt, alloc, name),
        }
    }

    /// What is expected for the file of a name.
    fn expected(self, rt: &HostRuntime, alloc: Global, name: &str) -> io::Result<String> {
        match self {
            Test::Image => text_of(rt, alloc, name, ".opened"),
            Test::LongScript(_) => expanded_of(rt, alloc, name, ".expected"),
            Test::Script(_) => text_of(rt, alloc, name, ".expected"),
        }
    }
}

/// The text of the file of a name and an ending, in which `{N*X}` stands for N times X.
fn expanded_of(rt: &HostRuntime, alloc: Global, name: &str, ending: &str) -> io::Result<String> {
    let text = text_of(rt, alloc, name, ending)?;
    Ok(expanded(alloc, text.as_str())?)
}

fn main(rt: HostRuntime) -> io::Result<ExitCode> {
    match count_differing(&rt, rt.alloc())? {
        0 => Ok(ExitCode::SUCCESS),
        _ => Ok(ExitCode::FAILURE),
    }
}

/// Tries all that there is, or with the word `all` the stops alone, and tells how often something else came than is expected.
fn count_differing(rt: &HostRuntime, alloc: Global) -> io::Result<u64> {
    let all = tries_all(rt)?;
    let mut differing = 0;
    if !all {
        run_parts(rt, alloc, &mut differing)?;
    }
    try_stops(rt, alloc, all, &mut differing)?;
    Ok(differing)
}

/// Whether the first word on the command line is `all`.
fn tries_all(rt: &HostRuntime) -> io::Result<bool> {
    match env::args(rt)?.nth(1) {
        Some(word) => Ok(word.as_str() == "all"),
        None => Ok(false),
    }
}

/// Gives the scripts, and opens the devices.
fn run_parts(rt: &HostRuntime, alloc: Global, differing: &mut u64) -> io::Result<()> {
    try_files(rt, alloc, ".script", &SCRIPTS, differing)?;
    try_files(rt, alloc, ".long", &LONG_SCRIPTS, differing)?;
    try_files(rt, alloc, ".small", &SMALL_SCRIPTS, differing)?;
    try_files(rt, alloc, ".image", &IMAGES, differing)?;
    check_unscripted(rt, alloc, differing)
}

/// Tries the files with this ending in the order of their names, each in every one of these ways, and counts those for which
/// something else comes than is expected.
fn try_files(
    rt: &HostRuntime,
    alloc: Global,
    ending: &str,
    tests: &[(&str, Test)],
    differing: &mut u64,
) -> io::Result<()> {
    for name in &names_of(rt, alloc, ending)? {
        for (what, test) in tests {
            try_file(rt, alloc, what, *test, name.as_str(), ending, differing)?;
        }
    }
    Ok(())
}

/// Tries a file of which no message is expected, and prints the line of it.
fn try_file(
    rt: &HostRuntime,
    alloc: Global,
    what: &str,
    test: Test,
    name: &str,
    ending: &str,
    differing: &mut u64,
) -> io::Result<()> {
    let expected = test.expected(rt, alloc, name)?;
    if has_message(expected.as_str()) {
        return Ok(());
    }
    let given = test.given(rt, alloc, name, ending)?;
    report(rt, what, name, expected.as_str(), given.as_str(), differing)
}
