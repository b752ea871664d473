//! What was tried of each kind, and what went otherwise than expected.

use crate::lines::Lines;
use crate::stops::fault::TestFault;
use crate::stops::kinds::Kind;
use crate::stops::parts::Parts;
use crate::stops::places::PlaceStep;
use std::alloc::Global;
use std::io;

/// How often something was tried.
#[derive(Clone, Copy)]
pub struct Tally {
    /// How many stops there were, how many calls failed, or how many frames were sent.
    pub tried: u64,
    /// How many of the calls that failed were reads.
    pub reads: u64,
    /// How many devices were opened after them.
    pub opened: u64,
    /// How often something went otherwise than expected.
    pub disagreements: u64,
}

impl Tally {
    /// Nothing was tried.
    fn none() -> Tally {
        Tally {
            tried: 0,
            reads: 0,
            opened: 0,
            disagreements: 0,
        }
    }

    /// Adds what was tried at one more place.
    fn add(&mut self, more: Tally) {
        self.tried = self.tried.saturating_add(more.tried);
        self.reads = self.reads.saturating_add(more.reads);
        self.opened = self.opened.saturating_add(more.opened);
        self.disagreements = self.disagreements.saturating_add(more.disagreements);
    }
}

/// What was tried of each kind.
#[derive(Clone, Copy)]
pub struct Tallies {
    stops: Tally,
    second_stops: Tally,
    failures: Tally,
    openings: Tally,
    copies: Tally,
    frames: Tally,
}

impl Tallies {
    /// Nothing was tried.
    fn none() -> Tallies {
        Tallies {
            stops: Tally::none(),
            second_stops: Tally::none(),
            failures: Tally::none(),
            openings: Tally::none(),
            copies: Tally::none(),
            frames: Tally::none(),
        }
    }

    /// The tally of a kind.
    fn of(&mut self, kind: Kind) -> &mut Tally {
        match kind {
            Kind::Stops => &mut self.stops,
            Kind::SecondStops => &mut self.second_stops,
            Kind::Failures => &mut self.failures,
            Kind::Openings | Kind::LateOpenings => &mut self.openings,
            Kind::Copies => &mut self.copies,
            Kind::Frames => &mut self.frames,
        }
    }

    /// How often something went otherwise than expected.
    fn disagreements(&self) -> u64 {
        let mut sum: u64 = 0;
        for tally in [
            self.stops,
            self.second_stops,
            self.failures,
            self.openings,
            self.copies,
            self.frames,
        ] {
            sum = sum.saturating_add(tally.disagreements);
        }
        sum
    }

    /// Adds what was tried at one more place.
    fn add(&mut self, more: &Tallies) {
        self.stops.add(more.stops);
        self.second_stops.add(more.second_stops);
        self.failures.add(more.failures);
        self.openings.add(more.openings);
        self.copies.add(more.copies);
        self.frames.add(more.frames);
    }
}

/// The words behind the numbers of a line of stops and openings.
const STOPS_AND_OPENINGS: [&str; 7] = [
    " stops, ",
    " devices, ",
    " second stops, ",
    " devices, ",
    " failing calls of openings, ",
    " devices, ",
    " disagreements\n",
];

/// The words behind the numbers of a line of stops.
const STOPS: [&str; 3] = [", ", " devices opened, ", " disagreements\n"];

/// The words behind the numbers of a line of calls.
const CALLS: [&str; 4] = [
    ", ",
    " of them reads, ",
    " devices opened, ",
    " disagreements\n",
];

/// What was tried, at one place and in the whole run, and which parts of the tests are taken.
#[derive(Drop)]
pub struct Tests {
    /// Which parts are taken.
    pub parts: Parts,
    /// The lines that are printed next: of disagreements, and of what was tried.
    pub lines: Lines,
    /// The place that is tried.
    place: Vec<PlaceStep>,
    /// What was tried since the last line was printed.
    now: Tallies,
    /// What was tried in the whole run.
    sums: Tallies,
}

impl Tests {
    /// Nothing was tried of all tests, or of a part of them.
    pub fn new(alloc: Global, all: bool) -> Tests {
        Tests {
            parts: Parts::new(all),
            lines: Lines::new(alloc),
            place: Vec::new(alloc),
            now: Tallies::none(),
            sums: Tallies::none(),
        }
    }

    /// Begins at a place.
    pub fn begin(&mut self, step: PlaceStep) {
        self.place.clear();
        self.enter(step);
    }

    /// Takes a step to the place that is tried.
    pub fn enter(&mut self, step: PlaceStep) {
        if self.place.push(step).is_err() {
            self.lines.refuse();
        }
    }

    /// Takes the last step back. What was tried there went as expected, or not.
    pub fn leave(&mut self, kind: Kind, tried: Result<(), TestFault>) {
        if let Err(fault) = tried {
            self.disagree(kind, fault);
        }
        let _step = self.place.pop();
    }

    /// Counts one more that was tried.
    pub fn count_tried(&mut self, kind: Kind) {
        let tally = self.now.of(kind);
        tally.tried = tally.tried.saturating_add(1);
    }

    /// Counts so many calls more that were reads.
    pub fn count_reads(&mut self, kind: Kind, reads: u64) {
        let tally = self.now.of(kind);
        tally.reads = tally.reads.saturating_add(reads);
    }

    /// Counts one more device that was opened.
    pub fn count_opened(&mut self, kind: Kind) {
        let tally = self.now.of(kind);
        tally.opened = tally.opened.saturating_add(1);
    }

    /// Counts a disagreement, and adds a line of it.
    pub fn disagree(&mut self, kind: Kind, fault: TestFault) {
        let tally = self.now.of(kind);
        tally.disagreements = tally.disagreements.saturating_add(1);
        self.lines.put_debug(&self.place, ": disagreement: ");
        self.lines.put_debug(&fault, "\n");
    }

    /// How often something went otherwise than expected in the whole run, up to the last line.
    pub fn disagreements(&self) -> u64 {
        self.sums.disagreements()
    }

    /// Prints the lines, and begins to count anew for the next.
    pub fn close(&mut self, rt: &HostRuntime) -> io::Result<()> {
        self.sums.add(&self.now);
        self.now = Tallies::none();
        self.lines.print(rt)
    }

    /// Adds a line of how many stops there were, and how many openings failed, behind what was put.
    pub fn put_stops_and_openings(&mut self) {
        let now = self.now;
        let numbers = [
            now.stops.tried,
            now.stops.opened,
            now.second_stops.tried,
            now.second_stops.opened,
            now.openings.tried,
            now.openings.opened,
            now.disagreements(),
        ];
        self.lines.put_numbers(&numbers, &STOPS_AND_OPENINGS);
    }

    /// Adds lines of how many calls failed, of the server of a script that keeps so many pages.
    pub fn put_failures_and_openings(&mut self, name: &str, cache: u64) {
        let now = self.now;
        self.put_server(name, cache);
        self.put_calls("failing calls: ", now.failures);
        self.put_server(name, cache);
        self.put_calls("failing calls of openings: ", now.openings);
    }

    /// Adds the name of a script, and how many pages its server keeps.
    fn put_server(&mut self, name: &str, cache: u64) {
        self.lines.put(name);
        self.lines.put(": cache of ");
        self.lines.put_number(cache, " pages: ");
    }

    /// Prints a line of each kind for the whole run.
    pub fn print_sums(&mut self, rt: &HostRuntime) -> io::Result<()> {
        let sums = self.sums;
        self.put_stops("stops: ", sums.stops);
        self.put_stops("second stops: ", sums.second_stops);
        self.put_calls("failing calls: ", sums.failures);
        self.put_calls("failing calls of openings: ", sums.openings);
        self.lines.put("stops of copies: ");
        self.lines
            .put_number(sums.copies.disagreements, " disagreements\n");
        self.lines.put("bad frames: ");
        self.lines.put_number(sums.frames.tried, ", ");
        self.lines
            .put_number(sums.frames.disagreements, " disagreements\n");
        self.lines.print(rt)
    }

    /// Adds a line of stops.
    fn put_stops(&mut self, name: &str, tally: Tally) {
        let numbers = [tally.tried, tally.opened, tally.disagreements];
        self.lines.put(name);
        self.lines.put_numbers(&numbers, &STOPS);
    }

    /// Adds a line of calls that failed.
    fn put_calls(&mut self, name: &str, tally: Tally) {
        let numbers = [tally.tried, tally.reads, tally.opened, tally.disagreements];
        self.lines.put(name);
        self.lines.put_numbers(&numbers, &CALLS);
    }
}
