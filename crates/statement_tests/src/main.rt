//! Tests of statements: how sections of a description are laid out (`layouts`), what texts stand for (`texts`), what statements over
//! rows answer (`rows`), what records of a database stand for (`records`), statements that define something (`definitions`), and
//! where broken texts go wrong (`places`).
//!
//! A line `part NAME` of standard input begins one of these parts, whose lines follow; what each of them means is said at the head
//! of the part. `records.py`, `definitions.py` and `places.py` read the lines of three of them and write the same answers.
#![tactic(auto)]

mod definitions;
mod layouts;
mod names;
mod places;
mod records;
mod rows;
mod texts;
mod told;
mod values;
mod words;

use crate::definitions::DefinedDatabase;
use crate::records::StoredRecords;
use crate::rows::OpenDatabase;
use crate::told::Told;
use anyhow::{Result, bail};
use std::alloc::Global;
use std::io::{self, BufWriter, Input, Write};

/// What the lines are about.
#[derive(Clone, Copy)]
enum StatementPart {
    Layouts,
    Texts,
    Rows,
    Records,
    Definitions,
    Places,
}

/// The parts, each with what its lines left there.
#[derive(Drop)]
struct StatementTests {
    alloc: Global,
    part: StatementPart,
    rows: OpenDatabase,
    records: StoredRecords,
    definitions: DefinedDatabase,
}

fn main(rt: HostRuntime) -> Result<()> {
    let mut tests = StatementTests::new(rt.alloc())?;
    run(&rt, &mut tests)
}

/// Does what the lines of standard input say, and writes to standard output what comes of them.
fn run(rt: &HostRuntime, tests: &mut StatementTests) -> Result<()> {
    let mut out = BufWriter::new(rt.alloc(), rt.stdout())?;
    for line in rt.lines(rt.alloc()) {
        tests.follow_line(line, &mut out)?;
    }
    tests.finish(&mut out)
}

impl StatementTests {
    /// The parts before any line.
    fn new(alloc: Global) -> Result<StatementTests> {
        let rows = OpenDatabase::new(alloc, "root")?;
        let definitions = DefinedDatabase::new(alloc)?;
        Ok(StatementTests {
            alloc,
            part: StatementPart::Texts,
            rows,
            records: StoredRecords::new(alloc),
            definitions,
        })
    }

    /// Does what a line says that was read, and writes what comes of it.
    fn follow_line<W: Write>(&mut self, line: io::Result<String>, out: &mut W) -> Result<()> {
        let line = line?;
        let mut told = Told::new(self.alloc);
        self.follow(line.as_str(), &mut told)?;
        out.write_all(told.text()?.as_bytes())?;
        Ok(())
    }

    /// Ends the part that is there, and lets all go out.
    fn finish<W: Write>(&self, out: &mut W) -> Result<()> {
        let mut told = Told::new(self.alloc);
        self.end(&mut told);
        out.write_all(told.text()?.as_bytes())?;
        out.flush()?;
        Ok(())
    }

    /// Begins a part, or does what a line of the one that is there says. Tells what comes of it.
    fn follow(&mut self, line: &str, out: &mut Told) -> Result<()> {
        if let Some(name) = line.strip_prefix("part ") {
            return self.begin(name, out);
        }
        match self.part {
            StatementPart::Layouts => layouts::follow(self.alloc, line, out),
            StatementPart::Texts => Ok(texts::follow(self.alloc, line, out)?),
            StatementPart::Rows => self.rows.follow(self.alloc, line, out),
            StatementPart::Records => self.records.follow(line, out),
            StatementPart::Definitions => self.definitions.follow(self.alloc, line, out),
            StatementPart::Places => Ok(places::follow(self.alloc, line, out)?),
        }
    }

    /// Ends the part that is there, and begins the one of this name.
    fn begin(&mut self, name: &str, out: &mut Told) -> Result<()> {
        self.end(out);
        self.part = match name {
            "layouts" => StatementPart::Layouts,
            "texts" => StatementPart::Texts,
            "rows" => StatementPart::Rows,
            "records" => StatementPart::Records,
            "definitions" => StatementPart::Definitions,
            "places" => StatementPart::Places,
            _ => bail!("there is no such part"),
        };
        Ok(())
    }

    /// Tells what is told at the end of the part.
    fn end(&self, out: &mut Told) {
        match self.part {
            StatementPart::Definitions => self.definitions.put_counts(out),
            _ => (),
        }
    }
}
