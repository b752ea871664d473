//! Carries out statements over a store in memory, each by itself and for the role that
//! opened its session, and writes what they are answered. A line is `open NAME ROLE` or
//! `NAME: STATEMENT`, as in scripts, or `ranges NAME: STATEMENT`: of a SELECT, an UPDATE or a DELETE
//! that passes its checks it writes each table with the keys among which its rows would be looked
//! for: one key, a span of keys, or all keys. Of a line `cost NAME: STATEMENT` it writes what the calls of the statement on the store
//! cost ([`CountedMap`]), and commits nothing. A line `new` begins again, over a new database.
//!
//! A line `record KEY / VALUE` puts a record of these bytes (`notation` of `records`) into the store, as if its file had been
//! altered. A SELECT speaks of the records that it read, so it answers `failed Damaged` only where it
//! came to one that spells no row.
//!
//! Which range each table gets, and that the answer is that of the whole table, is proved. Here stand
//! conditions beside the range that a reader would expect, and the answers beside it; and 10,000
//! random queries over small tables with the answers of another program (`random_queries.py` and
//! `model.py` in `scripts/`).

mod counted_map;
mod looked;

use crate::names::name_of;
use crate::records::loading::new_store;
use crate::records::put_record;
use crate::rows::counted_map::CountedMap;
use crate::rows::looked::put_looked_for;
use crate::told::Told;
use anyhow::{Result, bail};
use catalogue::definitions::Catalogue;
use catalogue::effect::Effect;
use catalogue_loading::load;
use server::execute::Execute;
use server::session::Session;
use sql_ast::statement::{DatabaseStatement, Statement};
use sql_parser::parse::parse;
use sql_types::answer::Answer;
use sql_types::name::Name;
use sql_types::state::SqlState;
use sql_types::tag::Tag;
use sql_types::try_copy::TryCopy;
use statements::Statements;
use std::alloc::Global;
use store::{Fault, MemStore, StatementError, Store};
use wire::answers::write_answer;
use wire::output::CountedWriter;

/// A session that is open, and its role.
#[derive(Drop)]
struct TestSession {
    name: String,
    role: Name,
}

/// What a line asks of a statement.
#[derive(Clone, Copy)]
enum Asked {
    /// Its outcome, committed.
    Outcome,
    /// Where it looks for rows.
    Ranges,
    /// What its calls on the store cost.
    Cost,
}

/// A database in memory with the sessions that are open.
#[derive(Drop)]
pub struct OpenDatabase {
    store: MemStore,
    sessions: Vec<TestSession>,
}

impl OpenDatabase {
    /// A new database with a superuser of this name.
    pub fn new(alloc: Global, admin: &str) -> Result<OpenDatabase> {
        Ok(OpenDatabase {
            store: new_store(alloc, admin)?,
            sessions: Vec::new(alloc),
        })
    }

    /// Does what a line says, and tells what is answered.
    pub fn follow(&mut self, alloc: Global, line: &str, out: &mut Told) -> Result<()> {
        if line == "new" {
            return self.begin_again(alloc);
        }
        if let Some(rest) = line.strip_prefix("open ") {
            return self.open(alloc, rest, out);
        }
        if let Some(record) = line.strip_prefix("record ") {
            return put_record(alloc, &mut self.store, record);
        }
        let Some((session, text)) = line.split_once(": ") else {
            bail!("a line is no event");
        };
        let (asked, session) = asked_of(session);
        self.run_statement(alloc, session, text, asked, out)
    }

    fn begin_again(&mut self, alloc: Global) -> Result<()> {
        self.store = new_store(alloc, "root")?;
        self.sessions = Vec::new(alloc);
        Ok(())
    }

    fn open(&mut self, alloc: Global, words: &str, out: &mut Told) -> Result<()> {
        let Some((session, role)) = words.split_once(' ') else {
            bail!("a session has no role");
        };
        let role = name_of(alloc, role)?;
        let name = String::from_str(alloc, session)?;
        self.sessions.push(TestSession { name, role })?;
        put_opened(alloc, out);
        Ok(())
    }

    fn run_statement(
        &mut self,
        alloc: Global,
        session: &str,
        text: &str,
        asked: Asked,
        out: &mut Told,
    ) -> Result<()> {
        let role = role_of(self.sessions.as_slice(), session)?;
        match parse(alloc, text) {
            Ok(statement) => run_parsed(alloc, &mut self.store, role, &statement, asked, out),
            Err(refusal) => Ok(put_refused(alloc, refusal.0, asked, out)),
        }
    }
}

/// What the words before a statement ask of it, and the name of its session.
fn asked_of(words: &str) -> (Asked, &str) {
    if let Some(session) = words.strip_prefix("ranges ") {
        return (Asked::Ranges, session);
    }
    match words.strip_prefix("cost ") {
        Some(session) => (Asked::Cost, session),
        None => (Asked::Outcome, words),
    }
}

/// The role of the session of this name.
fn role_of<'s>(sessions: &'s [TestSession], name: &str) -> Result<&'s Name> {
    for session in sessions {
        if session.name.as_str() == name {
            return Ok(&session.role);
        }
    }
    bail!("a session is not open")
}

/// Tells what is asked of a statement over the database of a store.
fn run_parsed(
    alloc: Global,
    store: &mut MemStore,
    role: &Name,
    statement: &Statement,
    asked: Asked,
    out: &mut Told,
) -> Result<()> {
    let Statement::OnDatabase(statement) = statement else {
        bail!("a statement concerns its session");
    };
    let catalogue = load(alloc, store)?;
    match asked {
        Asked::Outcome => carry_out(alloc, store, &catalogue, role, statement, out),
        Asked::Ranges => Ok(put_ranges(alloc, &catalogue, role, statement, out)),
        Asked::Cost => put_cost(alloc, store, &catalogue, role, statement, out),
    }
}

/// Carries out a statement, commits what it changes and tells its answer.
fn carry_out(
    alloc: Global,
    store: &mut MemStore,
    catalogue: &Catalogue,
    role: &Name,
    statement: &DatabaseStatement,
    out: &mut Told,
) -> Result<()> {
    let session = Session::new(role.try_copy(alloc)?, role.try_copy(alloc)?);
    match Statements.execute(alloc, store, catalogue, &session, statement) {
        Ok(effect) => commit(alloc, store, effect, out),
        Err(StatementError::Refused(code)) => Ok(put_refused(alloc, code, Asked::Outcome, out)),
        Err(StatementError::Failed(Fault::Damaged)) => Ok(out.put("failed Damaged\n")),
        Err(StatementError::Failed(fault)) => bail!(fault),
    }
}

/// Commits what a statement changes, and tells its answer.
fn commit(alloc: Global, store: &mut MemStore, effect: Effect, out: &mut Told) -> Result<()> {
    let Effect {
        answer,
        mut changes,
        schema: _,
    } = effect;
    store.commit(&mut changes)?;
    put_answer(alloc, &answer, out);
    Ok(())
}

/// Tells where a statement looks for rows.
fn put_ranges(
    alloc: Global,
    catalogue: &Catalogue,
    role: &Name,
    statement: &DatabaseStatement,
    out: &mut Told,
) {
    if let DatabaseStatement::OverRows(statement) = statement {
        put_looked_for(alloc, catalogue, role, statement, out);
    }
    out.put("\n");
}

/// Tells what the calls of a statement cost that is carried out and not committed, whether it is answered or refused.
fn put_cost(
    alloc: Global,
    store: &mut MemStore,
    catalogue: &Catalogue,
    role: &Name,
    statement: &DatabaseStatement,
    out: &mut Told,
) -> Result<()> {
    let session = Session::new(role.try_copy(alloc)?, role.try_copy(alloc)?);
    let mut map = CountedMap::new(store);
    if let Err(StatementError::Failed(fault)) = Statements.execute(
        alloc, &mut map, catalogue, &session, statement,
    ) {
        bail!(fault);
    }
    out.put_number("", i128::from(map.spent()));
    out.put("\n");
    Ok(())
}

/// Tells why a statement is refused.
fn put_refused(alloc: Global, code: SqlState, asked: Asked, out: &mut Told) {
    match asked {
        Asked::Outcome => put_answer(alloc, &Answer::Refused(code), out),
        Asked::Ranges | Asked::Cost => out.put_line(&[code.code()]),
    }
}

fn put_opened(alloc: Global, out: &mut Told) {
    let answer = Answer::Done {
        tag: Tag::Open,
        count: None,
        warning: None,
    };
    put_answer(alloc, &answer, out);
}

/// Tells an answer as it is written to a client.
fn put_answer(alloc: Global, answer: &Answer, out: &mut Told) {
    let mut written = Vec::new(alloc);
    let is_written = write_answer(answer, &mut CountedWriter::new(&mut written)).is_ok();
    match std::str::from_utf8(written.as_slice()) {
        Ok(text) if is_written => out.put(text),
        _ => out.refuse(),
    }
}
