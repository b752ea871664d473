//! Carries out statements that define something, each by itself, and writes what each
//! comes to. A line is `SESSION CURRENT: STATEMENT`: the role of the session, the role that issues the
//! statement, and its text. The statement is carried out, what it changes committed to a store in
//! memory, and the definitions loaded from the store's records again. Its line of the output has its
//! answer, and a digest of these definitions, of which role is in which, and of what each role may do
//! with each table, and with which of its columns where these are not all; and it says so where they
//! differ from the definitions that were prepared. A line `new` begins again, over a new database
//! whose superuser is r0, and a line `definitions` has all that the digest is of written out. A line
//! `may ROLE: STATEMENT` asks whether a role may issue a statement, which is not carried out. A line
//! that begins with `#` is written as it stands.
//!
//! That the statements do what the definitions of the language say, and that what is loaded is what
//! was prepared, is proved; here both stand beside `definitions.py`, another program, which follows the
//! rules of the language as they are written, and writes the same lines.

mod asking;
mod dump;
mod rights;

use crate::definitions::asking::put_asked;
use crate::definitions::dump::put_definitions;
use crate::definitions::rights::put_rights;
use crate::names::name_of;
use crate::records::loading::new_store;
use crate::told::Told;
use anyhow::{Result, bail};
use byteorder::{BigEndian, ByteOrder};
use catalogue::change::SchemaChange;
use catalogue::definitions::Catalogue;
use catalogue::effect::Effect;
use catalogue::staged::Staged;
use catalogue_loading::{check_rows, load};
use md5::{Digest, Md5};
use schema_statements::{
    MembershipStatement, PrivilegeStatement, alter_table, create_role, create_table, drop_role,
    drop_table, grant_or_revoke, grant_or_revoke_roles,
};
use sql_ast::statement::{DatabaseStatement, DefiningStatement, Statement};
use sql_parser::parse::parse;
use sql_types::answer::Answer;
use sql_types::name::Name;
use sql_types::state::SqlState;
use sql_types::try_copy::TryCopy;
use std::alloc::{AllocError, Global};
use store::{Batch, Fault, MemStore, StatementError, Store};

/// The superuser of a new database.
const ADMIN: &str = "r0";

/// A database in memory, and what was counted of the statements so far.
#[derive(Drop)]
pub struct DefinedDatabase {
    store: MemStore,
    /// The definitions that the store holds.
    catalogue: Catalogue,
    /// Their digest.
    digest: u64,
    statements: u64,
    /// After how many statements the store did not hold the definitions that it should.
    differences: u64,
}

/// The role that issues a statement, and that of its session.
#[derive(Drop)]
struct Issuer {
    current: Name,
    session: Name,
}

impl DefinedDatabase {
    /// A new database.
    pub fn new(alloc: Global) -> Result<DefinedDatabase> {
        let mut store = new_store(alloc, ADMIN)?;
        let catalogue = load(alloc, &mut store)?;
        let digest = digest_of(alloc, &catalogue)?;
        Ok(DefinedDatabase {
            store,
            catalogue,
            digest,
            statements: 0,
            differences: 0,
        })
    }

    /// Does what a line says, and tells what it comes to.
    pub fn follow(&mut self, alloc: Global, line: &str, out: &mut Told) -> Result<()> {
        if line.starts_with("#") {
            out.put_line(&[line]);
            return Ok(());
        }
        match line.split_once(": ") {
            None if line == "new" => self.begin_again(alloc, out),
            None if line == "definitions" => Ok(put_all(alloc, &self.catalogue, out)?),
            None => bail!("a line is no statement"),
            Some((roles, text)) => match roles.strip_prefix("may ") {
                Some(role) => self.ask(alloc, role, text, out),
                None => self.issue(alloc, roles, text, out),
            },
        }
    }

    /// Tells how many statements there were, and how often the store did not hold the definitions
    /// that it should.
    pub fn put_counts(&self, out: &mut Told) {
        out.put_number("statements ", self.statements as i128);
        out.put_number(", differences ", self.differences as i128);
        out.put("\n");
    }

    fn begin_again(&mut self, alloc: Global, out: &mut Told) -> Result<()> {
        self.store = new_store(alloc, ADMIN)?;
        self.load(alloc)?;
        out.put("new\n");
        Ok(())
    }

    /// Loads the definitions that the store holds, and checks its rows.
    fn load(&mut self, alloc: Global) -> Result<(), Fault> {
        self.catalogue = load(alloc, &mut self.store)?;
        check_rows(alloc, &mut self.store, &self.catalogue)?;
        self.digest = digest_of(alloc, &self.catalogue)?;
        Ok(())
    }

    /// Tells whether the role of a name may issue a statement.
    fn ask(&self, alloc: Global, role: &str, text: &str, out: &mut Told) -> Result<()> {
        let role = name_of(alloc, role)?;
        put_asked(alloc, &self.catalogue, &role, text, out);
        Ok(())
    }

    /// Carries out a statement that roles of these names issue, and tells what it comes to. That of the
    /// session stands first.
    fn issue(&mut self, alloc: Global, roles: &str, text: &str, out: &mut Told) -> Result<()> {
        let Some((session, current)) = roles.split_once(' ') else {
            bail!("a statement has no issuer");
        };
        let session = name_of(alloc, session)?;
        let current = name_of(alloc, current)?;
        let issuer = Issuer { current, session };
        Ok(self.carry_out(alloc, &issuer, text, out)?)
    }

    /// Carries out a statement, counts it, and tells what it comes to.
    fn carry_out(
        &mut self,
        alloc: Global,
        issuer: &Issuer,
        text: &str,
        out: &mut Told,
    ) -> Result<(), Fault> {
        let (answer, prepared) = self.executed(alloc, issuer, text)?;
        self.load(alloc)?;
        out.put_all(&[answer, " "]);
        out.put_bytes(&self.digest.to_be_bytes());
        out.put_line(&[self.count(prepared)]);
        Ok(())
    }

    /// Carries out a statement and commits what it changes: the answer, and the digest of the
    /// definitions that should be there after it, which is the one before where it is refused.
    fn executed(
        &mut self,
        alloc: Global,
        issuer: &Issuer,
        text: &str,
    ) -> Result<(&'static str, u64), Fault> {
        let before = self.catalogue.try_copy(alloc)?;
        match effect_of_text(alloc, &self.catalogue, &mut self.store, issuer, text) {
            Ok(effect) => self.make(alloc, before, effect),
            Err(StatementError::Refused(code)) => Ok((code.code(), self.digest)),
            Err(StatementError::Failed(fault)) => Err(fault),
        }
    }

    /// Commits what a statement changes: its answer, and the digest of the definitions that should be
    /// there after it, made of those before.
    fn make(
        &mut self,
        alloc: Global,
        before: Catalogue,
        effect: Effect,
    ) -> Result<(&'static str, u64), Fault> {
        let Effect {
            answer,
            mut changes,
            schema,
        } = effect;
        let digest = self.commit(alloc, before, &mut changes, schema)?;
        Ok((word_of(&answer), digest))
    }

    /// Commits changes, and gives the digest of the definitions that should be there after them.
    fn commit(
        &mut self,
        alloc: Global,
        before: Catalogue,
        changes: &mut Batch,
        schema: Option<SchemaChange>,
    ) -> Result<u64, Fault> {
        let after = changed(before, schema)?;
        self.store.commit(changes)?;
        Ok(digest_of(alloc, &after)?)
    }

    /// Counts a statement after which the store should hold the definitions of a digest, and says
    /// whether it holds others.
    fn count(&mut self, prepared: u64) -> &'static str {
        self.statements = self.statements.saturating_add(1);
        if self.digest == prepared {
            return "";
        }
        self.differences = self.differences.saturating_add(1);
        " differs"
    }
}

/// The digest of a catalogue: the first eight bytes of the MD5 digest of its text.
fn digest_of(alloc: Global, catalogue: &Catalogue) -> Result<u64, AllocError> {
    let mut text = Told::new(alloc);
    put_all(alloc, catalogue, &mut text)?;
    Ok(BigEndian::read_u64(&Md5::digest(text.text()?.as_bytes())))
}

/// Tells the definitions of a catalogue, and what they let each role do.
fn put_all(alloc: Global, catalogue: &Catalogue, out: &mut Told) -> Result<(), AllocError> {
    put_definitions(out, catalogue);
    put_rights(alloc, catalogue, out)
}

/// The definitions with a change made in them, if there is one.
fn changed(catalogue: Catalogue, schema: Option<SchemaChange>) -> Result<Catalogue, AllocError> {
    let Some(change) = schema else {
        return Ok(catalogue);
    };
    match Staged::new(catalogue, change) {
        Ok(staged) => Ok(staged.make()),
        Err(_) => Err(AllocError),
    }
}

/// The word for an answer: the code of its warning, if there is one.
fn word_of(answer: &Answer) -> &'static str {
    match answer {
        Answer::Done {
            warning: Some(warning),
            ..
        } => warning.code(),
        _ => "ok",
    }
}

/// What the statement of a text comes to.
fn effect_of_text(
    alloc: Global,
    catalogue: &Catalogue,
    store: &mut MemStore,
    issuer: &Issuer,
    text: &str,
) -> Result<Effect, StatementError> {
    let statement = parse(alloc, text)?;
    match &statement {
        Statement::OnDatabase(DatabaseStatement::Defining(statement)) => effect_of(
            alloc, catalogue, store, issuer, statement,
        ),
        Statement::OnDatabase(DatabaseStatement::OverRows(_)) | Statement::OfSession(_) => Err(
            StatementError::Refused(SqlState::SyntaxError),
        ),
    }
}

/// What a statement that defines something comes to. Policies are not tried here.
fn effect_of(
    alloc: Global,
    catalogue: &Catalogue,
    store: &mut MemStore,
    issuer: &Issuer,
    statement: &DefiningStatement,
) -> Result<Effect, StatementError> {
    let (current, session) = (&issuer.current, &issuer.session);
    match statement {
        DefiningStatement::Grant(s) => {
            grant_or_revoke(alloc, catalogue, current, PrivilegeStatement::Grant(s))
        }
        DefiningStatement::Revoke(s) => {
            grant_or_revoke(alloc, catalogue, current, PrivilegeStatement::Revoke(s))
        }
        DefiningStatement::CreateTable(s) => create_table(alloc, catalogue, current, s),
        DefiningStatement::AlterTable(s) => alter_table(alloc, catalogue, current, s),
        DefiningStatement::DropTable(s) => drop_table(alloc, store, catalogue, current, s),
        DefiningStatement::CreateRole(s) => create_role(alloc, catalogue, current, s),
        DefiningStatement::DropRole(s) => drop_role(alloc, catalogue, current, session, s),
        DefiningStatement::GrantRole(s) => {
            grant_or_revoke_roles(alloc, catalogue, current, MembershipStatement::Grant(s))
        }
        DefiningStatement::RevokeRole(s) => {
            grant_or_revoke_roles(alloc, catalogue, current, MembershipStatement::Revoke(s))
        }
        DefiningStatement::CreatePolicy(_) | DefiningStatement::DropPolicy(_) => Err(
            StatementError::Refused(SqlState::SyntaxError),
        ),
    }
}
