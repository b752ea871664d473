//! Statements under names: those that are prepared, and portals.

ghost use Rattle.std.specs.Prelude.{◌≡◌, [], length, slice_get, IfOk, None, OnOk};
ghost use Rattle.std.specs.List.{remove};
ghost use Rattle.std.specs.Option.{option_copied};
ghost use Rattle.postgres_talks.specs.Named.{find, place_of, put, put_bound, tell, without};
ghost use Rattle.postgres_talks.specs.Portals.{room_behind, suspend};

use crate::fault::TalkFault;
use crate::formats::ResultFormats;
use crate::parameters::TypedTemplate;
use crate::piece::StatementPiece;
use crate::portals::room_behind;
use crate::rows::copied;
use sql_ast::description::ResultColumn;
use sql_types::items::Items;
use sql_types::text::Text;
use sql_types::try_copy::TryCopy;
use sql_types::value::Value;
use std::alloc::{AllocError, Global};
use std::marker::Model;

/// A statement under a name; one is unnamed, and has the empty name.
#[derive(Drop)]
pub struct NamedPiece {
    pub name: Text,
    pub piece: StatementPiece,
    /// The columns of its rows, where its client was told them.
    pub columns: Option<Items<ResultColumn>>,
    /// The formats in which they are wanted.
    pub formats: ResultFormats,
    /// Its template and their types, where it has parameters. The statement is then one with samples, by which it is described.
    pub parameters: Option<TypedTemplate>,
    /// The rows that are left of its answer, where it is a portal that was carried out.
    pub rest: Option<Items<Items<Value>>>,
}

impl NamedPiece {
    // What values make of it, under another name, with these formats.
    fn bound(
        &self,
        alloc: Global,
        name: Text,
        piece: StatementPiece,
        formats: ResultFormats,
    ) -> Result<NamedPiece, AllocError>
        ensures { IfOk result (λ copy. copy ≡ record self.now { name = name; piece = piece; formats = formats; parameters = None; rest = None }) }
    {
        Ok(NamedPiece {
            name,
            piece,
            columns: copied(alloc, &self.columns)?,
            formats,
            parameters: None,
            rest: None,
        })
    }

    // A copy with other columns.
    fn told(
        &self,
        alloc: Global,
        columns: Option<Items<ResultColumn>>,
    ) -> Result<NamedPiece, AllocError>
        ensures { IfOk result (λ copy. copy ≡ record self.now { columns = columns }) }
    {
        Ok(NamedPiece {
            name: self.name.try_copy(alloc)?,
            piece: self.piece.try_copy(alloc)?,
            columns,
            formats: self.formats.try_copy(alloc)?,
            parameters: self.parameters.try_copy(alloc)?,
            rest: self.rest.try_copy(alloc)?,
        })
    }
}

/// Statements under names, which contracts see as a list.
#[derive(Drop)]
pub struct NamedPieces {
    entries: Vec<NamedPiece>,
}

impl Model for NamedPieces {
    ghost use Rattle.std.specs.Prelude.{List};
    ghost use Rattle.postgres_talks.specs.declared.named_pieces.NamedPiece.{NamedPiece};

    ghost Value = { List NamedPiece };

    ghost view = { λ n. n.entries.items };
}

impl NamedPieces {
    /// None.
    pub fn new(alloc: Global) -> NamedPieces
        ensures { result ≡ [] }
    {
        NamedPieces {
            entries: Vec::new(alloc),
        }
    }

    /// How many there are.
    pub fn len(&self) -> usize
        ensures { result ≡ length self.now }
    {
        self.entries.len()
    }

    /// What is there under a name.
    pub fn find(&self, name: &str) -> Option<&NamedPiece>
        ensures { option_copied result ≡ find name.now self.now }
    {
        find(&self.entries, name)
    }

    /// Takes those of a name away.
    pub fn remove(&mut self, name: &str)
        ensures { self.new ≡ without name.now self.old }
    {
        remove_from(&mut self.entries, name);
    }

    /// Takes those of a name away, and gives out the first, or answers `None` where there is none.
    pub fn take(&mut self, name: &str) -> Option<NamedPiece>
        ensures taken { result ≡ find name.now self.old }
        ensures left { self.new ≡ without name.now self.old }
    {
        take_from(&mut self.entries, name)
    }

    /// Puts a portal back, if there is one, with the rows that are left of its answer.
    pub fn suspend(
        &mut self,
        portal: Option<NamedPiece>,
        rest: Items<Items<Value>>,
    ) -> Result<(), AllocError>
        ensures { OnOk result (self.new ≡ suspend portal rest self.old) }
    {
        match portal {
            None => Ok(()),
            Some(mut entry) => {
                entry.rest = Some(rest);
                self.put(entry)
            }
        }
    }

    /// Puts one in the place of those of its name.
    pub fn put(&mut self, entry: NamedPiece) -> Result<(), AllocError>
        ensures { OnOk result (self.new ≡ put entry self.old) }
    {
        self.remove(entry.name.as_str());
        self.entries.push(entry)?;
        Ok(())
    }

    /// The client is told these columns of what is there under a name.
    pub fn tell(
        &mut self,
        alloc: Global,
        name: &str,
        columns: Option<Items<ResultColumn>>,
    ) -> Result<(), AllocError>
        ensures { OnOk result (self.new ≡ tell name.now columns self.old) }
    {
        let Some(entry) = self.find(name) else {
            return Ok(());
        };
        let told = entry.told(alloc, columns)?;
        self.put(told)
    }

    /// Puts what values have made of what was found elsewhere under a name, if they made something of it.
    pub fn put_bound(
        &mut self,
        alloc: Global,
        name: Text,
        formats: ResultFormats,
        bound: Result<StatementPiece, TalkFault>,
        found: Option<&NamedPiece>,
    ) -> Result<(), AllocError>
        ensures { OnOk result (self.new ≡ put_bound name formats bound (option_copied found.entry) self.old) }
    {
        match (bound, found) {
            (Ok(piece), Some(entry)) => {
                let copy = entry.bound(alloc, name, piece, formats)?;
                self.put(copy)
            }
            _ => Ok(()),
        }
    }

    /// What is left of so many bytes behind the rows that are kept, or `None` where they are more.
    pub fn room_behind(&self, room: usize) -> Option<usize>
        ensures { result ≡ room_behind room self.now }
    {
        room_behind(room, &self.entries)
    }

    /// Takes all away.
    pub fn clear(&mut self)
        ensures { self.new ≡ [] }
    {
        self.entries.clear();
    }
}

fn find<'a>(mut entries: &'a [NamedPiece], name: &str) -> Option<&'a NamedPiece>
    ensures { option_copied result ≡ find name.now entries.entry.now }
{
    while let [first, rest @ ..] = entries {
        if first.name.as_str() == name {
            return Some(first);
        }
        entries = rest;
    }
    None
}

// Takes those of a name away.
fn remove_from(entries: &mut Vec<NamedPiece>, name: &str)
    ensures { entries.new.items ≡ without name.now entries.old.items }
{
    entries.retain(|entry| entry.name.as_str() != name);
}

// Takes those of a name away, and gives out the first.
#[tactic(auto, using(crate::proofs::Finding::taken_so, crate::proofs::Finding::left_so))]
fn take_from(entries: &mut Vec<NamedPiece>, name: &str) -> Option<NamedPiece>
    ensures taken { result ≡ find name.now entries.old.items }
    ensures left { entries.new.items ≡ without name.now entries.old.items }
{
    let at = place_in(entries, name);
    let taken = taken_at(entries, at);
    remove_from(entries, name);
    taken
}

fn place_in(entries: &Vec<NamedPiece>, name: &str) -> usize
    ensures { result ≡ place_of name.now entries.now.items }
{
    place(entries, name)
}

// Takes the one at an index out, if there is one.
#[tactic(auto, using(crate::proofs::Finding::got_at, crate::proofs::Finding::none_at, crate::proofs::Finding::all_left))]
fn taken_at(entries: &mut Vec<NamedPiece>, at: usize) -> Option<NamedPiece>
    ensures taken { result ≡ slice_get entries.old.items at }
    ensures left { entries.new.items ≡ remove entries.old.items at }
{
    if at < entries.len() {
        Some(entries.remove(at))
    } else {
        None
    }
}

// The index of the first of a name, or the number of entries where there is none.
fn place(entries: &[NamedPiece], name: &str) -> usize
    ensures { result ≡ place_of name.now entries.now }
{
    let mut at = 0;
    let mut rest = entries;
    while let [first, others @ ..] = rest {
        if first.name.as_str() == name {
            return at;
        }
        at += 1;
        rest = others;
    }
    at
}
