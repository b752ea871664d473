//! One of the statements of a text.

ghost use Rattle.std.specs.Prelude.{◌≡◌, [], ◌∷◌, ◌++◌, length, MatchOption, OnOk};
ghost use Rattle.postgres_talks.specs.Labels.{bare};

use crate::fault::TalkFault;
use crate::settled::Settled;
use sql_types::items::Items;
use sql_types::name::Name;
use sql_types::text::Text;
use sql_types::try_copy::TryCopy;
use std::alloc::{AllocError, Global};
use std::collections::VecDeque;
use std::marker::Model;

/// The text of a SELECT without the labels of its columns, and those labels.
#[derive(Drop)]
pub struct LabelledText {
    pub text: Text,
    /// For each column its label, if it has one; those behind the last have none.
    pub labels: Items<Option<Name>>,
}

impl LabelledText {
    // A text without labels.
    pub(crate) fn bare(alloc: Global, text: Text) -> LabelledText
        ensures { result ≡ bare text }
    {
        LabelledText {
            text,
            labels: Items::new(alloc),
        }
    }
}

impl TryCopy for LabelledText {
    fn try_copy(&self, alloc: Global) -> Result<LabelledText, AllocError> {
        let text = self.text.try_copy(alloc)?;
        let labels = self.labels.try_copy(alloc)?;
        Ok(LabelledText { text, labels })
    }
}

/// One of the statements of a text.
#[derive(Drop)]
pub enum StatementPiece {
    /// The machine is asked.
    Statement(Text),
    /// The machine is asked, and no row is written: blocks begin and end, and roles are set.
    Control(Text),
    /// The machine is asked for a block, in which nothing is written.
    BeginReadOnly,
    /// The machine is asked for the role of the login, and what was prepared is forgotten.
    DiscardAll,
    /// The machine is asked, and answers rows.
    Select(LabelledText),
    /// It is answered without the machine, and its columns have these labels.
    Settled(Settled, Items<Option<Name>>),
    /// It has a fault.
    Faulty(TalkFault),
    /// There is none.
    Empty,
}

impl TryCopy for StatementPiece {
    fn try_copy(&self, alloc: Global) -> Result<StatementPiece, AllocError> {
        match self {
            StatementPiece::Statement(text) => Ok(StatementPiece::Statement(text.try_copy(alloc)?)),
            StatementPiece::Control(text) => Ok(StatementPiece::Control(text.try_copy(alloc)?)),
            StatementPiece::BeginReadOnly => Ok(StatementPiece::BeginReadOnly),
            StatementPiece::DiscardAll => Ok(StatementPiece::DiscardAll),
            StatementPiece::Select(text) => Ok(StatementPiece::Select(text.try_copy(alloc)?)),
            StatementPiece::Settled(settled, labels) => {
                Ok(StatementPiece::Settled(*settled, labels.try_copy(alloc)?))
            }
            StatementPiece::Faulty(fault) => Ok(StatementPiece::Faulty(*fault)),
            StatementPiece::Empty => Ok(StatementPiece::Empty),
        }
    }
}

/// Statements in the order in which they stand, which contracts see as a list.
#[derive(Drop)]
pub struct PieceQueue {
    pieces: VecDeque<StatementPiece>,
}

impl Model for PieceQueue {
    ghost use Rattle.std.specs.Prelude.{List};
    ghost use Rattle.postgres_talks.specs.declared.piece.StatementPiece.{StatementPiece};

    ghost Value = { List StatementPiece };

    ghost view = { λ q. q.pieces.items };
}

impl PieceQueue {
    /// No statement.
    pub fn new(alloc: Global) -> PieceQueue
        ensures { result ≡ [] }
    {
        PieceQueue {
            pieces: VecDeque::new(alloc),
        }
    }

    /// How many there are.
    pub fn len(&self) -> usize
        ensures { result ≡ length self.now }
    {
        self.pieces.len()
    }

    /// Puts one behind the others.
    pub fn push(&mut self, piece: StatementPiece) -> Result<(), AllocError>
        ensures { OnOk result (self.new ≡ self.old ++ piece ∷ []) }
    {
        self.pieces.push_back(piece)?;
        Ok(())
    }

    /// Takes the first, or answers `None` where there is none.
    pub fn pop(&mut self) -> Option<StatementPiece>
        ensures { MatchOption result ((self.old ≡ []) × (self.new ≡ [])) (λ first. self.old ≡ first ∷ self.new) }
    {
        self.pieces.pop_front()
    }

    /// Takes all away.
    pub fn clear(&mut self)
        ensures { self.new ≡ [] }
    {
        self.pieces.clear();
    }
}
