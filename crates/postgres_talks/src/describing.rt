//! What a connection makes of what a statement would answer.

ghost use Rattle.std.specs.Prelude.{◌≡◌, OnOk};
ghost use Rattle.postgres_talks.specs.Moments.{after_described, after_described_run, after_told, describes_piece, describes_settled, runs_described, tells};
ghost use Rattle.postgres_talks.specs.Labels.{labelled_description};
ghost use Rattle.postgres_talks.specs.Settled.{settled_row};

use crate::labels::labelled_description;
use crate::moment::{DescribedKind, TalkMoment, TalkStage};
use crate::outcome::{Outcome, description_outcome};
use crate::piece::StatementPiece;
use crate::rows::columns_in;
use crate::settled::Settled;
use sql_ast::description::{ResultColumn, StatementDescription};
use sql_types::items::Items;
use sql_types::name::Name;
use std::alloc::{AllocError, Global};
use std::mem;
use talks::want::Want;

impl TalkMoment {
    // Goes on to what Describe asks for.
    pub(crate) fn describe_piece(&mut self, kind: DescribedKind, piece: StatementPiece)
        ensures { self.new ≡ describes_piece kind piece self.old }
    {
        match piece {
            StatementPiece::Select(text) => self.describe(TalkStage::Telling(kind), text),
            StatementPiece::Settled(settled, labels) => {
                self.describe_settled(kind, settled, labels)
            }
            StatementPiece::Faulty(fault) => self.look(TalkStage::Refusing(fault)),
            _ => self.look(TalkStage::TellingNothing(kind)),
        }
    }

    fn describe_settled(
        &mut self,
        kind: DescribedKind,
        settled: Settled,
        labels: Items<Option<Name>>,
    )
        ensures { self.new ≡ describes_settled kind settled labels (settled_row settled) self.old }
    {
        match settled.row() {
            None => self.look(TalkStage::TellingNothing(kind)),
            Some(_) => {
                self.labels = labels;
                self.look(TalkStage::TellingRow(kind, settled));
            }
        }
    }

    // Takes in what a statement would answer, whose columns have these labels.
    pub(crate) fn take_labelled(
        &mut self,
        alloc: Global,
        description: &StatementDescription,
    ) -> Result<(), AllocError>
        ensures { OnOk result (self.new ≡ after_described self.old.stage self.old (labelled_description self.old.labels description.now)) }
    {
        let labelled = labelled_description(alloc, self.labels.as_slice(), description)?;
        self.take_described(alloc, &labelled)
    }

    fn take_described(
        &mut self,
        alloc: Global,
        description: &StatementDescription,
    ) -> Result<(), AllocError>
        ensures { OnOk result (self.new ≡ after_described self.old.stage self.old description.now) }
    {
        match self.stage {
            TalkStage::Describing => self.take_known(alloc, description),
            TalkStage::Telling(kind) => self.take_told(alloc, kind, description),
            TalkStage::Typing(at, candidate) => {
                self.take_typing(alloc, at, candidate, description)
            }
            _ => {
                self.end();
                Ok(())
            }
        }
    }

    // A statement is run if its columns are those that its client knows.
    fn take_known(
        &mut self,
        alloc: Global,
        description: &StatementDescription,
    ) -> Result<(), AllocError>
        ensures { OnOk result (self.new ≡ after_described_run self.old description.now) }
    {
        match description_outcome(&self.columns, self.formats.as_slice(), description) {
            Outcome::Done => {
                self.columns = columns_in(alloc, description)?;
                self.run_described();
            }
            Outcome::Refused(fault) => self.look(TalkStage::Refusing(fault)),
            Outcome::Breaks(_) => self.end(),
        }
        Ok(())
    }

    // Runs the statement of which it was wanted what it would answer.
    fn run_described(&mut self)
        ensures { self.new ≡ runs_described self.old.want self.old }
    {
        match mem::replace(&mut self.want, Want::Message) {
            Want::Description { session: _, text } => self.run(TalkStage::Running, text),
            _ => self.end(),
        }
    }

    // The client is told of its columns.
    fn take_told(
        &mut self,
        alloc: Global,
        kind: DescribedKind,
        description: &StatementDescription,
    ) -> Result<(), AllocError>
        ensures { OnOk result (self.new ≡ after_told kind self.old description.now) }
    {
        match description_outcome(&None, self.formats.as_slice(), description) {
            Outcome::Done => {
                self.tell(alloc, kind, columns_in(alloc, description)?)?;
                self.listen();
            }
            Outcome::Refused(fault) => self.look(TalkStage::Refusing(fault)),
            Outcome::Breaks(_) => self.end(),
        }
        Ok(())
    }

    fn tell(
        &mut self,
        alloc: Global,
        kind: DescribedKind,
        columns: Option<Items<ResultColumn>>,
    ) -> Result<(), AllocError>
        ensures { OnOk result (self.new ≡ tells kind columns self.old) }
    {
        match kind {
            DescribedKind::Statement => self.statements.tell(alloc, self.name.as_str(), columns),
            DescribedKind::Portal => self.portals.tell(alloc, self.name.as_str(), columns),
        }
    }
}
