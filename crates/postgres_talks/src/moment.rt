//! How a connection stands.

ghost use Rattle.std.specs.Prelude.{◌≡◌, OnOk};
ghost use Rattle.postgres_talks.specs.Outcomes.{commit_outcome, discard_outcome};
ghost use Rattle.postgres_talks.specs.Moments.{after_answer, after_done, after_opened, after_outcome, after_reply, after_rolled_back, asks, closes, closes_or_listens, describes, discards, ends, finishes, first_moment, forgets, goes_on, listens, looks, selects, selects_known, starts_on, writes_unless};

use crate::blocks::{came_out, entered, is_several};
use crate::fault::TalkFault;
use crate::formats::ResultFormats;
use crate::named_pieces::{NamedPiece, NamedPieces};
use crate::outcome::{Outcome, commit_outcome, discard_outcome, outcome_of};
use crate::piece::{LabelledText, PieceQueue, StatementPiece};
use crate::portals::ran;
use crate::settled::Settled;
use sql_ast::description::ResultColumn;
use sql_types::answer::Answer;
use sql_types::event::Event;
use sql_types::items::Items;
use sql_types::name::Name;
use sql_types::state::SqlState;
use sql_types::text::Text;
use statement_parameters::types::ParameterKind;
use std::alloc::{AllocError, Global};
use talks::want::{BlockStanding, Reply, Want};

/// The number of the session of a connection, which has one.
pub(crate) const SESSION: u32 = 1;

/// The block in which the statements of a client stand.
#[derive(Clone, Copy, PartialEq, Eq)]
pub enum TalkBlock {
    /// None is open.
    Outside,
    /// The connection has begun one around several statements of a message.
    Implicit,
    /// The client has begun one.
    Open,
    /// The client has begun one, and an error was said in it.
    Failed,
}

/// By which rules messages are answered.
#[derive(Clone, Copy, PartialEq, Eq)]
pub enum Mode {
    /// The simple query: each message by itself.
    Query,
    /// The extended one: what stands between two Syncs is one transaction.
    Batch,
    /// An error was said in a batch: all is passed over up to Sync.
    Skipping,
}

/// What Describe is about.
#[derive(Clone, Copy, PartialEq, Eq)]
pub enum DescribedKind {
    /// A prepared statement.
    Statement,
    Portal,
}

/// What a connection waits for.
#[derive(Clone, Copy, PartialEq, Eq)]
pub enum TalkStage {
    /// A packet of the start.
    Starting,
    /// The session.
    Opening,
    /// A message.
    Ready,
    /// That the block around several statements is begun.
    Beginning,
    /// What a SELECT would answer that is to be run.
    Describing,
    /// The answer to a statement.
    Running,
    /// The answer to the RESET ROLE of DISCARD ALL.
    Discarding,
    /// How the block stands, where the rows are to be told that are left of the answer to a portal.
    Resuming,
    /// That the block around several statements is committed.
    Committing,
    /// That it is rolled back.
    RollingBack,
    /// How the block stands in which a fault is to be said.
    Refusing(TalkFault),
    /// The refusal of a text that fails this block.
    Failing(TalkFault),
    /// How the block stands then.
    Judging(TalkFault),
    /// How the block stands, where a text is answered without the machine.
    Settling(Settled),
    /// That the session is open, where a text has no statement.
    Emptying,
    /// What a SELECT would answer, which is to be told.
    Telling(DescribedKind),
    /// Whether this is the type of the parameter at an index.
    Typing(usize, ParameterKind),
    /// How the block stands, where the column of a text is to be told that is answered without the machine.
    TellingRow(DescribedKind, Settled),
    /// That the session is open, where it is to be told that there are no rows.
    TellingNothing(DescribedKind),
    /// How the block stands, which is to be said.
    Closing,
    /// Nothing more.
    Ended,
}

/// How a connection stands.
#[derive(Drop)]
pub struct TalkMoment {
    /// The number of its process, as its client is told.
    pub process: u32,
    pub stage: TalkStage,
    pub block: TalkBlock,
    pub mode: Mode,
    /// The statements of a message that are left.
    pub left: PieceQueue,
    /// The columns of the statement that is run, where its client knows them.
    pub columns: Option<Items<ResultColumn>>,
    /// The labels of the columns of the text of which it is wanted what it would answer.
    pub labels: Items<Option<Name>>,
    /// The formats in which its rows are wanted.
    pub formats: ResultFormats,
    /// How many of its rows are asked for at most, or 0 for all.
    pub most: u32,
    /// The name of what is described, or of a statement whose types are to be found.
    pub name: Text,
    /// What was prepared.
    pub statements: NamedPieces,
    /// The portal that is carried out, until it is known what is left of its answer.
    pub portal: Option<NamedPiece>,
    /// What was bound.
    pub portals: NamedPieces,
    /// Whether nothing is written up to the end of its block.
    pub read_only: bool,
    /// What it wants.
    pub want: Want,
}

impl TalkMoment {
    /// How a connection stands of which nothing was heard.
    pub(crate) fn new(alloc: Global, process: u32) -> TalkMoment
        ensures { result ≡ first_moment process }
    {
        TalkMoment {
            process,
            stage: TalkStage::Starting,
            block: TalkBlock::Outside,
            mode: Mode::Query,
            left: PieceQueue::new(alloc),
            columns: None,
            labels: Items::new(alloc),
            formats: ResultFormats::new(alloc),
            most: 0,
            name: Text::from_string(String::new(alloc)),
            statements: NamedPieces::new(alloc),
            portal: None,
            portals: NamedPieces::new(alloc),
            read_only: false,
            want: Want::Message,
        }
    }

    // The event of this text is wanted.
    pub(crate) fn run(&mut self, stage: TalkStage, text: Text)
        ensures { self.new ≡ asks stage text self.old }
    {
        self.stage = stage;
        self.want = Want::Event(Event::Statement {
            session: SESSION,
            text,
        });
    }

    pub(crate) fn ask(
        &mut self,
        alloc: Global,
        stage: TalkStage,
        text: &str,
    ) -> Result<(), AllocError>
        ensures { OnOk result (self.new ≡ asks stage text.now self.old) }
    {
        let text = Text::from_str(alloc, text)?;
        self.run(stage, text);
        Ok(())
    }

    // It is wanted what the statement of this text would answer.
    pub(crate) fn describe(&mut self, stage: TalkStage, text: LabelledText)
        ensures { self.new ≡ describes stage text self.old }
    {
        let LabelledText { text, labels } = text;
        self.stage = stage;
        self.labels = labels;
        self.want = Want::Description {
            session: SESSION,
            text,
        };
    }

    // It is wanted how the block stands.
    pub(crate) fn look(&mut self, stage: TalkStage)
        ensures { self.new ≡ looks stage self.old }
    {
        self.stage = stage;
        self.want = Want::Standing { session: SESSION };
    }

    // The next message is wanted.
    pub(crate) fn listen(&mut self)
        ensures { self.new ≡ listens self.old }
    {
        self.stage = TalkStage::Ready;
        self.want = Want::Message;
    }

    // The end of the connection is wanted.
    pub(crate) fn end(&mut self)
        ensures { self.new ≡ ends self.old }
    {
        self.stage = TalkStage::Ended;
        self.want = Want::End { late: false };
    }

    // Goes on with what is left of the statements of a message.
    pub(crate) fn go_on(&mut self, alloc: Global) -> Result<(), AllocError>
        ensures { OnOk result (self.new ≡ goes_on self.old) }
    {
        if is_several(self.block, self.mode, self.left.len()) {
            return self.ask(alloc, TalkStage::Beginning, "BEGIN");
        }
        match self.left.pop() {
            Some(piece) => self.start_on(alloc, piece),
            None => self.finish(alloc),
        }
    }

    fn start_on(&mut self, alloc: Global, piece: StatementPiece) -> Result<(), AllocError>
        ensures { OnOk result (self.new ≡ starts_on piece self.old) }
    {
        match piece {
            StatementPiece::Statement(text) => self.write(text),
            StatementPiece::Control(text) => self.control(text),
            StatementPiece::BeginReadOnly => return self.begin_read_only(alloc),
            StatementPiece::DiscardAll => return self.discard(alloc),
            StatementPiece::Select(text) => self.select(text),
            StatementPiece::Settled(settled, labels) => self.start_settled(settled, labels),
            StatementPiece::Faulty(fault) => self.look(TalkStage::Refusing(fault)),
            StatementPiece::Empty => self.look(TalkStage::Emptying),
        }
        Ok(())
    }

    // A text is answered without the machine, whose columns have these labels.
    fn start_settled(&mut self, settled: Settled, names: Items<Option<Name>>)
        ensures { self.new ≡ starts_on (StatementPiece.Settled settled names) self.old }
    {
        self.labels = names;
        self.look(TalkStage::Settling(settled));
    }

    // In a block that only reads nothing is written.
    fn write(&mut self, text: Text)
        ensures { self.new ≡ writes_unless self.old.read_only text self.old }
    {
        if self.read_only {
            self.look(TalkStage::Refusing(TalkFault::OnlyReads));
        } else {
            self.control(text);
        }
    }

    fn control(&mut self, text: Text)
        ensures { self.new ≡ asks TalkStage.Running text (record self.old { columns = None }) }
    {
        self.columns = None;
        self.run(TalkStage::Running, text);
    }

    fn begin_read_only(&mut self, alloc: Global) -> Result<(), AllocError>
        ensures { OnOk result (self.new ≡ starts_on StatementPiece.BeginReadOnly self.old) }
    {
        self.columns = None;
        self.read_only = true;
        self.ask(alloc, TalkStage::Running, "BEGIN")
    }

    // What was prepared is forgotten in no block.
    pub(crate) fn discard(&mut self, alloc: Global) -> Result<(), AllocError>
        ensures { OnOk result (self.new ≡ discards self.old.block self.old) }
    {
        match self.block {
            TalkBlock::Outside => return self.ask(alloc, TalkStage::Discarding, "RESET ROLE"),
            TalkBlock::Failed => self.look(TalkStage::Refusing(TalkFault::Refused(
                SqlState::InFailedTransaction,
            ))),
            _ => self.look(TalkStage::Refusing(TalkFault::InsideBlock)),
        }
        Ok(())
    }

    // Before a SELECT is run its columns are asked for, but in a batch where its client was told none.
    fn select(&mut self, text: LabelledText)
        ensures { self.new ≡ selects self.old.mode text self.old }
    {
        match self.mode {
            Mode::Query => {
                self.columns = None;
                self.formats.clear();
                self.describe(TalkStage::Describing, text);
            }
            _ => self.select_known(text),
        }
    }

    fn select_known(&mut self, text: LabelledText)
        ensures { self.new ≡ selects_known self.old.columns text self.old }
    {
        if self.columns.is_none() && self.formats.as_slice().len() <= 1 {
            let LabelledText { text, labels: _ } = text;
            self.run(TalkStage::Running, text);
        } else {
            self.describe(TalkStage::Describing, text);
        }
    }

    // Behind the last statement of a message; a batch goes on up to Sync.
    pub(crate) fn finish(&mut self, alloc: Global) -> Result<(), AllocError>
        ensures { OnOk result (self.new ≡ finishes self.old.block self.old.mode self.old) }
    {
        match (self.mode, self.block) {
            (Mode::Query, TalkBlock::Implicit) => self.ask(alloc, TalkStage::Committing, "COMMIT"),
            (Mode::Query, _) => {
                self.look(TalkStage::Closing);
                Ok(())
            }
            (_, _) => {
                self.listen();
                Ok(())
            }
        }
    }

    /// Takes in what it learns.
    pub(crate) fn take(&mut self, alloc: Global, reply: &Reply) -> Result<(), AllocError>
        ensures { OnOk result (self.new ≡ after_reply self.old reply.now) }
    {
        match reply {
            Reply::Answer(answer) => self.take_answer(alloc, answer),
            Reply::Standing(standing) => self.take_standing(alloc, *standing),
            Reply::Description(description) => self.take_labelled(alloc, description),
            Reply::Verifier(_) => {
                self.end();
                Ok(())
            }
        }
    }

    fn take_answer(&mut self, alloc: Global, answer: &Answer) -> Result<(), AllocError>
        ensures { OnOk result (self.new ≡ after_answer self.old.stage self.old answer.now) }
    {
        match self.stage {
            TalkStage::Opening => {
                self.take_opened(answer);
                Ok(())
            }
            TalkStage::Beginning => {
                self.take_outcome(alloc, outcome_of(self.block, answer), answer)
            }
            TalkStage::Running => {
                let outcome = ran(self, answer);
                self.take_outcome(alloc, outcome, answer)
            }
            TalkStage::Committing => {
                self.take_committed(answer);
                Ok(())
            }
            TalkStage::RollingBack => {
                self.take_rolled_back(answer);
                Ok(())
            }
            TalkStage::Discarding => self.take_discarded(alloc, answer),
            TalkStage::Failing(fault) => {
                self.look(TalkStage::Judging(fault));
                Ok(())
            }
            _ => {
                self.end();
                Ok(())
            }
        }
    }

    fn take_opened(&mut self, answer: &Answer)
        ensures { self.new ≡ after_opened answer.now self.old }
    {
        match answer {
            Answer::Refused(_) => self.end(),
            _ => self.listen(),
        }
    }

    // What an answer comes to.
    fn take_outcome(
        &mut self,
        alloc: Global,
        outcome: Outcome,
        answer: &Answer,
    ) -> Result<(), AllocError>
        ensures { OnOk result (self.new ≡ after_outcome outcome self.old (after_done self.old.stage answer.now self.old)) }
    {
        match outcome {
            Outcome::Done => self.take_done(alloc, answer),
            Outcome::Refused(fault) => {
                self.look(TalkStage::Refusing(fault));
                Ok(())
            }
            Outcome::Breaks(_) => {
                self.end();
                Ok(())
            }
        }
    }

    fn take_done(&mut self, alloc: Global, answer: &Answer) -> Result<(), AllocError>
        ensures { OnOk result (self.new ≡ after_done self.old.stage answer.now self.old) }
    {
        match self.stage {
            TalkStage::Beginning => {
                self.block = entered(self.block);
                self.go_on(alloc)
            }
            _ => {
                self.keep_answer(alloc, answer)?;
                self.go_on(alloc)
            }
        }
    }

    // The block of the connection's own is committed, or is not.
    fn take_committed(&mut self, answer: &Answer)
        ensures { self.new ≡ after_outcome (commit_outcome answer.now) self.old (closes self.old) }
    {
        match commit_outcome(answer) {
            Outcome::Done => {
                self.block = came_out(self.block);
                self.portals.clear();
                self.read_only = false;
                self.look(TalkStage::Closing);
            }
            Outcome::Refused(fault) => self.look(TalkStage::Refusing(fault)),
            Outcome::Breaks(_) => self.end(),
        }
    }

    fn take_discarded(&mut self, alloc: Global, answer: &Answer) -> Result<(), AllocError>
        ensures { OnOk result (self.new ≡ after_outcome (discard_outcome answer.now) self.old (goes_on (forgets self.old))) }
    {
        match discard_outcome(answer) {
            Outcome::Done => {
                self.statements.clear();
                self.portal = None;
                self.portals.clear();
                return self.go_on(alloc);
            }
            Outcome::Refused(fault) => self.look(TalkStage::Refusing(fault)),
            Outcome::Breaks(_) => self.end(),
        }
        Ok(())
    }

    fn take_rolled_back(&mut self, answer: &Answer)
        ensures { self.new ≡ after_rolled_back answer.now self.old }
    {
        match answer {
            Answer::Refused(_) => self.end(),
            _ => {
                self.block = came_out(self.block);
                self.portals.clear();
                self.read_only = false;
                self.close_or_listen();
            }
        }
    }

    fn close_or_listen(&mut self)
        ensures { self.new ≡ closes_or_listens self.old.mode self.old }
    {
        match self.mode {
            Mode::Query => self.look(TalkStage::Closing),
            _ => self.listen(),
        }
    }
}
