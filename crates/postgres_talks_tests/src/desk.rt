//! A desk that answers one session: it keeps how its block stands, and knows a few statements.

ghost use Rattle.std.specs.Prelude.{IfOk, IfSome};
ghost use Rattle.talks.specs.Wants.{FitsWant};
ghost use Rattle.talks.specs.declared.want.Reply.{Reply as TheReply};
ghost use Rattle.sql_types.specs.declared.answer.Answer.{Answer as TheAnswer};

use sql_ast::columns::ColumnType;
use sql_ast::description::{ResultColumn, StatementDescription};
use sql_types::answer::Answer;
use sql_types::event::Event;
use sql_types::items::Items;
use sql_types::state::SqlState;
use sql_types::tag::Tag;
use sql_types::text::Text;
use sql_types::value::Value;
use sql_types::warning::Warning;
use std::alloc::{AllocError, Global};
use talks::want::{BlockStanding, Reply, Want};

/// The desk.
#[derive(Drop)]
pub struct PostgresDesk {
    alloc: Global,
    block: BlockStanding,
}

impl PostgresDesk {
    /// No block is open.
    pub fn new(alloc: Global) -> PostgresDesk {
        PostgresDesk {
            alloc,
            block: BlockStanding::Outside,
        }
    }

    /// The reply to what is wanted, where that is a step or a question.
    pub fn reply(&mut self, want: &Want) -> Result<Option<Reply>, AllocError>
        ensures { IfOk result (λ reply. IfSome reply (λ r. FitsWant want.now r)) }
    {
        match want {
            Want::Event(Event::Statement { session: _, text }) => {
                let answer = self.answer(text.as_str())?;
                Ok(Some(Reply::Answer(answer)))
            }
            Want::Event(_) => Ok(Some(Reply::Answer(done(Tag::Close, None, None)))),
            Want::Open {
                session: _,
                login,
                entry: _,
            } => Ok(Some(Reply::Answer(opened(login.as_str())))),
            Want::Description { session: _, text } => {
                let description = self.description(text.as_str())?;
                Ok(Some(Reply::Description(description)))
            }
            Want::Standing { session: _ } => Ok(Some(Reply::Standing(Some(self.block)))),
            _ => Ok(None),
        }
    }

    // The answer to a statement.
    fn answer(&mut self, text: &str) -> Result<Answer, AllocError> {
        match text {
            "ROLLBACK" | "COMMIT" => Ok(self.end(text == "COMMIT")),
            _ if matches!(self.block, BlockStanding::Failed) => {
                Ok(Answer::Refused(SqlState::InFailedTransaction))
            }
            "BEGIN" => Ok(self.begin()),
            "SELECT 0" => Ok(Answer::Rows(Items::new(self.alloc))),
            "SELECT 1" | "SELECT 2" => Ok(Answer::Rows(one_row(self.alloc)?)),
            "SELECT 1     " | "SELECT a       , b, c        , d FROM t" => {
                Ok(Answer::Rows(one_row(self.alloc)?))
            }
            "SELECT a        , b, c        , d FROM t WHERE w =   '''; AS z --'" => {
                Ok(Answer::Rows(one_row(self.alloc)?))
            }
            "SELECT 5" => Ok(Answer::Rows(five_rows(self.alloc)?)),
            "INSERT INTO t VALUES (1)" => Ok(done(Tag::Insert, Some(2), None)),
            "UPDATE t SET x = 1" => Ok(done(Tag::Update, Some(3), None)),
            "INSERT   (-5)" => Ok(done(Tag::Insert, Some(1), None)),
            "RESET ROLE" => Ok(done(Tag::Reset, None, None)),
            "CREATE TABLE" => Ok(done(Tag::CreateTable, None, None)),
            "DROP TABLE memory" => Ok(Answer::Refused(SqlState::OutOfMemory)),
            "DROP TABLE device" => Ok(Answer::Refused(SqlState::IoError)),
            _ => Ok(self.refuse(SqlState::SyntaxError)),
        }
    }

    // What a statement would answer. What it tells of `SELECT 2` is not so.
    fn description(&self, text: &str) -> Result<StatementDescription, AllocError> {
        if matches!(self.block, BlockStanding::Failed) {
            return Ok(StatementDescription::Refused(SqlState::InFailedTransaction));
        }
        match text {
            "SELECT 0" | "SELECT 1" => Ok(StatementDescription::Rows(four_columns(self.alloc)?)),
            "SELECT 1     " | "SELECT a       , b, c        , d FROM t" => {
                Ok(StatementDescription::Rows(four_columns(self.alloc)?))
            }
            "SELECT a        , b, c        , d FROM t WHERE w =   '' "
            | "SELECT a        , b, c        , d FROM t WHERE w =   '''; AS z --'" => {
                Ok(StatementDescription::Rows(four_columns(self.alloc)?))
            }
            "SELECT 2" | "SELECT 5" => Ok(StatementDescription::Rows(one_column(self.alloc)?)),
            "INSERT   '' " => Ok(StatementDescription::Refused(SqlState::DatatypeMismatch)),
            "INSERT   0 " | "INSERT   NULL " => Ok(StatementDescription::NoRows),
            _ => Ok(StatementDescription::Refused(SqlState::SyntaxError)),
        }
    }

    fn begin(&mut self) -> Answer {
        match self.block {
            BlockStanding::Outside => {
                self.block = BlockStanding::Inside;
                done(Tag::Begin, None, None)
            }
            _ => done(Tag::Begin, None, Some(Warning::ActiveTransaction)),
        }
    }

    fn end(&mut self, commits: bool) -> Answer {
        let block = self.block;
        self.block = BlockStanding::Outside;
        let tag = if commits && !matches!(block, BlockStanding::Failed) {
            Tag::Commit
        } else {
            Tag::Rollback
        };
        match block {
            BlockStanding::Outside => done(tag, None, Some(Warning::NoActiveTransaction)),
            _ => done(tag, None, None),
        }
    }

    // A refusal but for memory fails the block.
    fn refuse(&mut self, state: SqlState) -> Answer {
        if matches!(self.block, BlockStanding::Inside) {
            self.block = BlockStanding::Failed;
        }
        Answer::Refused(state)
    }
}

fn opened(login: &str) -> Answer {
    match login {
        "nobody" => Answer::Refused(SqlState::InvalidAuthorization),
        _ => done(Tag::Open, None, None),
    }
}

fn done(tag: Tag, count: Option<u64>, warning: Option<Warning>) -> Answer {
    Answer::Done {
        tag,
        count,
        warning,
    }
}

// A row of each kind of value.
fn one_row(alloc: Global) -> Result<Items<Items<Value>>, AllocError> {
    let mut row = Items::new(alloc);
    row.push(Value::Int(-12))?;
    row.push(Value::Text(Text::from_str(alloc, "a'b")?))?;
    row.push(Value::Bool(true))?;
    row.push(Value::Null)?;
    let mut rows = Items::new(alloc);
    rows.push(row)?;
    Ok(rows)
}

// The numbers from 1 to 5.
fn five_rows(alloc: Global) -> Result<Items<Items<Value>>, AllocError> {
    let mut rows = Items::new(alloc);
    for number in 1..6 {
        let mut row = Items::new(alloc);
        row.push(Value::Int(number))?;
        rows.push(row)?;
    }
    Ok(rows)
}

// A column of each type, and one more.
fn four_columns(alloc: Global) -> Result<Items<ResultColumn>, AllocError> {
    let mut columns = Items::new(alloc);
    columns.push(column(alloc, "number", ColumnType::BigInt)?)?;
    columns.push(column(alloc, "word", ColumnType::Text)?)?;
    columns.push(column(alloc, "truth", ColumnType::Boolean)?)?;
    columns.push(column(alloc, "?column?", ColumnType::BigInt)?)?;
    Ok(columns)
}

fn one_column(alloc: Global) -> Result<Items<ResultColumn>, AllocError> {
    let mut columns = Items::new(alloc);
    columns.push(column(alloc, "number", ColumnType::BigInt)?)?;
    Ok(columns)
}

fn column(alloc: Global, name: &str, column_type: ColumnType) -> Result<ResultColumn, AllocError> {
    Ok(ResultColumn {
        name: Text::from_str(alloc, name)?,
        column_type,
    })
}
