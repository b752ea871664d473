//! Texts, read.

ghost use Rattle.std.specs.Prelude.{◌≤◌, length, IfOk, OnErr};
ghost use Rattle.expr_parser.specs.Stages.{max_text_length};
ghost use Rattle.sessions.specs.Readings.{ReadsText};

use sql_ast::statement::Statement;
use sql_parser::parse::parse;
use sql_types::state::{Refusal, SqlState};
use std::alloc::{AllocError, Global};

/// What a text is read as: its statement, or the code of the first stage of the parser that refuses
/// it. The only error is that an allocation failed, and it comes only for a text of at most 65,536
/// bytes. The time is in proportion to the text.
pub fn read_text(alloc: Global, text: &str) -> Result<Result<Statement, SqlState>, AllocError>
    ensures reads { IfOk result (ReadsText text.now) }
    ensures memory { OnErr result (length text.now ≤ max_text_length) }
{
    match parse(alloc, text) {
        Ok(statement) => Ok(Ok(statement)),
        Err(Refusal(SqlState::OutOfMemory)) => Err(AllocError),
        Err(Refusal(code)) => Ok(Err(code)),
    }
}
