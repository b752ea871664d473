//! Transactions: BEGIN, START TRANSACTION, COMMIT, ROLLBACK.

ghost use Rattle.sql_lexer.specs.Lexeme.{lexemes};
ghost use Rattle.sql_grammar.specs.LookAhead.{IsReading, Reads};
ghost use Rattle.sql_commands.specs.Commands.{begin as a_begin, start_transaction as a_start, commit as a_commit, rollback as a_rollback, work as a_work};

use crate::steps::token;
use expr_parser::parse_error::ParseError;
use expr_parser::reader::has;
use sql_ast::statement::{SessionStatement, Statement};
use sql_grammar::expect::unreserved;
use sql_grammar::words::skip;
use sql_lexer::token::{Token, TokenKind, Unreserved};

// [WORK | TRANSACTION]
fn skip_work(tokens: &[Token], at: usize) -> usize
    ensures { IsReading a_work (lexemes tokens.now) at result tt }
{
    if has(tokens, at, TokenKind::Unreserved(Unreserved::Work)) {
        return at + 1;
    }
    skip(tokens, at, TokenKind::Unreserved(Unreserved::Transaction))
}

/// `BEGIN [WORK | TRANSACTION]`, and its end.
pub fn begin(tokens: &[Token]) -> Result<(Statement, usize), ParseError>
    ensures { Reads a_begin (lexemes tokens.now) 0 result }
{
    let at_work = unreserved(tokens, 0, Unreserved::Begin)?;
    let end = skip_work(tokens, at_work);
    Ok((Statement::OfSession(SessionStatement::Begin), end))
}

/// `COMMIT [WORK | TRANSACTION]`, and its end.
pub fn commit(tokens: &[Token]) -> Result<(Statement, usize), ParseError>
    ensures { Reads a_commit (lexemes tokens.now) 0 result }
{
    let at_work = unreserved(tokens, 0, Unreserved::Commit)?;
    let end = skip_work(tokens, at_work);
    Ok((Statement::OfSession(SessionStatement::Commit), end))
}

/// `ROLLBACK [WORK | TRANSACTION]`, and its end.
pub fn rollback(tokens: &[Token]) -> Result<(Statement, usize), ParseError>
    ensures { Reads a_rollback (lexemes tokens.now) 0 result }
{
    let at_work = unreserved(tokens, 0, Unreserved::Rollback)?;
    let end = skip_work(tokens, at_work);
    Ok((Statement::OfSession(SessionStatement::Rollback), end))
}

/// `START TRANSACTION`, and its end.
pub fn start_transaction(tokens: &[Token]) -> Result<(Statement, usize), ParseError>
    ensures { Reads a_start (lexemes tokens.now) 0 result }
{
    let read = token(
        tokens,
        Ok(((), 0)),
        TokenKind::Unreserved(Unreserved::Start),
    );
    let ((), end) = token(tokens, read, TokenKind::Unreserved(Unreserved::Transaction))?;
    Ok((Statement::OfSession(SessionStatement::Begin), end))
}
