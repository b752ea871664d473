//! Whole statements: one command, up to the end of the tokens or to a `;` that is the last of them.

ghost use Rattle.std.specs.Prelude.{◌↔◌, IsTrue};
ghost use Rattle.sql_lexer.specs.Lexeme.{ArePlaced, lexemes};
ghost use Rattle.expr_parser.specs.Stages.{ReadsAll};
ghost use Rattle.sql_commands.specs.Statements.{EndsAt, SpellsAs, SpellsStatement};

use crate::command::{COMMANDS, Command, read_as};
use expr_parser::parse_error::ParseError;
use expr_parser::reader::has;
use sql_ast::statement::Statement;
use sql_lexer::token::{Punctuation, Token, TokenKind};
use std::alloc::Global;

// Whether the tokens end at an index, or with a semicolon there.
fn ends_at(tokens: &[Token], at: usize) -> bool
    ensures { IsTrue result ↔ EndsAt (lexemes tokens.now) at }
{
    if has(tokens, at, TokenKind::Punctuation(Punctuation::Semicolon)) {
        return at + 1 == tokens.len();
    }
    at == tokens.len()
}

// The statement that the tokens, all of them, spell as one command.
fn statement_as(
    alloc: Global,
    source: &str,
    tokens: &[Token],
    command: Command,
) -> Result<Statement, ParseError>
    requires { ArePlaced source.now (lexemes tokens.now) }
    ensures { ReadsAll (SpellsAs source.now command) (lexemes tokens.now) result }
{
    let (statement, end) = read_as(alloc, source, tokens, command)?;
    if ends_at(tokens, end) {
        Ok(statement)
    } else {
        Err(ParseError::Syntax)
    }
}

/// The statement that the tokens of a source spell, all of them but for a `;` that may end them
/// (PostgreSQL manual, 4.1, "Lexical Structure"). It is the only one: the law
/// [`one_statement`](crate::laws::one_statement). `Syntax` comes only where they spell none, `Memory`
/// where memory was refused. The caller's tokens are slices of the source. The time is in proportion
/// to the tokens: each command is tried, and all but three end at their first two tokens.
pub fn statement(alloc: Global, source: &str, tokens: &[Token]) -> Result<Statement, ParseError>
    requires { ArePlaced source.now (lexemes tokens.now) }
    ensures { ReadsAll (SpellsStatement source.now) (lexemes tokens.now) result }
{
    for command in &COMMANDS {
        match statement_as(alloc, source, tokens, *command) {
            Ok(statement) => return Ok(statement),
            Err(ParseError::Memory) => return Err(ParseError::Memory),
            Err(ParseError::Syntax) => {}
        }
    }
    Err(ParseError::Syntax)
}
