//! Rows: INSERT, UPDATE, DELETE.

ghost use Rattle.sql_lexer.specs.Lexeme.{lexemes};
ghost use Rattle.sql_grammar.specs.LookAhead.{Reads};
ghost use Rattle.sql_commands.specs.Commands.{insert as an_insert, update as an_update, delete as a_delete};

use crate::list::{InParentheses, ListOf};
use crate::optional::Optional;
use crate::production::{Production, Readable};
use crate::steps::{after_word, then, token};
use expr_parser::parse_error::ParseError;
use sql_ast::expr::Expr;
use sql_ast::statement::{
    Assignment, DatabaseStatement, Delete, Insert, RowStatement, Statement, Update,
};
use sql_lexer::token::{Punctuation, Reserved, Token, TokenKind, Unreserved};
use sql_types::name::Name;
use std::alloc::Global;

/// `name "=" expr`
impl Readable for Assignment {
    ghost use Rattle.std.specs.Prelude.{refl};
    ghost use Rattle.sql_commands.specs.Commands.{an_assignment};

    type Value = Assignment;

    ghost phrase = { an_assignment };

    fn read(alloc: Global, tokens: &[Token], at: usize) -> Result<(Assignment, usize), ParseError> {
        let read = then::<_, Name>(alloc, tokens, Ok(((), at)));
        let read = token(tokens, read, TokenKind::Punctuation(Punctuation::Equal));
        let ((((), column), value), end) = then::<_, Expr>(alloc, tokens, read)?;
        Ok((Assignment { column, value }, end))
    }

    ghost determined = { refl };
}

impl Production for Assignment {
    ghost use Rattle.std.specs.Prelude.{refl};

    ghost listable = { refl };
}

/// `INSERT INTO name ["(" names ")"] VALUES row {"," row}`, and its end.
pub fn insert(alloc: Global, tokens: &[Token]) -> Result<(Statement, usize), ParseError>
    ensures { Reads an_insert (lexemes tokens.now) 0 result }
{
    let read = token(
        tokens,
        Ok(((), 0)),
        TokenKind::Unreserved(Unreserved::Insert),
    );
    let read = token(tokens, read, TokenKind::Reserved(Reserved::Into));
    let read = then::<_, Name>(alloc, tokens, read);
    let read = then::<_, Optional<InParentheses<Name>>>(alloc, tokens, read);
    let read = token(tokens, read, TokenKind::Unreserved(Unreserved::Values));
    let (((((), table), columns), rows), end) = then::<_, ListOf<InParentheses<Expr>>>(
        alloc, tokens, read,
    )?;
    Ok((
        Statement::OnDatabase(DatabaseStatement::OverRows(RowStatement::Insert(Insert {
            table,
            columns,
            rows,
        }))),
        end,
    ))
}

/// `UPDATE name SET assignment {"," assignment} [WHERE expr]`, and its end.
pub fn update(alloc: Global, tokens: &[Token]) -> Result<(Statement, usize), ParseError>
    ensures { Reads an_update (lexemes tokens.now) 0 result }
{
    let read = token(
        tokens,
        Ok(((), 0)),
        TokenKind::Unreserved(Unreserved::Update),
    );
    let read = then::<_, Name>(alloc, tokens, read);
    let read = token(tokens, read, TokenKind::Unreserved(Unreserved::Set));
    let read = then::<_, ListOf<Assignment>>(alloc, tokens, read);
    let (((((), table), assignments), condition), end) = after_word::<_, Expr>(
        alloc,
        tokens,
        read,
        TokenKind::Reserved(Reserved::Where),
    )?;
    Ok((
        Statement::OnDatabase(DatabaseStatement::OverRows(RowStatement::Update(Update {
            table,
            assignments,
            condition,
        }))),
        end,
    ))
}

/// `DELETE FROM name [WHERE expr]`, and its end.
pub fn delete(alloc: Global, tokens: &[Token]) -> Result<(Statement, usize), ParseError>
    ensures { Reads a_delete (lexemes tokens.now) 0 result }
{
    let read = token(
        tokens,
        Ok(((), 0)),
        TokenKind::Unreserved(Unreserved::Delete),
    );
    let read = token(tokens, read, TokenKind::Reserved(Reserved::From));
    let read = then::<_, Name>(alloc, tokens, read);
    let ((((), table), condition), end) = after_word::<_, Expr>(
        alloc,
        tokens,
        read,
        TokenKind::Reserved(Reserved::Where),
    )?;
    Ok((
        Statement::OnDatabase(DatabaseStatement::OverRows(RowStatement::Delete(Delete {
            table,
            condition,
        }))),
        end,
    ))
}
