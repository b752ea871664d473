//! Tables: CREATE TABLE, DROP TABLE, ALTER TABLE.

ghost use Rattle.sql_lexer.specs.Lexeme.{lexemes};
ghost use Rattle.sql_grammar.specs.LookAhead.{Reads};
ghost use Rattle.sql_commands.specs.Commands.{create_table as a_create_table, drop_table as a_drop_table, alter_table as an_alter_table};

use crate::list::InParentheses;
use crate::production::{KnownProduction, Production, Readable};
use crate::repeated::Repeated;
use crate::steps::{then, token};
use expr_parser::parse_error::ParseError;
use expr_parser::reader::has;
use sql_ast::columns::ColumnType;
use sql_ast::statement::{
    AlterTable, ColumnConstraint, ColumnDefinition, CreateTable, DatabaseStatement,
    DefiningStatement, DropTable, RowSecurityChange, Statement, TableElement,
};
use sql_grammar::expect::reserved;
use sql_grammar::word_of::{begins_word, word_of};
use sql_lexer::token::{Reserved, Token, TokenKind, Unreserved};
use sql_types::name::Name;
use std::alloc::Global;

// BIGINT | TEXT | BOOLEAN | BOOL
const TYPES: [(TokenKind, ColumnType); 4] = [
    (
        TokenKind::Unreserved(Unreserved::Bigint),
        ColumnType::BigInt,
    ),
    (TokenKind::Unreserved(Unreserved::Text), ColumnType::Text),
    (
        TokenKind::Unreserved(Unreserved::Boolean),
        ColumnType::Boolean,
    ),
    (TokenKind::Unreserved(Unreserved::Bool), ColumnType::Boolean),
];

/// `BIGINT | TEXT | BOOLEAN | BOOL`
impl Readable for ColumnType {
    ghost use Rattle.std.specs.Prelude.{refl};
    ghost use Rattle.sql_commands.specs.Commands.{a_type};

    type Value = ColumnType;

    ghost phrase = { a_type };

    fn read(_: Global, tokens: &[Token], at: usize) -> Result<(ColumnType, usize), ParseError> {
        word_of(tokens, at, &TYPES)
    }

    ghost determined = { refl };
}

/// `NOT NULL | PRIMARY KEY`
impl Readable for ColumnConstraint {
    ghost use Rattle.std.specs.Prelude.{refl};
    ghost use Rattle.sql_commands.specs.Commands.{a_constraint};

    type Value = ColumnConstraint;

    ghost phrase = { a_constraint };

    fn read(
        alloc: Global,
        tokens: &[Token],
        at: usize,
    ) -> Result<(ColumnConstraint, usize), ParseError> {
        if has(tokens, at, TokenKind::Reserved(Reserved::Not)) {
            let end = reserved(tokens, at + 1, Reserved::Null)?;
            return Ok((ColumnConstraint::NotNull, end));
        }
        let read = token(tokens, Ok(((), at)), TokenKind::Reserved(Reserved::Primary));
        let ((), end) = token(tokens, read, TokenKind::Unreserved(Unreserved::Key))?;
        Ok((ColumnConstraint::PrimaryKey, end))
    }

    ghost determined = { refl };
}

impl Production for ColumnConstraint {
    ghost use Rattle.std.specs.Prelude.{refl};

    ghost listable = { refl };
}

impl KnownProduction for ColumnConstraint {
    ghost use Rattle.std.specs.Prelude.{refl};

    fn begins(tokens: &[Token], at: usize) -> bool {
        begins_word(tokens, at, &FIRST_OF_CONSTRAINTS)
    }

    ghost repeatable = { refl };
}

// The words with which a constraint begins.
const FIRST_OF_CONSTRAINTS: [(TokenKind, ()); 2] = [
    (TokenKind::Reserved(Reserved::Not), ()),
    (TokenKind::Reserved(Reserved::Primary), ()),
];

/// `PRIMARY KEY "(" names ")" | name type {NOT NULL | PRIMARY KEY}`
impl Readable for TableElement {
    ghost use Rattle.std.specs.Prelude.{refl};
    ghost use Rattle.sql_commands.specs.Commands.{an_element};

    type Value = TableElement;

    ghost phrase = { an_element };

    fn read(
        alloc: Global,
        tokens: &[Token],
        at: usize,
    ) -> Result<(TableElement, usize), ParseError> {
        if has(tokens, at, TokenKind::Reserved(Reserved::Primary)) {
            let read = token(
                tokens,
                Ok(((), at + 1)),
                TokenKind::Unreserved(Unreserved::Key),
            );
            let (((), columns), end) = then::<_, InParentheses<Name>>(alloc, tokens, read)?;
            return Ok((TableElement::PrimaryKey(columns), end));
        }
        let read = then::<_, Name>(alloc, tokens, Ok(((), at)));
        let read = then::<_, ColumnType>(alloc, tokens, read);
        let (((((), column), column_type), constraints), end) = then::<
            _,
            Repeated<ColumnConstraint>,
        >(alloc, tokens, read)?;
        let definition = ColumnDefinition {
            column,
            column_type,
            constraints,
        };
        Ok((TableElement::Column(definition), end))
    }

    ghost determined = { refl };
}

impl Production for TableElement {
    ghost use Rattle.std.specs.Prelude.{refl};

    ghost listable = { refl };
}

/// `CREATE TABLE name "(" element {"," element} ")"`, and its end.
pub fn create_table(alloc: Global, tokens: &[Token]) -> Result<(Statement, usize), ParseError>
    ensures { Reads a_create_table (lexemes tokens.now) 0 result }
{
    let read = token(tokens, Ok(((), 0)), TokenKind::Reserved(Reserved::Create));
    let read = token(tokens, read, TokenKind::Reserved(Reserved::Table));
    let read = then::<_, Name>(alloc, tokens, read);
    let ((((), table), elements), end) = then::<_, InParentheses<TableElement>>(
        alloc, tokens, read,
    )?;
    Ok((
        Statement::OnDatabase(DatabaseStatement::Defining(DefiningStatement::CreateTable(
            CreateTable { table, elements },
        ))),
        end,
    ))
}

/// `DROP TABLE name`, and its end.
pub fn drop_table(alloc: Global, tokens: &[Token]) -> Result<(Statement, usize), ParseError>
    ensures { Reads a_drop_table (lexemes tokens.now) 0 result }
{
    let read = token(tokens, Ok(((), 0)), TokenKind::Unreserved(Unreserved::Drop));
    let read = token(tokens, read, TokenKind::Reserved(Reserved::Table));
    let (((), table), end) = then::<_, Name>(alloc, tokens, read)?;
    Ok((
        Statement::OnDatabase(DatabaseStatement::Defining(DefiningStatement::DropTable(DropTable {
            table,
        }))),
        end,
    ))
}

// ENABLE | DISABLE | FORCE
const CHANGES: [(TokenKind, RowSecurityChange); 3] = [
    (
        TokenKind::Unreserved(Unreserved::Enable),
        RowSecurityChange::Enable,
    ),
    (
        TokenKind::Unreserved(Unreserved::Disable),
        RowSecurityChange::Disable,
    ),
    (
        TokenKind::Unreserved(Unreserved::Force),
        RowSecurityChange::Force,
    ),
];

/// `ENABLE | DISABLE | FORCE | NO FORCE`
impl Readable for RowSecurityChange {
    ghost use Rattle.std.specs.Prelude.{refl};
    ghost use Rattle.sql_commands.specs.Commands.{a_change};

    type Value = RowSecurityChange;

    ghost phrase = { a_change };

    fn read(
        _: Global,
        tokens: &[Token],
        at: usize,
    ) -> Result<(RowSecurityChange, usize), ParseError> {
        if has(tokens, at, TokenKind::Unreserved(Unreserved::No)) {
            let read = Ok(((), at + 1));
            let ((), end) = token(tokens, read, TokenKind::Unreserved(Unreserved::Force))?;
            return Ok((RowSecurityChange::NoForce, end));
        }
        word_of(tokens, at, &CHANGES)
    }

    ghost determined = { refl };
}

/// `ALTER TABLE name (ENABLE | DISABLE | FORCE | NO FORCE) ROW LEVEL SECURITY`, and its end.
pub fn alter_table(alloc: Global, tokens: &[Token]) -> Result<(Statement, usize), ParseError>
    ensures { Reads an_alter_table (lexemes tokens.now) 0 result }
{
    let read = token(
        tokens,
        Ok(((), 0)),
        TokenKind::Unreserved(Unreserved::Alter),
    );
    let read = token(tokens, read, TokenKind::Reserved(Reserved::Table));
    let read = then::<_, Name>(alloc, tokens, read);
    let read = then::<_, RowSecurityChange>(alloc, tokens, read);
    let read = token(tokens, read, TokenKind::Unreserved(Unreserved::Row));
    let read = token(tokens, read, TokenKind::Unreserved(Unreserved::Level));
    let ((((), table), change), end) = token(
        tokens,
        read,
        TokenKind::Unreserved(Unreserved::Security),
    )?;
    Ok((
        Statement::OnDatabase(DatabaseStatement::Defining(DefiningStatement::AlterTable(AlterTable {
            table,
            change,
        }))),
        end,
    ))
}
