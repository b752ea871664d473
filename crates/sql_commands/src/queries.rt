//! Queries: SELECT.

ghost use Rattle.sql_lexer.specs.Lexeme.{lexemes};
ghost use Rattle.sql_grammar.specs.LookAhead.{Reads};
ghost use Rattle.sql_commands.specs.Commands.{select as a_select, select_count as a_select_count, cross_join as a_cross_join, inner_join as an_inner_join, plain_join as a_plain_join, from_clause as from_clause_of};
ghost use Rattle.std.specs.Prelude.{◌≡◌, IfOk};

use crate::list::ListOf;
use crate::optional::Optional;
use crate::production::{KnownProduction, Production, Readable};
use crate::repeated::Repeated;
use crate::sort_key_expression::sort_key_expression;
use crate::steps::{after_word, then, token};
use expr_parser::parse_error::ParseError;
use expr_parser::reader::has;
use sql_ast::expr::Expr;
use sql_ast::statement::{
    DatabaseStatement, FromClause, Join, RowStatement, Select, SelectList, SortDirection, SortKey,
    Statement, TableExpression, TableReference,
};
use sql_grammar::word_of::{begins_word, optional_word_of};
use sql_lexer::token::{Punctuation, Reserved, Token, TokenKind, Unreserved};
use sql_types::items::Items;
use sql_types::name::Name;
use std::alloc::{AllocError, Global};

// [AS name | name]
struct Alias;

impl Readable for Alias {
    ghost use Rattle.std.specs.Prelude.{refl};
    ghost use Rattle.sql_commands.specs.Commands.{an_alias};

    type Value = Option<Name>;

    ghost phrase = { an_alias };

    fn read(
        alloc: Global,
        tokens: &[Token],
        at: usize,
    ) -> Result<(Option<Name>, usize), ParseError> {
        if has(tokens, at, TokenKind::Reserved(Reserved::As)) {
            let (name, end) = Name::read(alloc, tokens, at + 1)?;
            return Ok((Some(name), end));
        }
        Optional::<Name>::read(alloc, tokens, at)
    }

    ghost determined = { refl };
}

/// `name [[AS] name]`
impl Readable for TableReference {
    ghost use Rattle.std.specs.Prelude.{refl};
    ghost use Rattle.sql_commands.specs.Commands.{a_table};

    type Value = TableReference;

    ghost phrase = { a_table };

    fn read(
        alloc: Global,
        tokens: &[Token],
        at: usize,
    ) -> Result<(TableReference, usize), ParseError> {
        let read = then::<_, Name>(alloc, tokens, Ok(((), at)));
        let ((((), table), alias), end) = then::<_, Alias>(alloc, tokens, read)?;
        Ok((TableReference { table, alias }, end))
    }

    ghost determined = { refl };
}

impl Production for TableReference {
    ghost use Rattle.std.specs.Prelude.{refl};

    ghost listable = { refl };
}

// CROSS JOIN table
fn cross_join(alloc: Global, tokens: &[Token], at: usize) -> Result<(Join, usize), ParseError>
    ensures { Reads a_cross_join (lexemes tokens.now) at result }
{
    let read = token(tokens, Ok(((), at)), TokenKind::Reserved(Reserved::Cross));
    let read = token(tokens, read, TokenKind::Reserved(Reserved::Join));
    let (((), table), end) = then::<_, TableReference>(alloc, tokens, read)?;
    Ok((
        Join {
            table,
            condition: None,
        },
        end,
    ))
}

// INNER JOIN table ON expr
fn inner_join(alloc: Global, tokens: &[Token], at: usize) -> Result<(Join, usize), ParseError>
    ensures { Reads an_inner_join (lexemes tokens.now) at result }
{
    let read = token(tokens, Ok(((), at)), TokenKind::Reserved(Reserved::Inner));
    let read = token(tokens, read, TokenKind::Reserved(Reserved::Join));
    let read = then::<_, TableReference>(alloc, tokens, read);
    let read = token(tokens, read, TokenKind::Reserved(Reserved::On));
    let ((((), table), condition), end) = then::<_, Expr>(alloc, tokens, read)?;
    Ok((
        Join {
            table,
            condition: Some(condition),
        },
        end,
    ))
}

// JOIN table ON expr
fn plain_join(alloc: Global, tokens: &[Token], at: usize) -> Result<(Join, usize), ParseError>
    ensures { Reads a_plain_join (lexemes tokens.now) at result }
{
    let read = token(tokens, Ok(((), at)), TokenKind::Reserved(Reserved::Join));
    let read = then::<_, TableReference>(alloc, tokens, read);
    let read = token(tokens, read, TokenKind::Reserved(Reserved::On));
    let ((((), table), condition), end) = then::<_, Expr>(alloc, tokens, read)?;
    Ok((
        Join {
            table,
            condition: Some(condition),
        },
        end,
    ))
}

/// `CROSS JOIN table | [INNER] JOIN table ON expr`
impl Readable for Join {
    ghost use Rattle.std.specs.Prelude.{refl};
    ghost use Rattle.sql_commands.specs.Commands.{a_join};

    type Value = Join;

    ghost phrase = { a_join };

    fn read(alloc: Global, tokens: &[Token], at: usize) -> Result<(Join, usize), ParseError> {
        if has(tokens, at, TokenKind::Reserved(Reserved::Cross)) {
            return cross_join(alloc, tokens, at);
        }
        if has(tokens, at, TokenKind::Reserved(Reserved::Inner)) {
            return inner_join(alloc, tokens, at);
        }
        plain_join(alloc, tokens, at)
    }

    ghost determined = { refl };
}

impl Production for Join {
    ghost use Rattle.std.specs.Prelude.{refl};

    ghost listable = { refl };
}

impl KnownProduction for Join {
    ghost use Rattle.std.specs.Prelude.{refl};

    fn begins(tokens: &[Token], at: usize) -> bool {
        begins_word(tokens, at, &FIRST_OF_JOINS)
    }

    ghost repeatable = { refl };
}

// The words with which a join begins.
const FIRST_OF_JOINS: [(TokenKind, ()); 3] = [
    (TokenKind::Reserved(Reserved::Cross), ()),
    (TokenKind::Reserved(Reserved::Inner), ()),
    (TokenKind::Reserved(Reserved::Join), ()),
];

/// What follows the first table of FROM.
#[derive(Drop)]
pub enum MoreTables {
    /// After a comma.
    Tables(Items<TableReference>),
    /// One or more, or none where nothing follows.
    Joins(Items<Join>),
}

// "," table {"," table} | {join}
struct FurtherTables;

impl Readable for FurtherTables {
    ghost use Rattle.std.specs.Prelude.{refl};
    ghost use Rattle.sql_commands.specs.Commands.{more_tables};

    type Value = MoreTables;

    ghost phrase = { more_tables };

    fn read(alloc: Global, tokens: &[Token], at: usize) -> Result<(MoreTables, usize), ParseError> {
        if has(tokens, at, TokenKind::Punctuation(Punctuation::Comma)) {
            let (tables, end) = ListOf::<TableReference>::read(alloc, tokens, at + 1)?;
            return Ok((MoreTables::Tables(tables), end));
        }
        let (joins, end) = Repeated::<Join>::read(alloc, tokens, at)?;
        Ok((MoreTables::Joins(joins), end))
    }

    ghost determined = { refl };
}

// The first table and what follows it.
fn from_clause(
    alloc: Global,
    first: TableReference,
    more: MoreTables,
) -> Result<FromClause, AllocError>
    ensures { IfOk result (λ clause. clause ≡ from_clause_of first more) }
{
    match more {
        MoreTables::Tables(rest) => {
            let mut tables = rest.into_vec();
            tables.insert(0, first)?;
            Ok(FromClause::List(Items::from_vec(tables)))
        }
        MoreTables::Joins(joins) => {
            if joins.is_empty() {
                let mut tables = Items::new(alloc);
                tables.push(first)?;
                return Ok(FromClause::List(tables));
            }
            Ok(FromClause::Joined(first, joins))
        }
    }
}

// table {"," table} | table {join}
struct Tables;

impl Readable for Tables {
    ghost use Rattle.std.specs.Prelude.{refl};
    ghost use Rattle.sql_commands.specs.Commands.{some_tables};

    type Value = FromClause;

    ghost phrase = { some_tables };

    fn read(alloc: Global, tokens: &[Token], at: usize) -> Result<(FromClause, usize), ParseError> {
        let read = then::<_, TableReference>(alloc, tokens, Ok(((), at)));
        let ((((), first), more), end) = then::<_, FurtherTables>(alloc, tokens, read)?;
        let clause = from_clause(alloc, first, more)?;
        Ok((clause, end))
    }

    ghost determined = { refl };
}

// ASC | DESC
const DIRECTIONS: [(TokenKind, SortDirection); 2] = [
    (TokenKind::Reserved(Reserved::Asc), SortDirection::Ascending),
    (
        TokenKind::Reserved(Reserved::Desc),
        SortDirection::Descending,
    ),
];

/// `expr [ASC | DESC]`, where the expression is no number by itself.
impl Readable for SortKey {
    ghost use Rattle.std.specs.Prelude.{refl};
    ghost use Rattle.sql_commands.specs.Commands.{a_sort_key};

    type Value = SortKey;

    ghost phrase = { a_sort_key };

    fn read(alloc: Global, tokens: &[Token], at: usize) -> Result<(SortKey, usize), ParseError> {
        let (value, at_direction) = sort_key_expression(alloc, tokens, at)?;
        let (direction, end) = optional_word_of(tokens, at_direction, &DIRECTIONS);
        Ok((SortKey { value, direction }, end))
    }

    ghost determined = { refl };
}

impl Production for SortKey {
    ghost use Rattle.std.specs.Prelude.{refl};

    ghost listable = { refl };
}

// [ORDER BY key {"," key}]
struct OrderBy;

impl Readable for OrderBy {
    ghost use Rattle.std.specs.Prelude.{refl};
    ghost use Rattle.sql_grammar.specs.Phrases.{optional};
    ghost use Rattle.sql_commands.specs.Commands.{an_order};

    type Value = Option<Items<SortKey>>;

    ghost phrase = { optional an_order };

    fn read(
        alloc: Global,
        tokens: &[Token],
        at: usize,
    ) -> Result<(Option<Items<SortKey>>, usize), ParseError> {
        if !has(tokens, at, TokenKind::Reserved(Reserved::Order)) {
            return Ok((None, at));
        }
        let read = token(
            tokens,
            Ok(((), at + 1)),
            TokenKind::Unreserved(Unreserved::By),
        );
        let (((), keys), end) = then::<_, ListOf<SortKey>>(alloc, tokens, read)?;
        Ok((Some(keys), end))
    }

    ghost determined = { refl };
}

/// `tables [WHERE expr] [ORDER BY key {"," key}] [LIMIT number]`
impl Readable for TableExpression {
    ghost use Rattle.std.specs.Prelude.{refl};
    ghost use Rattle.sql_commands.specs.Commands.{a_source};

    type Value = TableExpression;

    ghost phrase = { a_source };

    fn read(
        alloc: Global,
        tokens: &[Token],
        at: usize,
    ) -> Result<(TableExpression, usize), ParseError> {
        let read = then::<_, Tables>(alloc, tokens, Ok(((), at)));
        let read = after_word::<_, Expr>(alloc, tokens, read, TokenKind::Reserved(Reserved::Where));
        let read = then::<_, OrderBy>(alloc, tokens, read);
        let ((((((), tables), condition), order), limit), end) = after_word::<_, u64>(
            alloc,
            tokens,
            read,
            TokenKind::Reserved(Reserved::Limit),
        )?;
        Ok((
            TableExpression {
                tables,
                condition,
                order,
                limit,
            },
            end,
        ))
    }

    ghost determined = { refl };
}

/// `"*" | expr {"," expr}`
impl Readable for SelectList {
    ghost use Rattle.std.specs.Prelude.{refl};
    ghost use Rattle.sql_commands.specs.Commands.{a_select_list};

    type Value = SelectList;

    ghost phrase = { a_select_list };

    fn read(alloc: Global, tokens: &[Token], at: usize) -> Result<(SelectList, usize), ParseError> {
        if has(tokens, at, TokenKind::Punctuation(Punctuation::Star)) {
            return Ok((SelectList::Asterisk, at + 1));
        }
        let (values, end) = ListOf::<Expr>::read(alloc, tokens, at)?;
        Ok((SelectList::Expressions(values), end))
    }

    ghost determined = { refl };
}

/// `SELECT list [FROM source]`, and its end.
pub fn select(alloc: Global, tokens: &[Token]) -> Result<(Statement, usize), ParseError>
    ensures { Reads a_select (lexemes tokens.now) 0 result }
{
    let read = token(tokens, Ok(((), 0)), TokenKind::Reserved(Reserved::Select));
    let read = then::<_, SelectList>(alloc, tokens, read);
    let ((((), list), source), end) = after_word::<_, TableExpression>(
        alloc,
        tokens,
        read,
        TokenKind::Reserved(Reserved::From),
    )?;
    Ok((
        Statement::OnDatabase(DatabaseStatement::OverRows(RowStatement::Select(Select {
            list,
            source,
        }))),
        end,
    ))
}

/// `SELECT COUNT "(" "*" ")" [FROM source]`, and its end.
pub fn select_count(alloc: Global, tokens: &[Token]) -> Result<(Statement, usize), ParseError>
    ensures { Reads a_select_count (lexemes tokens.now) 0 result }
{
    let read = token(tokens, Ok(((), 0)), TokenKind::Reserved(Reserved::Select));
    let read = token(tokens, read, TokenKind::Unreserved(Unreserved::Count));
    let read = token(tokens, read, TokenKind::Punctuation(Punctuation::Open));
    let read = token(tokens, read, TokenKind::Punctuation(Punctuation::Star));
    let read = token(tokens, read, TokenKind::Punctuation(Punctuation::Close));
    let (((), source), end) = after_word::<_, TableExpression>(
        alloc,
        tokens,
        read,
        TokenKind::Reserved(Reserved::From),
    )?;
    Ok((
        Statement::OnDatabase(DatabaseStatement::OverRows(RowStatement::Select(Select {
            list: SelectList::Count,
            source,
        }))),
        end,
    ))
}
