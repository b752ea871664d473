//! What is left out of the language.

ghost use Rattle.std.specs.Prelude.{◌≡◌, [], map};
ghost use Rattle.std.specs.Option.{option_map};
ghost use Rattle.sql_lexer.specs.Lexeme.{lexemes};
ghost use Rattle.diagnostics.specs.LeftOut.{expressions, first_of, is_query, is_select, left_out, left_out_by, left_out_of, queries, text_before, text_from, other_statements};
ghost use Rattle.diagnostics.specs.Words.{entry};

use crate::words::{KeywordHint, said_of};
use sql_lexer::token::{Reserved, Token, TokenKind};

// Of expressions, in every statement.
const EXPRESSIONS: [KeywordHint; 3] = [
    (
        &["IN", "BETWEEN", "LIKE", "ILIKE"],
        "IN, BETWEEN, LIKE, ILIKE, regular expressions",
    ),
    (&["CAST"], "casts"),
    (
        &["CASE", "COALESCE", "NULLIF"],
        "CASE, COALESCE, NULLIF, every function",
    ),
];

// Of SELECT.
const QUERIES: [KeywordHint; 7] = [
    (
        &["DISTINCT", "GROUP", "HAVING"],
        "DISTINCT, GROUP BY, HAVING, windows",
    ),
    (
        &["SUM", "AVG", "MIN", "MAX"],
        "aggregates, but for count(*) as the whole list",
    ),
    (
        &["OFFSET", "FETCH"],
        "OFFSET, FETCH, LIMIT with anything but a number",
    ),
    (&["EXISTS"], "sub-queries, EXISTS, WITH"),
    (
        &["UNION", "INTERSECT", "EXCEPT"],
        "UNION, INTERSECT, EXCEPT; VALUES and TABLE as queries",
    ),
    (&["OUTER", "LEFT", "RIGHT", "FULL"], "outer joins"),
    (
        &["NATURAL"],
        "NATURAL and USING joins, a comma beside JOIN, parentheses in FROM",
    ),
];

// Of the other statements.
const OTHER_STATEMENTS: [KeywordHint; 18] = [
    (&["DEFAULT"], "DEFAULT"),
    (
        &["CONFLICT", "RETURNING"],
        "INSERT of a query, ON CONFLICT, RETURNING",
    ),
    (&["TRUNCATE", "MERGE", "COPY"], "TRUNCATE, MERGE, COPY"),
    (
        &[
            "INT",
            "INTEGER",
            "SMALLINT",
            "SERIAL",
            "NUMERIC",
            "DECIMAL",
            "REAL",
            "DOUBLE",
            "FLOAT",
            "VARCHAR",
            "CHAR",
            "DATE",
            "TIME",
            "TIMESTAMP",
            "BYTEA",
            "UUID",
            "JSON",
            "JSONB",
        ],
        "other types",
    ),
    (
        &["UNIQUE", "REFERENCES", "GENERATED", "COLLATE", "CONSTRAINT"],
        "other constraints, and names for them",
    ),
    (
        &["TEMP", "TEMPORARY", "INHERITS"],
        "other ways to make a table",
    ),
    (
        &["ADD", "RENAME", "OWNER"],
        "every change of a table but row security",
    ),
    (
        &["IF", "EXISTS"],
        "IF EXISTS, IF NOT EXISTS, CASCADE and RESTRICT of a DROP, two names in one",
    ),
    (
        &[
            "INDEX",
            "VIEW",
            "SCHEMA",
            "DATABASE",
            "SEQUENCE",
            "TYPE",
            "FUNCTION",
            "TRIGGER",
            "EXTENSION",
            "COMMENT",
        ],
        "everything but tables",
    ),
    (
        &["PASSWORD", "CREATEROLE", "CREATEDB", "INHERIT", "VALID"],
        "other attributes, and memberships in CREATE ROLE",
    ),
    (&["USER", "GROUP"], "USER and GROUP"),
    (&["GRANTED"], "GRANTED BY, CURRENT_USER as a grantee"),
    (
        &["SESSION", "AUTHORIZATION", "LOCAL", "SHOW"],
        "SET SESSION AUTHORIZATION, SET LOCAL ROLE, settings",
    ),
    (
        &["REASSIGN", "OWNED"],
        "REASSIGN OWNED, DROP OWNED, ALTER DEFAULT PRIVILEGES",
    ),
    (&["ISOLATION", "READ"], "isolation levels, READ ONLY"),
    (&["SAVEPOINT", "RELEASE"], "SAVEPOINT, RELEASE, ROLLBACK TO"),
    (
        &["END", "ABORT", "CHAIN", "LOCK"],
        "END, ABORT, AND CHAIN, two-phase commit, LOCK",
    ),
    (
        &["PREPARE", "EXPLAIN", "VACUUM", "LISTEN", "DO", "CALL"],
        "prepared statements, cursors, EXPLAIN, VACUUM, LISTEN, DO, CALL",
    ),
];

fn expressions() -> &'static [KeywordHint]
    ensures { map entry result.now ≡ expressions }
{
    &EXPRESSIONS
}

fn left_out_of(is_query: bool) -> &'static [KeywordHint]
    ensures { map entry result.now ≡ left_out_of is_query }
{
    if is_query {
        &QUERIES
    } else {
        &OTHER_STATEMENTS
    }
}

fn is_select(kind: TokenKind) -> bool
    ensures { result ≡ is_select kind }
{
    match kind {
        TokenKind::Reserved(Reserved::Select) => true,
        _ => false,
    }
}

// Whether these are the tokens of a SELECT.
fn is_query(tokens: &[Token]) -> bool
    ensures { result ≡ is_query (lexemes tokens.now) }
{
    match tokens {
        [first, ..] => is_select(first.kind),
        [] => false,
    }
}

// The first of two texts that is there.
fn first_of<'a>(first: Option<&'a str>, second: Option<&'a str>) -> Option<&'a str>
    ensures { option_map (λ text. text.now) result
        ≡ first_of (option_map (λ text. text.now) first.entry) (option_map (λ text. text.now) second.entry) }
{
    match first {
        Some(text) => Some(text),
        None => second,
    }
}

// What is left out by this word.
fn left_out_by(is_query: bool, word: &str) -> Option<&'static str>
    ensures { option_map (λ text. text.now) result ≡ left_out_by is_query word.now }
{
    first_of(
        said_of(expressions(), word),
        said_of(left_out_of(is_query), word),
    )
}

// The last token that begins before a place, or nothing.
fn text_before<'a>(mut tokens: &[Token<'a>], place: usize) -> &'a str
    ensures { result.now ≡ text_before [] place (lexemes tokens.entry.now) }
{
    let mut text = "";
    while let [token, rest @ ..] = tokens {
        if place <= token.start {
            return text;
        }
        text = token.text;
        tokens = rest;
    }
    text
}

// The first token that begins at a place or after it, or nothing.
fn text_from<'a>(mut tokens: &[Token<'a>], place: usize) -> &'a str
    ensures { result.now ≡ text_from place (lexemes tokens.entry.now) }
{
    while let [token, rest @ ..] = tokens {
        if place <= token.start {
            return token.text;
        }
        tokens = rest;
    }
    ""
}

/// What is left out of the language by the word before a place, or else by the word there.
pub(crate) fn left_out(tokens: &[Token], place: usize) -> Option<&'static str>
    ensures { option_map (λ text. text.now) result ≡ left_out place (lexemes tokens.now) }
{
    let is_query = is_query(tokens);
    first_of(
        left_out_by(is_query, text_before(tokens, place)),
        left_out_by(is_query, text_from(tokens, place)),
    )
}
