//! Words that are taken for the alias of a table, and are keywords in other databases.

ghost use Rattle.std.specs.Prelude.{◌≡◌, Some, map};
ghost use Rattle.std.specs.Option.{option_map};
ghost use Rattle.sql_lexer.specs.Lexeme.{lexeme, lexemes};
ghost use Rattle.diagnostics.specs.Aliases.{alias_at, alias_of, aliases, first_alias, is_before_table, is_name, taken_text};
ghost use Rattle.diagnostics.specs.Words.{entry};

use crate::words::{KeywordHint, said_of};
use sql_lexer::token::{Punctuation, Reserved, Token, TokenKind};
use std::fmt;

// The words, and what is not done of what they mean elsewhere.
const ALIASES: [KeywordHint; 6] = [
    (
        &["LEFT", "RIGHT", "FULL"],
        "there are no outer joins, and this one is an inner join",
    ),
    (&["NATURAL"], "there are no natural joins"),
    (&["OFFSET"], "no rows are skipped"),
    (&["FETCH"], "LIMIT alone bounds the number of rows"),
    (&["HAVING"], "there are no groups"),
    (&["TABLESAMPLE"], "all rows are read"),
];

/// A word that is taken for the alias of a table.
#[derive(Clone, Copy)]
pub struct TakenAlias<'a> {
    word: &'a str,
    table: &'a str,
    meaning: &'static str,
}

impl fmt::Display for TakenAlias<'_> {
    ghost output = { λ taken. Some (taken_text taken) };

    fn fmt<W: fmt::Write>(&self, f: &mut fmt::Formatter<W>) -> fmt::Result {
        let TakenAlias {
            word,
            table,
            meaning,
        } = self;
        write!(
            f,
            "{word} is taken for an alias of the table {table}: {meaning}"
        )
    }
}

fn aliases() -> &'static [KeywordHint]
    ensures { map entry result.now ≡ aliases }
{
    &ALIASES
}

// Whether a table may follow this token.
fn is_before_table(kind: TokenKind) -> bool
    ensures { result ≡ is_before_table kind }
{
    match kind {
        TokenKind::Reserved(Reserved::From)
        | TokenKind::Reserved(Reserved::Join)
        | TokenKind::Punctuation(Punctuation::Comma) => true,
        _ => false,
    }
}

// Whether this token is a name.
fn is_name(kind: TokenKind) -> bool
    ensures { result ≡ is_name kind }
{
    match kind {
        TokenKind::Unreserved(_) | TokenKind::Word | TokenKind::QuotedIdentifier => true,
        _ => false,
    }
}

// The word behind the name of a table, where it is one of these.
fn alias_of<'a>(table: &Token<'a>, word: &Token<'a>) -> Option<TakenAlias<'a>>
    ensures { option_map taken_text result ≡ alias_of (lexeme table.now) (lexeme word.now) }
{
    match said_of(aliases(), word.text) {
        Some(meaning) => Some(TakenAlias {
            word: word.text,
            table: table.text,
            meaning,
        }),
        None => None,
    }
}

// That word behind the name that follows this token, where it may be that of a table.
fn alias_at<'a>(before: &Token<'a>, after: &[Token<'a>]) -> Option<TakenAlias<'a>>
    ensures { option_map taken_text result ≡ alias_at (lexeme before.now) (lexemes after.now) }
{
    match after {
        [table, word, ..] if is_before_table(before.kind) && is_name(table.kind) => {
            alias_of(table, word)
        }
        _ => None,
    }
}

/// The first word that is taken for the alias of a table.
pub(crate) fn first_alias<'a>(mut tokens: &[Token<'a>]) -> Option<TakenAlias<'a>>
    ensures { option_map taken_text result ≡ first_alias (lexemes tokens.entry.now) }
{
    while let [token, rest @ ..] = tokens {
        if let Some(alias) = alias_at(token, rest) {
            return Some(alias);
        }
        tokens = rest;
    }
    None
}
