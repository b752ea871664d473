//! The words that PostgreSQL reserves and the language does not.

ghost use Rattle.std.specs.Prelude.{◌≡◌};
ghost use Rattle.postgres_texts.specs.Reserved.{is_reserved};

use crate::words::is_one_of;

// The words that PostgreSQL 15 reserves (its manual, appendix C) and the language does not, in order.
const RESERVED: [&[u8]; 68] = [
    b"analyse",
    b"analyze",
    b"any",
    b"array",
    b"asymmetric",
    b"authorization",
    b"binary",
    b"both",
    b"case",
    b"cast",
    b"collate",
    b"collation",
    b"column",
    b"concurrently",
    b"constraint",
    b"current_catalog",
    b"current_date",
    b"current_role",
    b"current_schema",
    b"current_time",
    b"current_timestamp",
    b"default",
    b"deferrable",
    b"distinct",
    b"do",
    b"else",
    b"end",
    b"except",
    b"fetch",
    b"foreign",
    b"freeze",
    b"full",
    b"group",
    b"having",
    b"ilike",
    b"in",
    b"initially",
    b"intersect",
    b"isnull",
    b"lateral",
    b"leading",
    b"left",
    b"like",
    b"localtime",
    b"localtimestamp",
    b"natural",
    b"notnull",
    b"offset",
    b"only",
    b"outer",
    b"overlaps",
    b"placing",
    b"references",
    b"returning",
    b"right",
    b"similar",
    b"some",
    b"symmetric",
    b"tablesample",
    b"then",
    b"trailing",
    b"union",
    b"unique",
    b"user",
    b"variadic",
    b"verbose",
    b"when",
    b"window",
];

/// Whether PostgreSQL reserves a word and the language does not. Where the language takes such a word for a name, as LEFT in
/// `t LEFT JOIN u`, a client of PostgreSQL means something else.
pub fn is_reserved(word: &[u8]) -> bool
    ensures { result ≡ is_reserved word.now }
{
    is_one_of(&RESERVED, word)
}
