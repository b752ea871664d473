//! What makes statements of their beginnings.

ghost use Rattle.std.specs.Prelude.{◌≡◌, map};
ghost use Rattle.sql_parser.specs.Completions.{completions};

use sql_lexer::token::{Reserved, TokenKind, Unreserved};

/// Words inside the parentheses that a beginning leaves open, and words after those.
pub type CompletingWords = (&'static str, &'static str);

const OF_SELECT: [CompletingWords; 11] = [
    ("", ""),
    ("a", ""),
    ("NULL", ""),
    ("*", ""),
    ("1", ""),
    ("+ a", ""),
    ("BY a", ""),
    ("ON a", ""),
    ("a ON a", ""),
    ("JOIN a", ""),
    ("JOIN a ON a", ""),
];

const OF_INSERT: [CompletingWords; 7] = [
    ("", ""),
    ("a", ""),
    ("NULL", ""),
    ("( a )", ""),
    ("", "VALUES ( a )"),
    ("a", "VALUES ( a )"),
    ("INTO a", "VALUES ( a )"),
];

const OF_UPDATE: [CompletingWords; 7] = [
    ("", ""),
    ("a", ""),
    ("NULL", ""),
    ("= a", ""),
    ("a = a", ""),
    ("SET a = a", ""),
    ("a SET a = a", ""),
];

const OF_DELETE: [CompletingWords; 4] = [("", ""), ("a", ""), ("NULL", ""), ("FROM a", "")];

const OF_CREATE: [CompletingWords; 16] = [
    ("", ""),
    ("a", ""),
    ("NULL", ""),
    ("ROLE a", ""),
    ("a ( a TEXT )", ""),
    ("( a TEXT )", ""),
    ("a TEXT", ""),
    ("TEXT", ""),
    ("KEY", ""),
    ("KEY ( a )", ""),
    ("( a )", ""),
    ("a ON a", ""),
    ("ON a", ""),
    ("PERMISSIVE", ""),
    ("ALL", ""),
    ("CHECK ( a )", ""),
];

const OF_DROP: [CompletingWords; 5] = [
    ("", ""),
    ("a", ""),
    ("ON a", ""),
    ("a ON a", ""),
    ("ROLE a", ""),
];

const OF_ALTER: [CompletingWords; 7] = [
    ("", ""),
    ("SECURITY", ""),
    ("LEVEL SECURITY", ""),
    ("ROW LEVEL SECURITY", ""),
    ("FORCE ROW LEVEL SECURITY", ""),
    ("a FORCE ROW LEVEL SECURITY", ""),
    ("TABLE a FORCE ROW LEVEL SECURITY", ""),
];

const OF_GRANT: [CompletingWords; 10] = [
    ("", ""),
    ("a", ""),
    ("TO a", ""),
    ("a TO a", ""),
    ("", "ON a TO a"),
    ("a", "ON a TO a"),
    ("SELECT", "ON a TO a"),
    ("OPTION", ""),
    ("ADMIN OPTION", ""),
    ("GRANT OPTION", ""),
];

const OF_REVOKE: [CompletingWords; 10] = [
    ("", ""),
    ("a", ""),
    ("FROM a", ""),
    ("a FROM a", ""),
    ("", "ON a FROM a"),
    ("a", "ON a FROM a"),
    ("SELECT", "ON a FROM a"),
    ("FOR a FROM a", ""),
    ("FOR SELECT", "ON a FROM a"),
    ("OPTION FOR SELECT", "ON a FROM a"),
];

const OF_OTHERS: [CompletingWords; 6] = [
    ("", ""),
    ("a", ""),
    ("ROLE", ""),
    ("ROLE a", ""),
    ("TRANSACTION", ""),
    ("BEGIN", ""),
];

/// What makes statements of the beginnings of commands that begin with such a token: for each place
/// in a command at which a token has to follow there is one.
pub fn completions(first: Option<TokenKind>) -> &'static [CompletingWords]
    ensures { map (λ c. (c.0.now, c.1.now)) result.now ≡ completions first }
{
    match first {
        Some(TokenKind::Reserved(Reserved::Select)) => &OF_SELECT,
        Some(TokenKind::Unreserved(Unreserved::Insert)) => &OF_INSERT,
        Some(TokenKind::Unreserved(Unreserved::Update)) => &OF_UPDATE,
        Some(TokenKind::Unreserved(Unreserved::Delete)) => &OF_DELETE,
        Some(TokenKind::Reserved(Reserved::Create)) => &OF_CREATE,
        Some(TokenKind::Unreserved(Unreserved::Drop)) => &OF_DROP,
        Some(TokenKind::Unreserved(Unreserved::Alter)) => &OF_ALTER,
        Some(TokenKind::Reserved(Reserved::Grant)) => &OF_GRANT,
        Some(TokenKind::Unreserved(Unreserved::Revoke)) => &OF_REVOKE,
        _ => &OF_OTHERS,
    }
}
