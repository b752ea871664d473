//! Policies: CREATE POLICY and DROP POLICY.

ghost use Rattle.sql_lexer.specs.Lexeme.{ArePlaced, lexemes};
ghost use Rattle.sql_grammar.specs.LookAhead.{Reads};
ghost use Rattle.sql_grammar.specs.Phrases.{clause as a_clause, optional};
ghost use Rattle.sql_commands.specs.Steps.{ReadsNext};
ghost use Rattle.sql_commands.specs.Commands.{a_check, a_using, create_policy as a_create_policy, drop_policy as a_drop_policy, enclosed as an_enclosed};

use crate::list::ListOf;
use crate::production::{Production, Readable};
use crate::steps::{after_word, then, token};
use expr_parser::parse_error::ParseError;
use expr_parser::reader::has;
use sql_ast::expr::Expr;
use sql_ast::policy::{PolicyClause, PolicyCommand, PolicyKind};
use sql_ast::privilege::{Action, Grantee};
use sql_ast::statement::{
    CreatePolicy, DatabaseStatement, DefiningStatement, DropPolicy, Statement,
};
use sql_grammar::expect::{punctuation, reserved};
use sql_grammar::word_of::word_of;
use sql_lexer::slice::text_between;
use sql_lexer::token::{Punctuation, Reserved, Token, TokenKind, Unreserved};
use sql_types::name::Name;
use sql_types::text::Text;
use std::alloc::Global;

// PERMISSIVE | RESTRICTIVE
const KINDS: [(TokenKind, PolicyKind); 2] = [
    (
        TokenKind::Unreserved(Unreserved::Permissive),
        PolicyKind::Permissive,
    ),
    (
        TokenKind::Unreserved(Unreserved::Restrictive),
        PolicyKind::Restrictive,
    ),
];

/// `PERMISSIVE | RESTRICTIVE`
impl Readable for PolicyKind {
    ghost use Rattle.std.specs.Prelude.{refl};
    ghost use Rattle.sql_commands.specs.Commands.{a_policy_kind};

    type Value = PolicyKind;

    ghost phrase = { a_policy_kind };

    fn read(_: Global, tokens: &[Token], at: usize) -> Result<(PolicyKind, usize), ParseError> {
        word_of(tokens, at, &KINDS)
    }

    ghost determined = { refl };
}

impl Production for PolicyKind {
    ghost use Rattle.std.specs.Prelude.{refl};

    ghost listable = { refl };
}

// ALL | SELECT | INSERT | UPDATE | DELETE
const COMMANDS: [(TokenKind, PolicyCommand); 5] = [
    (TokenKind::Reserved(Reserved::All), PolicyCommand::All),
    (
        TokenKind::Reserved(Reserved::Select),
        PolicyCommand::Only(Action::Select),
    ),
    (
        TokenKind::Unreserved(Unreserved::Insert),
        PolicyCommand::Only(Action::Insert),
    ),
    (
        TokenKind::Unreserved(Unreserved::Update),
        PolicyCommand::Only(Action::Update),
    ),
    (
        TokenKind::Unreserved(Unreserved::Delete),
        PolicyCommand::Only(Action::Delete),
    ),
];

/// `ALL | SELECT | INSERT | UPDATE | DELETE`
impl Readable for PolicyCommand {
    ghost use Rattle.std.specs.Prelude.{refl};
    ghost use Rattle.sql_commands.specs.Commands.{a_policy_command};

    type Value = PolicyCommand;

    ghost phrase = { a_policy_command };

    fn read(_: Global, tokens: &[Token], at: usize) -> Result<(PolicyCommand, usize), ParseError> {
        word_of(tokens, at, &COMMANDS)
    }

    ghost determined = { refl };
}

impl Production for PolicyCommand {
    ghost use Rattle.std.specs.Prelude.{refl};

    ghost listable = { refl };
}

// An expression, and the slice of the source that it is written as.
fn clause(
    alloc: Global,
    source: &str,
    tokens: &[Token],
    at: usize,
) -> Result<(PolicyClause, usize), ParseError>
    requires { ArePlaced source.now (lexemes tokens.now) }
    ensures { Reads (a_clause source.now) (lexemes tokens.now) at result }
{
    let (expression, end) = Expr::read(alloc, tokens, at)?;
    let text = Text::from_str(alloc, text_between(source, tokens, at, end - 1))?;
    Ok((PolicyClause { text, expression }, end))
}

// "(" expr ")"
fn enclosed(
    alloc: Global,
    source: &str,
    tokens: &[Token],
    at: usize,
) -> Result<(PolicyClause, usize), ParseError>
    requires { ArePlaced source.now (lexemes tokens.now) }
    ensures { Reads (an_enclosed source.now) (lexemes tokens.now) at result }
{
    let at_clause = punctuation(tokens, at, Punctuation::Open)?;
    let (clause, at_close) = clause(alloc, source, tokens, at_clause)?;
    let end = punctuation(tokens, at_close, Punctuation::Close)?;
    Ok((clause, end))
}

// [USING "(" expr ")"], after what is read so far
fn using<A: Drop>(
    alloc: Global,
    source: &str,
    tokens: &[Token],
    read: Result<(A, usize), ParseError>,
) -> Result<((A, Option<PolicyClause>), usize), ParseError>
    requires { ArePlaced source.now (lexemes tokens.now) }
    ensures { ReadsNext (optional (a_using source.now)) (lexemes tokens.now) read result }
{
    let (values, at) = read?;
    if !has(tokens, at, TokenKind::Reserved(Reserved::Using)) {
        return Ok(((values, None), at));
    }
    let (clause, end) = enclosed(alloc, source, tokens, at + 1)?;
    Ok(((values, Some(clause)), end))
}

// [WITH CHECK "(" expr ")"], after what is read so far
fn check<A: Drop>(
    alloc: Global,
    source: &str,
    tokens: &[Token],
    read: Result<(A, usize), ParseError>,
) -> Result<((A, Option<PolicyClause>), usize), ParseError>
    requires { ArePlaced source.now (lexemes tokens.now) }
    ensures { ReadsNext (optional (a_check source.now)) (lexemes tokens.now) read result }
{
    let (values, at) = read?;
    if !has(tokens, at, TokenKind::Reserved(Reserved::With)) {
        return Ok(((values, None), at));
    }
    let at_clause = reserved(tokens, at + 1, Reserved::Check)?;
    let (clause, end) = enclosed(alloc, source, tokens, at_clause)?;
    Ok(((values, Some(clause)), end))
}

/// `CREATE POLICY name ON name [AS (PERMISSIVE | RESTRICTIVE)] [FOR (ALL | action)] [TO grantees]
/// [USING "(" expr ")"] [WITH CHECK "(" expr ")"]`, and its end. The tokens are those of the source:
/// the policy keeps each condition as its tree and as the text from its first token to its last.
pub fn create_policy(
    alloc: Global,
    source: &str,
    tokens: &[Token],
) -> Result<(Statement, usize), ParseError>
    requires { ArePlaced source.now (lexemes tokens.now) }
    ensures { Reads (a_create_policy source.now) (lexemes tokens.now) 0 result }
{
    let read = token(tokens, Ok(((), 0)), TokenKind::Reserved(Reserved::Create));
    let read = token(tokens, read, TokenKind::Unreserved(Unreserved::Policy));
    let read = then::<_, Name>(alloc, tokens, read);
    let read = token(tokens, read, TokenKind::Reserved(Reserved::On));
    let read = then::<_, Name>(alloc, tokens, read);
    let read = after_word::<_, PolicyKind>(alloc, tokens, read, TokenKind::Reserved(Reserved::As));
    let read = after_word::<_, PolicyCommand>(
        alloc,
        tokens,
        read,
        TokenKind::Reserved(Reserved::For),
    );
    let read = after_word::<_, ListOf<Grantee>>(
        alloc,
        tokens,
        read,
        TokenKind::Reserved(Reserved::To),
    );
    let read = using(alloc, source, tokens, read);
    let (((((((((), policy), table), kind), command), grantees), using), check), end) = check(
        alloc, source, tokens, read,
    )?;
    Ok((
        Statement::OnDatabase(DatabaseStatement::Defining(DefiningStatement::CreatePolicy(
            CreatePolicy {
                policy,
                table,
                kind,
                command,
                grantees,
                using,
                check,
            },
        ))),
        end,
    ))
}

/// `DROP POLICY name ON name`, and its end.
pub fn drop_policy(alloc: Global, tokens: &[Token]) -> Result<(Statement, usize), ParseError>
    ensures { Reads a_drop_policy (lexemes tokens.now) 0 result }
{
    let read = token(tokens, Ok(((), 0)), TokenKind::Unreserved(Unreserved::Drop));
    let read = token(tokens, read, TokenKind::Unreserved(Unreserved::Policy));
    let read = then::<_, Name>(alloc, tokens, read);
    let read = token(tokens, read, TokenKind::Reserved(Reserved::On));
    let ((((), policy), table), end) = then::<_, Name>(alloc, tokens, read)?;
    Ok((
        Statement::OnDatabase(DatabaseStatement::Defining(DefiningStatement::DropPolicy(DropPolicy {
            policy,
            table,
        }))),
        end,
    ))
}
