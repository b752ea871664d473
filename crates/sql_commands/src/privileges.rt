//! Privileges: GRANT and REVOKE of actions on a table or on columns of it.

ghost use Rattle.sql_lexer.specs.Lexeme.{lexemes};
ghost use Rattle.sql_grammar.specs.LookAhead.{Reads};
ghost use Rattle.sql_commands.specs.Commands.{grant as a_grant, revoke as a_revoke};

use crate::list::{InParentheses, ListOf};
use crate::optional::Optional;
use crate::production::{Production, Readable};
use crate::steps::{skip, then, three_words, token};
use expr_parser::parse_error::ParseError;
use expr_parser::reader::has;
use sql_ast::privilege::{Action, Grantee};
use sql_ast::statement::{
    DatabaseStatement, DefiningStatement, Delete, DropBehavior, Grant, Insert, NamedAction,
    Privileges, Revoke, Select, Statement, Update,
};
use sql_grammar::word_of::{optional_word_of, word_of};
use sql_lexer::token::{Reserved, Token, TokenKind, Unreserved};
use sql_types::name::Name;
use std::alloc::Global;

/// `CASCADE | RESTRICT`
pub const BEHAVIORS: [(TokenKind, DropBehavior); 2] = [
    (
        TokenKind::Unreserved(Unreserved::Cascade),
        DropBehavior::Cascade,
    ),
    (
        TokenKind::Unreserved(Unreserved::Restrict),
        DropBehavior::Restrict,
    ),
];

// SELECT | INSERT | UPDATE | DELETE
const ACTIONS: [(TokenKind, Action); 4] = [
    (TokenKind::Reserved(Reserved::Select), Action::Select),
    (TokenKind::Unreserved(Unreserved::Insert), Action::Insert),
    (TokenKind::Unreserved(Unreserved::Update), Action::Update),
    (TokenKind::Unreserved(Unreserved::Delete), Action::Delete),
];

/// `SELECT | INSERT | UPDATE | DELETE`
impl Readable for Action {
    ghost use Rattle.std.specs.Prelude.{refl};
    ghost use Rattle.sql_commands.specs.Commands.{an_action};

    type Value = Action;

    ghost phrase = { an_action };

    fn read(_: Global, tokens: &[Token], at: usize) -> Result<(Action, usize), ParseError> {
        word_of(tokens, at, &ACTIONS)
    }

    ghost determined = { refl };
}

/// `(SELECT | INSERT | UPDATE | DELETE) ["(" names ")"]`
impl Readable for NamedAction {
    ghost use Rattle.std.specs.Prelude.{refl};
    ghost use Rattle.sql_commands.specs.Commands.{a_named_action};

    type Value = NamedAction;

    ghost phrase = { a_named_action };

    fn read(
        alloc: Global,
        tokens: &[Token],
        at: usize,
    ) -> Result<(NamedAction, usize), ParseError> {
        let read = then::<_, Action>(alloc, tokens, Ok(((), at)));
        let ((((), action), columns), end) = then::<_, Optional<InParentheses<Name>>>(
            alloc, tokens, read,
        )?;
        Ok((NamedAction { action, columns }, end))
    }

    ghost determined = { refl };
}

impl Production for NamedAction {
    ghost use Rattle.std.specs.Prelude.{refl};

    ghost listable = { refl };
}

/// `PUBLIC | name`
impl Readable for Grantee {
    ghost use Rattle.std.specs.Prelude.{refl};
    ghost use Rattle.sql_commands.specs.Commands.{a_grantee};

    type Value = Grantee;

    ghost phrase = { a_grantee };

    fn read(alloc: Global, tokens: &[Token], at: usize) -> Result<(Grantee, usize), ParseError> {
        if has(tokens, at, TokenKind::Reserved(Reserved::Public)) {
            return Ok((Grantee::Public, at + 1));
        }
        let (role, end) = Name::read(alloc, tokens, at)?;
        Ok((Grantee::Role(role), end))
    }

    ghost determined = { refl };
}

impl Production for Grantee {
    ghost use Rattle.std.specs.Prelude.{refl};

    ghost listable = { refl };
}

/// `ALL [PRIVILEGES] ["(" names ")"] | action {"," action}`, where an action may have columns of its
/// own.
impl Readable for Privileges {
    ghost use Rattle.std.specs.Prelude.{refl};
    ghost use Rattle.sql_commands.specs.Commands.{some_privileges};

    type Value = Privileges;

    ghost phrase = { some_privileges };

    fn read(alloc: Global, tokens: &[Token], at: usize) -> Result<(Privileges, usize), ParseError> {
        if has(tokens, at, TokenKind::Reserved(Reserved::All)) {
            let read = skip(
                tokens,
                Ok(((), at + 1)),
                TokenKind::Unreserved(Unreserved::Privileges),
            );
            let ((((), ()), columns), end) = then::<_, Optional<InParentheses<Name>>>(
                alloc, tokens, read,
            )?;
            return Ok((Privileges::All(columns), end));
        }
        let (actions, end) = ListOf::<NamedAction>::read(alloc, tokens, at)?;
        Ok((Privileges::Actions(actions), end))
    }

    ghost determined = { refl };
}

/// `GRANT privileges ON [TABLE] name TO grantees [WITH GRANT OPTION]`, and its end.
pub fn grant(alloc: Global, tokens: &[Token]) -> Result<(Statement, usize), ParseError>
    ensures { Reads a_grant (lexemes tokens.now) 0 result }
{
    let read = token(tokens, Ok(((), 0)), TokenKind::Reserved(Reserved::Grant));
    let read = then::<_, Privileges>(alloc, tokens, read);
    let read = token(tokens, read, TokenKind::Reserved(Reserved::On));
    let read = skip(tokens, read, TokenKind::Reserved(Reserved::Table));
    let read = then::<_, Name>(alloc, tokens, read);
    let read = token(tokens, read, TokenKind::Reserved(Reserved::To));
    let read = then::<_, ListOf<Grantee>>(alloc, tokens, read);
    let (((((((), privileges), ()), table), grantees), with_grant_option), end) = three_words(
        tokens,
        read,
        TokenKind::Reserved(Reserved::With),
        TokenKind::Reserved(Reserved::Grant),
        TokenKind::Unreserved(Unreserved::Option),
    )?;
    Ok((
        Statement::OnDatabase(DatabaseStatement::Defining(DefiningStatement::Grant(Grant {
            privileges,
            table,
            grantees,
            with_grant_option,
        }))),
        end,
    ))
}

/// `REVOKE [GRANT OPTION FOR] privileges ON [TABLE] name FROM grantees [CASCADE | RESTRICT]`, and
/// its end.
pub fn revoke(alloc: Global, tokens: &[Token]) -> Result<(Statement, usize), ParseError>
    ensures { Reads a_revoke (lexemes tokens.now) 0 result }
{
    let read = token(
        tokens,
        Ok(((), 0)),
        TokenKind::Unreserved(Unreserved::Revoke),
    );
    let read = three_words(
        tokens,
        read,
        TokenKind::Reserved(Reserved::Grant),
        TokenKind::Unreserved(Unreserved::Option),
        TokenKind::Reserved(Reserved::For),
    );
    let read = then::<_, Privileges>(alloc, tokens, read);
    let read = token(tokens, read, TokenKind::Reserved(Reserved::On));
    let read = skip(tokens, read, TokenKind::Reserved(Reserved::Table));
    let read = then::<_, Name>(alloc, tokens, read);
    let read = token(tokens, read, TokenKind::Reserved(Reserved::From));
    let (((((((), grant_option_for), privileges), ()), table), grantees), at_behavior) = then::<
        _,
        ListOf<Grantee>,
    >(alloc, tokens, read)?;
    let (behavior, end) = optional_word_of(tokens, at_behavior, &BEHAVIORS);
    Ok((
        Statement::OnDatabase(DatabaseStatement::Defining(DefiningStatement::Revoke(Revoke {
            grant_option_for,
            privileges,
            table,
            grantees,
            behavior,
        }))),
        end,
    ))
}
