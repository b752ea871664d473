//! Roles: CREATE ROLE, DROP ROLE, SET ROLE, RESET ROLE.

ghost use Rattle.sql_lexer.specs.Lexeme.{lexemes};
ghost use Rattle.sql_grammar.specs.LookAhead.{Reads};
ghost use Rattle.sql_commands.specs.Commands.{create_role as a_create_role, drop_role as a_drop_role, set_role as a_set_role, reset_role as a_reset_role};

use crate::production::{KnownProduction, Production, Readable};
use crate::repeated::Repeated;
use crate::steps::{skip, then, token};
use expr_parser::parse_error::ParseError;
use expr_parser::reader::has;
use sql_ast::role::RoleAttribute;
use sql_ast::statement::{
    CreateRole, DatabaseStatement, DefiningStatement, DropRole, SessionStatement, SetRole,
    Statement,
};
use sql_grammar::word_of::{begins_word, word_of};
use sql_lexer::token::{Reserved, Token, TokenKind, Unreserved};
use sql_types::name::Name;
use std::alloc::Global;

const ATTRIBUTES: [(TokenKind, RoleAttribute); 6] = [
    (
        TokenKind::Unreserved(Unreserved::Superuser),
        RoleAttribute::Superuser,
    ),
    (
        TokenKind::Unreserved(Unreserved::NoSuperuser),
        RoleAttribute::NoSuperuser,
    ),
    (
        TokenKind::Unreserved(Unreserved::Login),
        RoleAttribute::Login,
    ),
    (
        TokenKind::Unreserved(Unreserved::NoLogin),
        RoleAttribute::NoLogin,
    ),
    (
        TokenKind::Unreserved(Unreserved::BypassRls),
        RoleAttribute::BypassRls,
    ),
    (
        TokenKind::Unreserved(Unreserved::NoBypassRls),
        RoleAttribute::NoBypassRls,
    ),
];

/// `SUPERUSER | NOSUPERUSER | LOGIN | NOLOGIN | BYPASSRLS | NOBYPASSRLS`
impl Readable for RoleAttribute {
    ghost use Rattle.std.specs.Prelude.{refl};
    ghost use Rattle.sql_commands.specs.Commands.{an_attribute};

    type Value = RoleAttribute;

    ghost phrase = { an_attribute };

    fn read(
        alloc: Global,
        tokens: &[Token],
        at: usize,
    ) -> Result<(RoleAttribute, usize), ParseError> {
        word_of(tokens, at, &ATTRIBUTES)
    }

    ghost determined = { refl };
}

impl Production for RoleAttribute {
    ghost use Rattle.std.specs.Prelude.{refl};

    ghost listable = { refl };
}

impl KnownProduction for RoleAttribute {
    ghost use Rattle.std.specs.Prelude.{refl};

    fn begins(tokens: &[Token], at: usize) -> bool {
        begins_word(tokens, at, &ATTRIBUTES)
    }

    ghost repeatable = { refl };
}

/// `CREATE ROLE name [WITH] {attribute}`, and its end.
pub fn create_role(alloc: Global, tokens: &[Token]) -> Result<(Statement, usize), ParseError>
    ensures { Reads a_create_role (lexemes tokens.now) 0 result }
{
    let read = token(tokens, Ok(((), 0)), TokenKind::Reserved(Reserved::Create));
    let read = token(tokens, read, TokenKind::Unreserved(Unreserved::Role));
    let read = then::<_, Name>(alloc, tokens, read);
    let read = skip(tokens, read, TokenKind::Reserved(Reserved::With));
    let (((((), role), ()), attributes), end) = then::<_, Repeated<RoleAttribute>>(
        alloc, tokens, read,
    )?;
    Ok((
        Statement::OnDatabase(DatabaseStatement::Defining(DefiningStatement::CreateRole(CreateRole {
            role,
            attributes,
        }))),
        end,
    ))
}

/// `DROP ROLE name`, and its end.
pub fn drop_role(alloc: Global, tokens: &[Token]) -> Result<(Statement, usize), ParseError>
    ensures { Reads a_drop_role (lexemes tokens.now) 0 result }
{
    let read = token(tokens, Ok(((), 0)), TokenKind::Unreserved(Unreserved::Drop));
    let read = token(tokens, read, TokenKind::Unreserved(Unreserved::Role));
    let (((), role), end) = then::<_, Name>(alloc, tokens, read)?;
    Ok((
        Statement::OnDatabase(DatabaseStatement::Defining(DefiningStatement::DropRole(DropRole {
            role,
        }))),
        end,
    ))
}

// NONE | name
struct RoleOrNone;

impl Readable for RoleOrNone {
    ghost use Rattle.std.specs.Prelude.{refl};
    ghost use Rattle.sql_commands.specs.Commands.{role_or_none};

    type Value = Option<Name>;

    ghost phrase = { role_or_none };

    fn read(
        alloc: Global,
        tokens: &[Token],
        at: usize,
    ) -> Result<(Option<Name>, usize), ParseError> {
        if has(tokens, at, TokenKind::Reserved(Reserved::None)) {
            return Ok((None, at + 1));
        }
        let (role, end) = Name::read(alloc, tokens, at)?;
        Ok((Some(role), end))
    }

    ghost determined = { refl };
}

/// `SET ROLE (name | NONE)`, and its end.
pub fn set_role(alloc: Global, tokens: &[Token]) -> Result<(Statement, usize), ParseError>
    ensures { Reads a_set_role (lexemes tokens.now) 0 result }
{
    let read = token(tokens, Ok(((), 0)), TokenKind::Unreserved(Unreserved::Set));
    let read = token(tokens, read, TokenKind::Unreserved(Unreserved::Role));
    let (((), role), end) = then::<_, RoleOrNone>(alloc, tokens, read)?;
    Ok((
        Statement::OfSession(SessionStatement::SetRole(SetRole { role })),
        end,
    ))
}

/// `RESET ROLE`, and its end.
pub fn reset_role(tokens: &[Token]) -> Result<(Statement, usize), ParseError>
    ensures { Reads a_reset_role (lexemes tokens.now) 0 result }
{
    let read = token(
        tokens,
        Ok(((), 0)),
        TokenKind::Unreserved(Unreserved::Reset),
    );
    let ((), end) = token(tokens, read, TokenKind::Unreserved(Unreserved::Role))?;
    Ok((Statement::OfSession(SessionStatement::ResetRole), end))
}
