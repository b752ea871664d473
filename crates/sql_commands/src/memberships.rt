//! Members of roles: GRANT and REVOKE of roles.

ghost use Rattle.sql_lexer.specs.Lexeme.{lexemes};
ghost use Rattle.sql_grammar.specs.LookAhead.{Reads};
ghost use Rattle.sql_commands.specs.Commands.{grant_role as a_grant_role, revoke_role as a_revoke_role, revoke_admin_option as a_revoke_admin_option};

use crate::list::ListOf;
use crate::privileges::BEHAVIORS;
use crate::steps::{then, three_words, token};
use expr_parser::parse_error::ParseError;
use sql_ast::statement::{
    DatabaseStatement, DefiningStatement, Grant, GrantRole, Revoke, RevokeRole, Statement,
};
use sql_grammar::word_of::optional_word_of;
use sql_lexer::token::{Reserved, Token, TokenKind, Unreserved};
use sql_types::name::Name;
use std::alloc::Global;

/// `GRANT names TO names [WITH ADMIN OPTION]`, and its end.
pub fn grant_role(alloc: Global, tokens: &[Token]) -> Result<(Statement, usize), ParseError>
    ensures { Reads a_grant_role (lexemes tokens.now) 0 result }
{
    let read = token(tokens, Ok(((), 0)), TokenKind::Reserved(Reserved::Grant));
    let read = then::<_, ListOf<Name>>(alloc, tokens, read);
    let read = token(tokens, read, TokenKind::Reserved(Reserved::To));
    let read = then::<_, ListOf<Name>>(alloc, tokens, read);
    let (((((), roles), members), with_admin_option), end) = three_words(
        tokens,
        read,
        TokenKind::Reserved(Reserved::With),
        TokenKind::Unreserved(Unreserved::Admin),
        TokenKind::Unreserved(Unreserved::Option),
    )?;
    Ok((
        Statement::OnDatabase(DatabaseStatement::Defining(DefiningStatement::GrantRole(
            GrantRole {
                roles,
                members,
                with_admin_option,
            },
        ))),
        end,
    ))
}

/// `REVOKE names FROM names [CASCADE | RESTRICT]`, and its end.
pub fn revoke_role(alloc: Global, tokens: &[Token]) -> Result<(Statement, usize), ParseError>
    ensures { Reads a_revoke_role (lexemes tokens.now) 0 result }
{
    let read = token(
        tokens,
        Ok(((), 0)),
        TokenKind::Unreserved(Unreserved::Revoke),
    );
    let read = then::<_, ListOf<Name>>(alloc, tokens, read);
    let read = token(tokens, read, TokenKind::Reserved(Reserved::From));
    let ((((), roles), members), at_behavior) = then::<_, ListOf<Name>>(alloc, tokens, read)?;
    let (behavior, end) = optional_word_of(tokens, at_behavior, &BEHAVIORS);
    Ok((
        Statement::OnDatabase(DatabaseStatement::Defining(DefiningStatement::RevokeRole(
            RevokeRole {
                admin_option_for: false,
                roles,
                members,
                behavior,
            },
        ))),
        end,
    ))
}

/// `REVOKE ADMIN OPTION FOR names FROM names [CASCADE | RESTRICT]`, and its end.
pub fn revoke_admin_option(
    alloc: Global,
    tokens: &[Token],
) -> Result<(Statement, usize), ParseError>
    ensures { Reads a_revoke_admin_option (lexemes tokens.now) 0 result }
{
    let read = token(
        tokens,
        Ok(((), 0)),
        TokenKind::Unreserved(Unreserved::Revoke),
    );
    let read = token(tokens, read, TokenKind::Unreserved(Unreserved::Admin));
    let read = token(tokens, read, TokenKind::Unreserved(Unreserved::Option));
    let read = token(tokens, read, TokenKind::Reserved(Reserved::For));
    let read = then::<_, ListOf<Name>>(alloc, tokens, read);
    let read = token(tokens, read, TokenKind::Reserved(Reserved::From));
    let ((((), roles), members), at_behavior) = then::<_, ListOf<Name>>(alloc, tokens, read)?;
    let (behavior, end) = optional_word_of(tokens, at_behavior, &BEHAVIORS);
    Ok((
        Statement::OnDatabase(DatabaseStatement::Defining(DefiningStatement::RevokeRole(
            RevokeRole {
                admin_option_for: true,
                roles,
                members,
                behavior,
            },
        ))),
        end,
    ))
}
