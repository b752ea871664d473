//! The commands, each with the function that reads it.

ghost use Rattle.sql_lexer.specs.Lexeme.{ArePlaced, lexemes};
ghost use Rattle.sql_grammar.specs.LookAhead.{Reads};
ghost use Rattle.sql_commands.specs.Commands.{phrase_of};

use crate::memberships::{grant_role, revoke_admin_option, revoke_role};
use crate::policies::{create_policy, drop_policy};
use crate::privileges::{grant, revoke};
use crate::queries::{select, select_count};
use crate::roles::{create_role, drop_role, reset_role, set_role};
use crate::rows::{delete, insert, update};
use crate::tables::{alter_table, create_table, drop_table};
use crate::transactions::{begin, commit, rollback, start_transaction};
use expr_parser::parse_error::ParseError;
use sql_ast::statement::Statement;
use sql_lexer::token::Token;
use std::alloc::Global;

/// Which command a statement is.
#[derive(Clone, Copy, PartialEq, Eq)]
pub enum Command {
    Select,
    SelectCount,
    Insert,
    Update,
    Delete,
    Begin,
    StartTransaction,
    Commit,
    Rollback,
    SetRole,
    ResetRole,
    CreateRole,
    DropRole,
    GrantRole,
    RevokeRole,
    RevokeAdminOption,
    CreateTable,
    DropTable,
    AlterTable,
    CreatePolicy,
    DropPolicy,
    Grant,
    Revoke,
}

/// The commands, each once, in the order in which they are tried: those over rows come first.
pub const COMMANDS: [Command; 23] = [
    Command::Select,
    Command::SelectCount,
    Command::Insert,
    Command::Update,
    Command::Delete,
    Command::Begin,
    Command::StartTransaction,
    Command::Commit,
    Command::Rollback,
    Command::SetRole,
    Command::ResetRole,
    Command::CreateRole,
    Command::DropRole,
    Command::GrantRole,
    Command::RevokeRole,
    Command::RevokeAdminOption,
    Command::CreateTable,
    Command::DropTable,
    Command::AlterTable,
    Command::CreatePolicy,
    Command::DropPolicy,
    Command::Grant,
    Command::Revoke,
];

/// The statement that the tokens of a source spell as one command, and the index after it: what is
/// spelled from the first token on, and the only reading, if there is one, that ends where no token
/// can extend it. `Syntax` comes only where there is none, `Memory` where memory was refused. The
/// caller's tokens are slices of the source.
pub fn read_as(
    alloc: Global,
    source: &str,
    tokens: &[Token],
    command: Command,
) -> Result<(Statement, usize), ParseError>
    requires { ArePlaced source.now (lexemes tokens.now) }
    ensures { Reads (phrase_of source.now command) (lexemes tokens.now) 0 result }
{
    match command {
        Command::Select => select(alloc, tokens),
        Command::SelectCount => select_count(alloc, tokens),
        Command::Insert => insert(alloc, tokens),
        Command::Update => update(alloc, tokens),
        Command::Delete => delete(alloc, tokens),
        Command::Begin => begin(tokens),
        Command::StartTransaction => start_transaction(tokens),
        Command::Commit => commit(tokens),
        Command::Rollback => rollback(tokens),
        Command::SetRole => set_role(alloc, tokens),
        Command::ResetRole => reset_role(tokens),
        Command::CreateRole => create_role(alloc, tokens),
        Command::DropRole => drop_role(alloc, tokens),
        Command::GrantRole => grant_role(alloc, tokens),
        Command::RevokeRole => revoke_role(alloc, tokens),
        Command::RevokeAdminOption => revoke_admin_option(alloc, tokens),
        Command::CreateTable => create_table(alloc, tokens),
        Command::DropTable => drop_table(alloc, tokens),
        Command::AlterTable => alter_table(alloc, tokens),
        Command::CreatePolicy => create_policy(alloc, source, tokens),
        Command::DropPolicy => drop_policy(alloc, tokens),
        Command::Grant => grant(alloc, tokens),
        Command::Revoke => revoke(alloc, tokens),
    }
}
