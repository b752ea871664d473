//! Statements from a text, stage after stage.

ghost use Rattle.std.specs.Prelude.{IfOk};
ghost use Rattle.sql_ast.specs.Statements.{IsRead};
ghost use Rattle.expr_parser.specs.Stages.{Parses};
ghost use Rattle.sql_parser.specs.Forms.{Means, IsStatementWithinDepth};
ghost use Rattle.sql_parser.specs.Policies.{HasConditionsAsWritten};

use crate::depth::is_within_depth;
use crate::form_rules::is_well_formed;
use expr_parser::grammar::Grammar;
use expr_parser::parse_error::ParseError;
use expr_parser::stages::parse_text;
use sql_ast::statement::Statement;
use sql_commands::whole::statement;
use sql_lexer::laws::one_lexing;
use sql_lexer::token::Token;
use sql_types::state::Refusal;
use std::alloc::Global;

// The grammar in which tokens mean a statement: they spell it, and it keeps the rules of form.
struct OneStatement;

impl Grammar for OneStatement {
    ghost use Rattle.sql_parser.specs.Forms.{Means, IsStatementWithinDepth};

    type Value = Statement;

    ghost Means = { Means };

    ghost IsWithinDepth = { IsStatementWithinDepth };

    fn read(alloc: Global, source: &str, tokens: &[Token]) -> Result<Statement, ParseError> {
        let statement = statement(alloc, source, tokens)?;
        if is_well_formed(&statement) {
            Ok(statement)
        } else {
            Err(ParseError::Syntax)
        }
    }

    fn is_within_depth(value: &Statement) -> bool {
        is_within_depth(value)
    }
}

/// The statement that a text stands for, or the refusal of the first stage that refuses it.
///
/// The stages are those of [`parse_text`]: the length, the tokens, the parentheses, grammar and
/// form, numbers out of range, depth. What is answered may be read: its names are names of 1 to 63
/// bytes, its values are values, and it keeps the rules of form of its command. Each condition of a
/// policy is as written: the text that is kept of it begins with its first token, ends with its
/// last, and is parsed as its expression. The time is in proportion to the text.
pub fn parse(alloc: Global, text: &str) -> Result<Statement, Refusal>
    ensures answer { Parses (Means text.now) IsStatementWithinDepth text.now result }
    ensures read { IfOk result IsRead }
    ensures policies { IfOk result HasConditionsAsWritten }
{
    // For the proof: a text has one list of tokens.
    one_lexing();
    parse_text::<OneStatement>(alloc, text)
}
