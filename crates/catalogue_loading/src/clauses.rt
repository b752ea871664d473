//! The conditions of policies from their texts.

ghost use Rattle.std.specs.Prelude.{◌≡◌, ◌↔◌, ◌<◌, ◌^◌, ◌++◌, ℕ, List, IsTrue, IfErr, IfOk, IfSome, MatchOption, length};
ghost use Rattle.std.specs.Str.{IsUtf8};
ghost use Rattle.byteorder.specs.Endian.{big_bytes};
ghost use Rattle.sql_lexer.specs.Lexeme.{ArePlaced, lexemes};
ghost use Rattle.expr_parser.specs.Written.{IsAsWritten, IsTrimmed};
ghost use Rattle.stored_database.specs.RecordFormat.{clause_bytes};
ghost use Rattle.catalogue_loading.specs.Clauses.{AreStoredClauses, IsStoredClauseIfAny, SpansText, clauses_bytes, text_of};
ghost use Rattle.catalogue_loading.specs.Decoding.{Decodes, DecodesFront};

use expr_parser::laws::one_answer;
use expr_parser::whole::parse_expr;
use row_codec::counted_bytes_at;
use sql_ast::policy::PolicyClause;
use sql_lexer::laws::one_lexing;
use sql_lexer::lexer::tokens;
use sql_lexer::slice::text_between;
use sql_lexer::token::Token;
use sql_types::state::{Refusal, SqlState};
use sql_types::text::Text;
use std::alloc::Global;
use store::Fault;
use stored_database::one_condition;

// These bytes as a text, or `None` where they are not UTF-8.
fn utf8_of(bytes: &[u8]) -> Option<&str>
    ensures { MatchOption result
        (¬ (IsUtf8 bytes.now))
        (λ text. IsUtf8 bytes.now × (text.now ≡ bytes.now)) }
{
    match str::from_utf8(bytes) {
        Ok(text) => Some(text),
        Err(_) => None,
    }
}

// The text that the bytes spell after its length, and the bytes after it.
fn counted_text_at(bytes: &[u8]) -> Option<(&str, &[u8])>
    ensures found { IfSome result (λ r. IsUtf8 r.0.now × (length r.0.now < 2 ^ 16)
        × (bytes.now ≡ big_bytes 2 (length r.0.now) ++ r.0.now ++ r.1.now)) }
    ensures only { (text rest : List ℕ) → IsUtf8 text → length text < 2 ^ 16
        → bytes.now ≡ big_bytes 2 (length text) ++ text ++ rest
        → MatchOption result ⊥ (λ r. (r.0.now ≡ text) × (r.1.now ≡ rest)) }
{
    let (front, rest) = counted_bytes_at(bytes)?;
    let text = utf8_of(front)?;
    Some((text, rest))
}

// Whether the first of these tokens begins a text and the last of them ends it.
fn is_whole(text: &str, tokens: &[Token]) -> bool
    requires { ArePlaced text.now (lexemes tokens.now) }
    ensures { IsTrue result ↔ SpansText text.now (lexemes tokens.now) }
{
    if tokens.is_empty() {
        return text.is_empty();
    }
    text_between(text, tokens, 0, tokens.len() - 1) == text
}

// Whether a text begins with its first token and ends with its last. What is no list of tokens has
// nothing around its tokens.
fn is_trimmed(alloc: Global, text: &str) -> Result<bool, Fault>
    ensures trimmed { IfOk result (λ b. IsTrue b ↔ IsTrimmed text.now) }
    ensures memory { IfErr result (λ fault. fault ≡ Fault.Memory) }
{
    // For the proof: a text has one list of tokens.
    one_lexing();
    let tokens = match tokens(alloc, text) {
        Ok(tokens) => tokens,
        Err(Refusal(SqlState::OutOfMemory)) => return Err(Fault::Memory),
        Err(_) => return Ok(true),
    };
    Ok(is_whole(text, &tokens))
}

// The condition of this text.
fn decode_clause(alloc: Global, text: &str) -> Result<PolicyClause, Fault>
    ensures { Decodes IsAsWritten text_of text.now result }
{
    // For the proof: a text has one reading.
    one_answer();
    match is_trimmed(alloc, text) {
        Ok(true) => {}
        Ok(false) => return Err(Fault::Damaged),
        Err(fault) => return Err(fault),
    }
    let copy = Text::from_str(alloc, text)?;
    match parse_expr(alloc, text) {
        Ok(expression) => Ok(PolicyClause {
            text: copy,
            expression,
        }),
        Err(Refusal(SqlState::OutOfMemory)) => Err(Fault::Memory),
        Err(_) => Err(Fault::Damaged),
    }
}

// The condition with which the bytes begin, or none, and the bytes after it.
fn clause_at(alloc: Global, bytes: &[u8]) -> Result<(Option<PolicyClause>, &[u8]), Fault>
    ensures { DecodesFront IsStoredClauseIfAny clause_bytes bytes.now result }
{
    // For the proof: a text spells one condition.
    one_condition();
    let Some((tag, rest)) = bytes.split_first() else {
        return Err(Fault::Damaged);
    };
    if *tag == 0 {
        return Ok((None, rest));
    }
    if *tag != 1 {
        return Err(Fault::Damaged);
    }
    let Some((text, rest)) = counted_text_at(rest) else {
        return Err(Fault::Damaged);
    };
    match decode_clause(alloc, text) {
        Ok(clause) => Ok((Some(clause), rest)),
        Err(fault) => Err(fault),
    }
}

/// The conditions of USING and of WITH CHECK that are all there is. Damaged: these are the bytes of
/// no such conditions.
pub fn decode_clauses(
    alloc: Global,
    bytes: &[u8],
) -> Result<(Option<PolicyClause>, Option<PolicyClause>), Fault>
    ensures { Decodes AreStoredClauses clauses_bytes bytes.now result }
{
    let (using, rest) = match clause_at(alloc, bytes) {
        Ok(front) => front,
        Err(fault) => return Err(fault),
    };
    let (check, rest) = match clause_at(alloc, rest) {
        Ok(front) => front,
        Err(fault) => return Err(fault),
    };
    if !rest.is_empty() {
        return Err(Fault::Damaged);
    }
    Ok((using, check))
}
