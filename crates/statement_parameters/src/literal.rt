//! The literal of a value.

ghost use Rattle.std.specs.Prelude.{◌≡◌, ◌++◌, ◌∷◌, [], map, IfOk, OnOk};
ghost use Rattle.std.specs.List.{concat, flat_map};
ghost use Rattle.statement_parameters.specs.Literals.{viewed_literal};
ghost use Rattle.statement_parameters.specs.Parts.{doubled_quote, literal_tokens, number_tokens, quoted_literal};

use itoa::Buffer;
use sql_types::value::Value;
use std::alloc::{AllocError, Global};

/// The literal of a value: one token, or one behind a minus sign, and both in parentheses.
#[derive(Drop)]
pub struct Literal {
    pub negative: bool,
    pub bytes: Vec<u8>,
}

impl Literal {
    fn of_word(alloc: Global, bytes: &[u8]) -> Result<Literal, AllocError>
        ensures { IfOk result (λ literal. viewed_literal literal ≡ bytes.now ∷ []) }
    {
        let bytes = Vec::from_slice(alloc, bytes)?;
        Ok(Literal {
            negative: false,
            bytes,
        })
    }

    fn of_number(alloc: Global, number: i64) -> Result<Literal, AllocError>
        ensures { IfOk result (λ literal. viewed_literal literal ≡ number_tokens number) }
    {
        let mut buffer = Buffer::new();
        let bytes = Vec::from_slice(alloc, buffer.format(number.unsigned_abs()).as_bytes())?;
        Ok(Literal {
            negative: number < 0,
            bytes,
        })
    }

    fn of_text(alloc: Global, text: &str) -> Result<Literal, AllocError>
        ensures { IfOk result (λ literal. viewed_literal literal ≡ quoted_literal text.now ∷ []) }
    {
        let mut bytes = Vec::new(alloc);
        bytes.push(b'\'')?;
        put_doubled(text.as_bytes(), &mut bytes)?;
        bytes.push(b'\'')?;
        Ok(Literal {
            negative: false,
            bytes,
        })
    }

    fn of_value(alloc: Global, value: &Value) -> Result<Literal, AllocError>
        ensures { IfOk result (λ literal. viewed_literal literal ≡ literal_tokens value.now) }
    {
        match value {
            Value::Null => Literal::of_word(alloc, b"NULL"),
            Value::Int(number) => Literal::of_number(alloc, *number),
            Value::Text(text) => Literal::of_text(alloc, text.as_str()),
            Value::Bool(true) => Literal::of_word(alloc, b"TRUE"),
            Value::Bool(false) => Literal::of_word(alloc, b"FALSE"),
        }
    }

    // Puts the tokens of the literal behind bytes.
    pub(crate) fn put(&self, out: &mut Vec<u8>) -> Result<(), AllocError>
        ensures { OnOk result (out.new.items ≡ out.old.items ++ concat (viewed_literal self.now)) }
    {
        if self.negative {
            out.extend_from_slice(b"(-")?;
            out.extend_from_slice(&self.bytes)?;
            out.extend_from_slice(b")")
        } else {
            out.extend_from_slice(&self.bytes)
        }
    }
}

fn put_doubled_byte(byte: u8, out: &mut Vec<u8>) -> Result<(), AllocError>
    ensures { OnOk result (out.new.items ≡ out.old.items ++ doubled_quote byte) }
{
    if byte == b'\'' {
        out.extend_from_slice(b"''")
    } else {
        out.push(byte)?;
        Ok(())
    }
}

// Puts a text behind bytes, in which each quote is written twice.
fn put_doubled(text: &[u8], out: &mut Vec<u8>) -> Result<(), AllocError>
    ensures { OnOk result (out.new.items ≡ out.old.items ++ flat_map doubled_quote text.now) }
{
    for byte in text {
        put_doubled_byte(*byte, out)?;
    }
    Ok(())
}

// The literals of values, in order.
pub(crate) fn literals_of(alloc: Global, values: &[Value]) -> Result<Vec<Literal>, AllocError>
    ensures { IfOk result (λ literals. map viewed_literal literals.items ≡ map literal_tokens values.now) }
{
    let mut literals = Vec::new(alloc);
    for value in values {
        let literal = Literal::of_value(alloc, value)?;
        literals.push(literal)?;
    }
    Ok(literals)
}
