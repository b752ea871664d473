//! Texts with samples for parameters whose types are to be found.

ghost use Rattle.std.specs.Prelude.{◌≡◌, ◌≤◌, IfOk, Some, length};
ghost use Rattle.statement_parameters.specs.Samples.{fitting, sample_at, sample_of_kind, sample_or_null, sample_text, sample_values};

use crate::binding::made_text;
use crate::literal::literals_of;
use crate::template::Template;
use crate::types::{ParameterKind, ParameterType};
use sql_types::text::Text;
use sql_types::value::Value;
use std::alloc::{AllocError, Global};

/// A statement with a sample for each parameter: `0`, an empty text or TRUE by its type, that of the candidate at an index from 0, and
/// NULL for each other that has no type yet. Whether the machine takes it tells whether the candidate is the type of that parameter.
/// `None` where it is over 65,536 bytes long. Its tokens are not compared: it is asked about, and never carried out.
pub fn sample_text(
    alloc: Global,
    template: &Template,
    types: &[ParameterType],
    at: usize,
    candidate: ParameterKind,
) -> Result<Option<Text>, AllocError>
    ensures { IfOk result (λ text. text ≡ sample_text at candidate types.now template.now) }
{
    let values = sample_values(alloc, at, candidate, types)?;
    let literals = literals_of(alloc, &values)?;
    match made_text(alloc, template.spans(), &literals)? {
        Ok(made) => Ok(fitting(made)),
        Err(_) => Ok(None),
    }
}

fn fitting(made: Vec<u8>) -> Option<Text>
    requires { length made.items ≤ 65536 }
    ensures { result ≡ fitting (Some made.items) }
{
    match String::from_utf8(made) {
        Ok(text) => Some(Text::from_string(text)),
        Err(_) => None,
    }
}

fn sample_of_kind(alloc: Global, kind: ParameterKind) -> Result<Value, AllocError>
    ensures { IfOk result (λ value. value ≡ sample_of_kind kind) }
{
    match kind {
        ParameterKind::BigInt => Ok(Value::Int(0)),
        ParameterKind::Text => Ok(Value::Text(Text::from_str(alloc, "")?)),
        ParameterKind::Boolean => Ok(Value::Bool(true)),
    }
}

fn sample_or_null(alloc: Global, kind: Option<ParameterKind>) -> Result<Value, AllocError>
    ensures { IfOk result (λ value. value ≡ sample_or_null kind) }
{
    match kind {
        Some(kind) => sample_of_kind(alloc, kind),
        None => Ok(Value::Null),
    }
}

fn sample_at(
    alloc: Global,
    at: usize,
    candidate: ParameterKind,
    index: usize,
    declared: ParameterType,
) -> Result<Value, AllocError>
    ensures { IfOk result (λ value. value ≡ sample_at at candidate index declared) }
{
    if index == at {
        sample_of_kind(alloc, candidate)
    } else {
        sample_or_null(alloc, declared.kind())
    }
}

fn sample_values(
    alloc: Global,
    at: usize,
    candidate: ParameterKind,
    types: &[ParameterType],
) -> Result<Vec<Value>, AllocError>
    ensures { IfOk result (λ values. values.items ≡ sample_values at candidate 0 types.now) }
{
    let mut values = Vec::new(alloc);
    let mut index = 0;
    let mut rest = types;
    while let [declared, after @ ..] = rest {
        let value = sample_at(alloc, at, candidate, index, *declared)?;
        values.push(value)?;
        index += 1;
        rest = after;
    }
    Ok(values)
}
