//! What values make of a statement that was prepared.

ghost use Rattle.std.specs.Prelude.{◌≡◌, IfOk, Ok, length, map};
ghost use Rattle.std.specs.Option.{option_copied};
ghost use Rattle.postgres_messages.specs.Views.{viewed_binding, viewed_value};
ghost use Rattle.statement_parameters.specs.Received.{received_value};
ghost use Rattle.postgres_talks.specs.Parameters.{IsBoundPiece, IsBoundByValues, IsBoundUnless, IsPieceOfBound, are_codes_for, binding_fault, bound_plain, count_fault, next_code, only_piece, other_codes, received_values, value_fault, with_labels_of};

use crate::fault::TalkFault;
use crate::named_pieces::NamedPiece;
use crate::parameters::TypedTemplate;
use crate::piece::{PieceQueue, StatementPiece};
use crate::pieces::{labelled, pieces_of};
use postgres_messages::frontend::{BoundValues, FieldBytes};
use sql_types::items::Items;
use sql_types::name::Name;
use sql_types::state::SqlState;
use sql_types::text::Text;
use sql_types::try_copy::TryCopy;
use sql_types::value::Value;
use statement_parameters::binding::bound_text;
use statement_parameters::fault::BindFault;
use statement_parameters::received::{ValueFault, value_of};
use statement_parameters::types::ParameterType;
use std::alloc::{AllocError, Global};

// What is bound makes this of what was found under a name.
pub(crate) fn bound_piece(
    alloc: Global,
    found: Option<&NamedPiece>,
    bound: &BoundValues<'_>,
) -> Result<Result<StatementPiece, TalkFault>, AllocError>
    ensures { IfOk result (λ piece. IsBoundPiece (option_copied found.entry) (viewed_binding bound.now) piece) }
{
    let Some(entry) = found else {
        return Ok(Err(TalkFault::UnknownStatement));
    };
    match &entry.parameters {
        None => bound_plain(alloc, &entry.piece, bound.values.len()),
        Some(template) => bound_template(alloc, template, bound),
    }
}

// A statement without parameters takes no values.
fn bound_plain(
    alloc: Global,
    piece: &StatementPiece,
    count: usize,
) -> Result<Result<StatementPiece, TalkFault>, AllocError>
    ensures { IfOk result (λ bound. bound ≡ bound_plain piece.now count) }
{
    if count == 0 {
        Ok(Ok(piece.try_copy(alloc)?))
    } else {
        Ok(Err(TalkFault::OtherCount))
    }
}

fn bound_template(
    alloc: Global,
    template: &TypedTemplate,
    bound: &BoundValues<'_>,
) -> Result<Result<StatementPiece, TalkFault>, AllocError>
    ensures { IfOk result (λ piece. IsBoundUnless (count_fault template.now (viewed_binding bound.now)) template.now (viewed_binding bound.now) piece) }
{
    if let Some(fault) = count_fault(template, bound) {
        return Ok(Err(fault));
    }
    match received_values(
        alloc,
        template.types.as_slice(),
        &bound.formats,
        &bound.values,
    )? {
        Ok(values) => bound_by_values(alloc, template, values.as_slice()),
        Err(fault) => Ok(Err(value_fault(fault))),
    }
}

fn count_fault(template: &TypedTemplate, bound: &BoundValues<'_>) -> Option<TalkFault>
    ensures { result ≡ count_fault template.now (viewed_binding bound.now) }
{
    let count = template.types.len();
    if bound.values.len() != count {
        Some(TalkFault::OtherCount)
    } else if are_codes_for(&bound.formats, count) {
        None
    } else {
        Some(TalkFault::OtherFormats)
    }
}

// Whether there is at most one format, or one for each of so many values.
fn are_codes_for(codes: &[u16], values: usize) -> bool
    ensures { result ≡ are_codes_for codes.now values }
{
    match codes {
        [] => true,
        [_] => true,
        _ => codes.len() == values,
    }
}

// The code of the format of the next value: without codes all values are text, and one is for all.
fn next_code(codes: &[u16]) -> u16
    ensures { result ≡ next_code codes.now }
{
    match codes {
        [] => 0,
        [first, ..] => *first,
    }
}

// Those of the values behind it.
fn other_codes(codes: &[u16]) -> &[u16]
    ensures { result.now ≡ other_codes codes.now }
{
    match codes {
        [_, rest @ ..] if !rest.is_empty() => rest,
        _ => codes,
    }
}

// The values, each of its type, or the first fault.
fn received_values(
    alloc: Global,
    types: &[ParameterType],
    formats: &[u16],
    fields: &[FieldBytes<'_>],
) -> Result<Result<Items<Value>, ValueFault>, AllocError>
    ensures { IfOk result (λ values. values ≡ received_values types.now formats.now (map viewed_value fields.now)) }
{
    let mut values = Items::new(alloc);
    let mut codes = formats;
    let mut left = fields;
    let mut rest = types;
    while let [declared, others @ ..] = rest {
        let [field, behind @ ..] = left else {
            return Ok(Ok(values));
        };
        match received_value(alloc, *declared, next_code(codes), *field)? {
            Ok(value) => values.push(value)?,
            Err(fault) => return Ok(Err(fault)),
        }
        codes = other_codes(codes);
        left = behind;
        rest = others;
    }
    Ok(Ok(values))
}

fn received_value(
    alloc: Global,
    declared: ParameterType,
    code: u16,
    field: FieldBytes<'_>,
) -> Result<Result<Value, ValueFault>, AllocError>
    ensures { IfOk result (λ value. value ≡ received_value declared code (viewed_value field.entry)) }
{
    match field {
        FieldBytes::Null => value_of(alloc, declared, code, None),
        FieldBytes::Bytes(bytes) => value_of(alloc, declared, code, Some(bytes)),
    }
}

// The text of a template with values is a statement.
fn bound_by_values(
    alloc: Global,
    template: &TypedTemplate,
    values: &[Value],
) -> Result<Result<StatementPiece, TalkFault>, AllocError>
    ensures { IfOk result (λ piece. IsBoundByValues template.now (Ok values.now) piece) }
{
    match bound_text(alloc, &template.template, values)? {
        Ok(text) => piece_of_bound(alloc, &template.labels, &text),
        Err(fault) => Ok(Err(binding_fault(fault))),
    }
}

// The one statement of a text, whose columns have these labels.
fn piece_of_bound(
    alloc: Global,
    labels: &Items<Option<Name>>,
    text: &Text,
) -> Result<Result<StatementPiece, TalkFault>, AllocError>
    ensures { IfOk result (λ piece. IsPieceOfBound labels.now (Ok text.now) piece) }
{
    let pieces = pieces_of(alloc, text.as_str(), false)?;
    let labels = labels.try_copy(alloc)?;
    Ok(with_labels_of(labels, only_piece(pieces)))
}

fn with_labels_of(
    labels: Items<Option<Name>>,
    piece: Result<StatementPiece, TalkFault>,
) -> Result<StatementPiece, TalkFault>
    ensures { result ≡ with_labels_of labels piece }
{
    match piece {
        Ok(piece) => Ok(labelled(labels, piece)),
        Err(fault) => Err(fault),
    }
}

fn only_piece(mut pieces: PieceQueue) -> Result<StatementPiece, TalkFault>
    ensures { result ≡ only_piece pieces }
{
    if pieces.len() == 1 {
        if let Some(piece) = pieces.pop() {
            return Ok(piece);
        }
    }
    Err(TalkFault::SeveralStatements)
}

fn value_fault(fault: ValueFault) -> TalkFault
    ensures { result ≡ value_fault fault }
{
    match fault {
        ValueFault::NoNumber | ValueFault::NoBoolean => TalkFault::InvalidText,
        ValueFault::OutOfRange => TalkFault::Refused(SqlState::NumericValueOutOfRange),
        ValueFault::WrongLength => TalkFault::InvalidBinary,
        ValueFault::NotText => TalkFault::NotText,
        ValueFault::UnknownFormat => TalkFault::UnknownFormat,
    }
}

fn binding_fault(fault: BindFault) -> TalkFault
    ensures { result ≡ binding_fault fault }
{
    match fault {
        BindFault::NoValue => TalkFault::OtherCount,
        BindFault::TooLong => TalkFault::Refused(SqlState::ProgramLimitExceeded),
        BindFault::OtherTokens => TalkFault::OtherTokens,
    }
}
