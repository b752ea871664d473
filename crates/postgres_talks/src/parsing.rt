//! What Parse asks.

ghost use Rattle.std.specs.Prelude.{◌≡◌, ◌==◌, ◌<◌, ◌^◌, IfOk, Some, length, suc};
ghost use Rattle.statement_parameters.specs.Samples.{sample_text};
ghost use Rattle.statement_parameters.specs.Templates.{parameter_count};
ghost use Rattle.statement_parameters.specs.Types.{type_of_oid};
ghost use Rattle.postgres_talks.specs.Parameters.{declared_type, declared_types, placed_type, takes_values, type_count};
ghost use Rattle.postgres_talks.specs.Requests.{IsCountedParse, IsParse, IsParseOf, IsPlainParse, IsSampledParse, IsTemplateParse, IsTypedParse, prepare_request, template_fault, template_request};

use crate::fault::TalkFault;
use crate::moment::Mode;
use crate::parameters::TypedTemplate;
use crate::piece::{PieceQueue, StatementPiece};
use crate::pieces::pieces_of;
use crate::requests::Request;
use sql_types::items::Items;
use sql_types::state::SqlState;
use sql_types::text::Text;
use statement_parameters::fault::TemplateFault;
use statement_parameters::samples::sample_text;
use statement_parameters::template::{LabelledTemplate, Template, is_plain};
use statement_parameters::types::{ParameterKind, ParameterType};
use std::alloc::{AllocError, Global};

/// The most parameters of a statement.
const MAX_PARAMETERS: usize = 4096;

// That a statement is kept under a name, with these types declared for its parameters.
pub(crate) fn parse_request(
    alloc: Global,
    name: &str,
    text: &str,
    oids: &[u32],
) -> Result<Request, AllocError>
    ensures { IfOk result (λ asked. IsParse name.now text.now oids.now asked) }
{
    if is_plain(text) {
        return plain_parse(alloc, name, text);
    }
    match Template::read(alloc, text)? {
        Ok(read) => counted_parse(alloc, name, text, read, oids),
        Err(TemplateFault::UnknownParameter) => Ok(refused(TalkFault::UnknownParameter)),
        Err(TemplateFault::Refused(_)) => plain_parse(alloc, name, text),
        Err(TemplateFault::NotText) => plain_parse(alloc, name, text),
    }
}

// A text without parameters is one of the language.
fn counted_parse(
    alloc: Global,
    name: &str,
    text: &str,
    read: LabelledTemplate,
    oids: &[u32],
) -> Result<Request, AllocError>
    ensures { IfOk result (λ asked. IsCountedParse (parameter_count read.template == 0) name.now text.now read oids.now asked) }
{
    if read.template.parameter_count() == 0 {
        plain_parse(alloc, name, text)
    } else {
        template_parse(alloc, name, read, oids)
    }
}

fn refused(fault: TalkFault) -> Request
    ensures { result ≡ Request.Fails Mode.Batch fault }
{
    Request::Fails(Mode::Batch, fault)
}

fn plain_parse(alloc: Global, name: &str, text: &str) -> Result<Request, AllocError>
    ensures { IfOk result (λ asked. IsPlainParse name.now text.now asked) }
{
    let pieces = pieces_of(alloc, text, true)?;
    prepare_request(alloc, name, pieces)
}

// One statement is prepared.
fn prepare_request(alloc: Global, name: &str, mut pieces: PieceQueue) -> Result<Request, AllocError>
    ensures { IfOk result (λ asked. asked ≡ prepare_request name.now pieces) }
{
    if pieces.len() == 1 {
        if let Some(piece) = pieces.pop() {
            return Ok(Request::Prepare(Text::from_str(alloc, name)?, piece));
        }
    }
    Ok(refused(TalkFault::SeveralStatements))
}

fn template_parse(
    alloc: Global,
    name: &str,
    read: LabelledTemplate,
    oids: &[u32],
) -> Result<Request, AllocError>
    ensures { IfOk result (λ asked. IsTemplateParse (template_fault read.template oids.now) name.now read oids.now asked) }
{
    if let Some(fault) = template_fault(&read.template, oids) {
        return Ok(refused(fault));
    }
    match declared_types(alloc, &read.template, oids)? {
        Some(types) => typed_parse(alloc, name, read, types),
        None => Ok(refused(TalkFault::UnknownType)),
    }
}

// What a statement is whose parameters have these types.
fn typed_parse(
    alloc: Global,
    name: &str,
    read: LabelledTemplate,
    types: Items<ParameterType>,
) -> Result<Request, AllocError>
    ensures { IfOk result (λ asked. IsTypedParse name.now read (Some types) asked) }
{
    let LabelledTemplate { template, labels } = read;
    let typed = TypedTemplate {
        template,
        labels,
        types,
    };
    sampled_parse(alloc, name, typed)
}

fn template_fault(template: &Template, oids: &[u32]) -> Option<TalkFault>
    ensures { result ≡ template_fault template.now oids.now }
{
    if !takes_values(template) {
        Some(TalkFault::UnknownParameter)
    } else if type_count(template, oids) <= MAX_PARAMETERS {
        None
    } else {
        Some(TalkFault::Refused(SqlState::ProgramLimitExceeded))
    }
}

// Parameters stand in these statements alone.
fn takes_values(template: &Template) -> bool
    ensures { result ≡ takes_values template.now }
{
    template.begins_with(b"select")
        || template.begins_with(b"insert")
        || template.begins_with(b"update")
        || template.begins_with(b"delete")
}

fn type_count(template: &Template, oids: &[u32]) -> usize
    ensures { result ≡ type_count template.now oids.now }
{
    let count = template.parameter_count() as usize;
    if count < oids.len() {
        oids.len()
    } else {
        count
    }
}

// The types that are declared, if each is one that a parameter may have.
fn declared_types(
    alloc: Global,
    template: &Template,
    oids: &[u32],
) -> Result<Option<Items<ParameterType>>, AllocError>
    ensures { IfOk result (λ types. types ≡ declared_types template.now oids.now) }
{
    let mut types = Items::new(alloc);
    let mut index = 0;
    let mut left = type_count(template, oids);
    while 0 < left {
        let Some(declared) = declared_type(template, oids, index) else {
            return Ok(None);
        };
        types.push(declared)?;
        index += 1;
        left -= 1;
    }
    Ok(Some(types))
}

fn declared_type(template: &Template, oids: &[u32], index: usize) -> Option<ParameterType>
    requires { suc index < 2 ^ 64 }
    ensures { result ≡ declared_type template.now oids.now index }
{
    let oid = if index < oids.len() { oids[index] } else { 0 };
    let declared = ParameterType::of_oid(oid)?;
    Some(placed_type(template.follows_limit(index + 1), declared))
}

// Behind LIMIT stands a number.
fn placed_type(is_limit: bool, declared: ParameterType) -> ParameterType
    ensures { result ≡ placed_type is_limit declared }
{
    if is_limit && declared.kind().is_none() {
        ParameterType::Int8
    } else {
        declared
    }
}

// What a statement with parameters is, with a sample of each type that is declared.
fn sampled_parse(alloc: Global, name: &str, typed: TypedTemplate) -> Result<Request, AllocError>
    ensures { IfOk result (λ asked. IsSampledParse name.now typed (sample_text (length typed.types) ParameterKind.Text typed.types typed.template) asked) }
{
    let types = typed.types.as_slice();
    match sample_text(
        alloc,
        &typed.template,
        types,
        types.len(),
        ParameterKind::Text,
    )? {
        Some(text) => {
            let pieces = pieces_of(alloc, text.as_str(), false)?;
            template_request(alloc, name, typed, pieces)
        }
        None => Ok(refused(TalkFault::Refused(SqlState::ProgramLimitExceeded))),
    }
}

// It is kept unless it is known already to be refused.
fn template_request(
    alloc: Global,
    name: &str,
    typed: TypedTemplate,
    mut pieces: PieceQueue,
) -> Result<Request, AllocError>
    ensures { IfOk result (λ asked. asked ≡ template_request name.now typed pieces) }
{
    if pieces.len() != 1 {
        return Ok(refused(TalkFault::SeveralStatements));
    }
    match pieces.pop() {
        Some(StatementPiece::Faulty(fault)) => Ok(refused(fault)),
        Some(_) => Ok(Request::PrepareTemplate(Text::from_str(alloc, name)?, typed)),
        None => Ok(refused(TalkFault::SeveralStatements)),
    }
}
