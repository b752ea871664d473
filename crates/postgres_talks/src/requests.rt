//! What a message of a client asks.

ghost use Rattle.std.specs.Prelude.{◌≡◌, IfOk, map, Some};
ghost use Rattle.std.specs.Option.{option_map};
ghost use Rattle.postgres_messages.specs.Frontend.{close, describe, execute};
ghost use Rattle.postgres_messages.specs.StartReading.{viewed_parameter, viewed_start};
ghost use Rattle.postgres_messages.specs.Views.{viewed_binding, viewed_message, viewed_target};
ghost use Rattle.postgres_talks.specs.Requests.{IsAskedBy, IsBind, IsMessageRequest, IsRequest, IsStartRequest, broken, denied, login_of, mode_of, parameter_of, plain_request, row_limit, start_request};

use crate::binding::bound_piece;
use crate::fault::TalkFault;
use crate::formats::{ResultFormats, are_format_codes, formats_of};
use crate::moment::{Mode, TalkMoment, TalkStage};
use crate::named_pieces::NamedPieces;
use crate::parameters::TypedTemplate;
use crate::parsing::parse_request;
use crate::piece::{PieceQueue, StatementPiece};
use crate::pieces::pieces_of;
use postgres_messages::frontend::{BoundValues, FrontendMessage, NamedObject, read_message};
use postgres_messages::read_error::ReadError;
use postgres_messages::start::{Parameter, StartPacket, read_start};
use sql_types::state::SqlState;
use sql_types::text::Text;
use std::alloc::{AllocError, Global};
use std::str::from_utf8;

/// What a message asks.
#[derive(Drop)]
pub enum Request {
    /// An encrypted connection.
    Encryption,
    /// A session for the role of this name.
    Login(Text),
    /// That these statements are carried out.
    Statements(PieceQueue),
    /// That a statement is kept under a name.
    Prepare(Text, StatementPiece),
    /// That a statement with parameters is kept under a name.
    PrepareTemplate(Text, TypedTemplate),
    /// That a portal of a name is made of a prepared statement, of which what is bound makes this, and whose rows come in these formats.
    Bind(Text, Text, Result<StatementPiece, TalkFault>, ResultFormats),
    /// That a portal is carried out, and how many of its rows are asked for at most, or 0 for all.
    Execute(Text, u32),
    /// What a prepared statement takes and answers.
    DescribeStatement(Text),
    /// What a portal answers.
    DescribePortal(Text),
    /// That a prepared statement is forgotten.
    CloseStatement(Text),
    /// That a portal is.
    ClosePortal(Text),
    /// The end of a batch, and how the block stands.
    Sync,
    Nothing,
    /// The end of the connection.
    Leave,
    /// It has a fault, and the connection goes on.
    Fails(Mode, TalkFault),
    /// It has a fault, and the connection ends.
    Breaks(TalkFault),
}

// What the bytes of a message ask.
pub(crate) fn request_of(
    alloc: Global,
    moment: &TalkMoment,
    message: &[u8],
) -> Result<Request, AllocError>
    ensures { IfOk result (λ asked. IsRequest moment.now message.now asked) }
{
    match moment.stage {
        TalkStage::Starting => start_request(alloc, message),
        _ => message_request(alloc, &moment.statements, message),
    }
}

fn start_request(alloc: Global, bytes: &[u8]) -> Result<Request, AllocError>
    ensures { IfOk result (λ asked. IsStartRequest bytes.now asked) }
{
    match read_start(alloc, bytes) {
        Ok(packet) => packet_request(alloc, &packet),
        Err(ReadError::Memory) => Err(AllocError),
        Err(ReadError::NotText) => Ok(broken()),
        Err(ReadError::Malformed) => Ok(broken()),
    }
}

// Bytes that are no message.
fn broken() -> Request
    ensures { result ≡ broken }
{
    Request::Breaks(TalkFault::Refused(SqlState::ProtocolViolation))
}

fn denied() -> Request
    ensures { result ≡ denied }
{
    Request::Breaks(TalkFault::Refused(SqlState::InvalidAuthorization))
}

fn packet_request(alloc: Global, packet: &StartPacket<'_>) -> Result<Request, AllocError>
    ensures { IfOk result (λ asked. asked ≡ start_request (viewed_start packet.now)) }
{
    match packet {
        StartPacket::SslRequest | StartPacket::GssEncRequest => Ok(Request::Encryption),
        StartPacket::CancelRequest(_, _) => Ok(Request::Leave),
        StartPacket::Startup(0, parameters) => login(alloc, parameter_of(b"user", parameters)),
        StartPacket::Startup(_, _) => Ok(Request::Breaks(TalkFault::OtherVersion)),
        StartPacket::OtherVersion(_, _) => Ok(Request::Breaks(TalkFault::OtherVersion)),
    }
}

// The value of the first parameter of a name.
fn parameter_of<'a>(name: &[u8], mut parameters: &[Parameter<'a>]) -> Option<&'a [u8]>
    ensures { option_map (λ value. value.now) result ≡ parameter_of name.now (map viewed_parameter parameters.entry.now) }
{
    while let [first, rest @ ..] = parameters {
        if first.name == name {
            return Some(first.value);
        }
        parameters = rest;
    }
    None
}

fn login(alloc: Global, role: Option<&[u8]>) -> Result<Request, AllocError>
    ensures { IfOk result (λ asked. asked ≡ login_of (option_map (λ value. value.now) role.entry)) }
{
    match role {
        Some(role) => login_as(alloc, role),
        None => Ok(denied()),
    }
}

// A role is named by text.
fn login_as(alloc: Global, role: &[u8]) -> Result<Request, AllocError>
    ensures { IfOk result (λ asked. asked ≡ login_of (Some role.now)) }
{
    if role.is_empty() {
        return Ok(denied());
    }
    match from_utf8(role) {
        Ok(name) => Ok(Request::Login(Text::from_str(alloc, name)?)),
        Err(_) => Ok(denied()),
    }
}

fn message_request(
    alloc: Global,
    statements: &NamedPieces,
    bytes: &[u8],
) -> Result<Request, AllocError>
    ensures { IfOk result (λ asked. IsMessageRequest statements.now bytes.now asked) }
{
    match read_message(alloc, bytes) {
        Ok(message) => asked_by(alloc, statements, &message),
        Err(ReadError::Memory) => Err(AllocError),
        Err(ReadError::NotText) => Ok(Request::Fails(mode_of(bytes), TalkFault::NotText)),
        Err(ReadError::Malformed) => Ok(broken()),
    }
}

// By what rules a message is answered, by its first byte.
fn mode_of(bytes: &[u8]) -> Mode
    ensures { result ≡ mode_of bytes.now }
{
    match bytes {
        [b'Q', ..] => Mode::Query,
        _ => Mode::Batch,
    }
}

fn asked_by(
    alloc: Global,
    statements: &NamedPieces,
    message: &FrontendMessage<'_>,
) -> Result<Request, AllocError>
    ensures { IfOk result (λ asked. IsAskedBy statements.now (viewed_message message.now) asked) }
{
    match message {
        FrontendMessage::Query(text) => Ok(Request::Statements(pieces_of(alloc, text, true)?)),
        FrontendMessage::Parse(name, text, oids) => parse_request(alloc, name, text, oids),
        FrontendMessage::Bind(portal, statement, bound) => {
            bind_request(alloc, statements, portal, statement, bound)
        }
        _ => plain_request(alloc, message),
    }
}

// What a message asks that has no text.
fn plain_request(alloc: Global, message: &FrontendMessage<'_>) -> Result<Request, AllocError>
    ensures { IfOk result (λ asked. asked ≡ plain_request (viewed_message message.now)) }
{
    match message {
        FrontendMessage::Sync => Ok(Request::Sync),
        FrontendMessage::Terminate => Ok(Request::Leave),
        FrontendMessage::Flush
        | FrontendMessage::CopyData(_)
        | FrontendMessage::CopyDone(_)
        | FrontendMessage::CopyFail(_) => Ok(Request::Nothing),
        FrontendMessage::Password(_) => Ok(broken()),
        FrontendMessage::Execute(portal, most) => execute_request(alloc, portal, *most),
        FrontendMessage::Close(object) => close_request(alloc, object),
        FrontendMessage::Describe(object) => describe_request(alloc, object),
        _ => Ok(Request::Fails(Mode::Query, TalkFault::Unsupported)),
    }
}

fn bind_request(
    alloc: Global,
    statements: &NamedPieces,
    portal: &str,
    statement: &str,
    bound: &BoundValues<'_>,
) -> Result<Request, AllocError>
    ensures { IfOk result (λ asked. IsBind statements.now portal.now statement.now (viewed_binding bound.now) asked) }
{
    if !are_format_codes(&bound.result_formats) {
        return Ok(Request::Fails(Mode::Batch, TalkFault::UnknownFormat));
    }
    let piece = bound_piece(alloc, statements.find(statement), bound)?;
    let portal = Text::from_str(alloc, portal)?;
    let statement = Text::from_str(alloc, statement)?;
    let formats = formats_of(alloc, &bound.result_formats)?;
    Ok(Request::Bind(portal, statement, piece, formats))
}

fn execute_request(alloc: Global, portal: &str, most: u32) -> Result<Request, AllocError>
    ensures { IfOk result (λ asked. asked ≡ plain_request (execute portal.now most)) }
{
    let portal = Text::from_str(alloc, portal)?;
    Ok(Request::Execute(portal, row_limit(most)))
}

// How many rows are asked for at most: 0, and a number below zero, stand for all.
fn row_limit(most: u32) -> u32
    ensures { result ≡ row_limit most }
{
    if most < 2147483648 { most } else { 0 }
}

fn describe_request(alloc: Global, object: &NamedObject<'_>) -> Result<Request, AllocError>
    ensures { IfOk result (λ asked. asked ≡ plain_request (describe (viewed_target object.now))) }
{
    match object {
        NamedObject::Statement(name) => {
            Ok(Request::DescribeStatement(Text::from_str(alloc, name)?))
        }
        NamedObject::Portal(name) => Ok(Request::DescribePortal(Text::from_str(alloc, name)?)),
    }
}

fn close_request(alloc: Global, object: &NamedObject<'_>) -> Result<Request, AllocError>
    ensures { IfOk result (λ asked. asked ≡ plain_request (close (viewed_target object.now))) }
{
    match object {
        NamedObject::Statement(name) => {
            Ok(Request::CloseStatement(Text::from_str(alloc, name)?))
        }
        NamedObject::Portal(name) => Ok(Request::ClosePortal(Text::from_str(alloc, name)?)),
    }
}
