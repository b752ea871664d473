//! What a packet of the start asks.

ghost use Rattle.std.specs.Prelude.{◌≡◌, Some, IfOk, map};
ghost use Rattle.std.specs.Option.{option_map};
ghost use Rattle.postgres_messages.specs.StartReading.{viewed_parameter, viewed_start};
ghost use Rattle.postgres_logins.specs.EntryMessages.{AsksAtStart, login_of, nameless, packet_request, user_in};

use postgres_messages::read_error::ReadError;
use postgres_messages::start::{Parameter, StartPacket, read_start};
use sql_types::state::SqlState;
use sql_types::text::Text;
use std::alloc::{AllocError, Global};
use std::str::from_utf8;

/// The parameter that names the role.
const USER: &[u8] = b"user";

/// What a packet of the start asks.
#[derive(Drop)]
pub enum StartRequest {
    /// Encryption, by TLS or by GSSAPI.
    Encryption,
    /// A session for this role.
    Login(Text),
    /// The end: it was to cancel a statement, which is not done here.
    Leave,
    /// Nothing that is taken here.
    Unfit(SqlState),
}

// What a message asks that is to be a packet of the start.
pub(crate) fn start_request(alloc: Global, message: &[u8]) -> Result<StartRequest, AllocError>
    ensures { IfOk result (λ asked. AsksAtStart message.now asked) }
{
    match read_start(alloc, message) {
        Ok(packet) => packet_request(alloc, &packet),
        Err(ReadError::Memory) => Err(AllocError),
        Err(ReadError::NotText) => Ok(StartRequest::Unfit(SqlState::ProtocolViolation)),
        Err(ReadError::Malformed) => Ok(StartRequest::Unfit(SqlState::ProtocolViolation)),
    }
}

fn packet_request(alloc: Global, packet: &StartPacket<'_>) -> Result<StartRequest, AllocError>
    ensures { IfOk result (λ asked. asked ≡ packet_request (viewed_start packet.now)) }
{
    match packet {
        StartPacket::SslRequest | StartPacket::GssEncRequest => Ok(StartRequest::Encryption),
        StartPacket::CancelRequest(_, _) => Ok(StartRequest::Leave),
        StartPacket::Startup(_, parameters) => login(alloc, user_in(parameters)),
        StartPacket::OtherVersion(_, _) => Ok(StartRequest::Unfit(SqlState::ProtocolViolation)),
    }
}

// The value of the first parameter `user`.
fn user_in<'a>(mut parameters: &[Parameter<'a>]) -> Option<&'a [u8]>
    ensures { option_map (λ value. value.now) result ≡ user_in (map viewed_parameter parameters.entry.now) }
{
    while let [first, rest @ ..] = parameters {
        if first.name == USER {
            return Some(first.value);
        }
        parameters = rest;
    }
    None
}

fn login(alloc: Global, role: Option<&[u8]>) -> Result<StartRequest, AllocError>
    ensures { IfOk result (λ asked. asked ≡ login_of (option_map (λ value. value.now) role.entry)) }
{
    match role {
        Some(role) => login_as(alloc, role),
        None => Ok(nameless()),
    }
}

// A role is named by text.
fn login_as(alloc: Global, role: &[u8]) -> Result<StartRequest, AllocError>
    ensures { IfOk result (λ asked. asked ≡ login_of (Some role.now)) }
{
    if role.is_empty() {
        return Ok(nameless());
    }
    match from_utf8(role) {
        Ok(name) => Ok(StartRequest::Login(Text::from_str(alloc, name)?)),
        Err(_) => Ok(nameless()),
    }
}

// No role is named.
fn nameless() -> StartRequest
    ensures { result ≡ nameless }
{
    StartRequest::Unfit(SqlState::InvalidAuthorization)
}
