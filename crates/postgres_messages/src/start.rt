//! The packets with which a connection starts.

ghost use Rattle.std.specs.Prelude.{◌≡◌, length, map};
ghost use Rattle.postgres_messages.specs.Reading.{ended};
ghost use Rattle.postgres_messages.specs.Start.{is_three};
ghost use Rattle.postgres_messages.specs.StartReading.{IsReadStart, cancel_in, parameter_at, parameters_at, start_at, start_in, startup_in, viewed_parameter, viewed_start};
ghost use Rattle.postgres_messages.specs.Views.{GivesPart};

use crate::fields::{string_at, u32_at};
use crate::read_error::ReadError;
use std::alloc::Global;

/// The number of a CancelRequest.
const CANCEL_REQUEST: u32 = 80_877_102;

/// The number of an SSLRequest.
const SSL_REQUEST: u32 = 80_877_103;

/// The number of a GSSENCRequest.
const GSS_ENC_REQUEST: u32 = 80_877_104;

/// The number of version 3.0.
const VERSION_3: u32 = 196_608;

/// A parameter that a client gives the session: `user`, `database`, `options`, or a setting. Its bytes are as they were sent.
#[derive(Clone, Copy)]
pub struct Parameter<'a> {
    pub name: &'a [u8],
    pub value: &'a [u8],
}

/// A packet of the start (PostgreSQL 15 manual, 55.7).
#[derive(Drop)]
pub enum StartPacket<'a> {
    /// The number of the process whose statement is to be cancelled, and its key.
    CancelRequest(u32, u32),
    GssEncRequest,
    SslRequest,
    /// StartupMessage of version 3: the minor number that the client would like, and its parameters.
    Startup(u32, Vec<Parameter<'a>>),
    /// Another number, of which nothing is known here, and the bytes behind it.
    OtherVersion(u32, &'a [u8]),
}

/// The packet of the start that bytes are, as `start_front` finds them.
///
/// `Malformed`: they are none. `Memory`: an allocation failed.
pub fn read_start(alloc: Global, bytes: &[u8]) -> Result<StartPacket<'_>, ReadError>
    ensures { IsReadStart bytes.now result }
{
    start_at(alloc, bytes)
}

#[tactic(auto, unfolding(crate::specs::StartReading::start_at))]
fn start_at(alloc: Global, bytes: &[u8]) -> Result<StartPacket<'_>, ReadError>
    ensures { GivesPart viewed_start result (start_at bytes.now) }
{
    let (length, rest) = u32_at(bytes)?;
    let (code, body) = u32_at(rest)?;
    if length as usize == bytes.len() {
        start_in(alloc, code, body)
    } else {
        Err(ReadError::Malformed)
    }
}

// The packet of a number that a body is.
#[tactic(auto, unfolding(crate::specs::StartReading::start_in))]
fn start_in(alloc: Global, code: u32, body: &[u8]) -> Result<StartPacket<'_>, ReadError>
    ensures { GivesPart viewed_start result (start_in code body.now) }
{
    match code {
        CANCEL_REQUEST => cancel(body),
        SSL_REQUEST => empty(body, StartPacket::SslRequest),
        GSS_ENC_REQUEST => empty(body, StartPacket::GssEncRequest),
        _ if is_three(code) => startup(alloc, code - VERSION_3, body),
        _ => Ok(StartPacket::OtherVersion(code, body)),
    }
}

// Whether a number is that of version 3, with any minor number.
fn is_three(code: u32) -> bool
    ensures { result ≡ is_three code }
{
    code >= VERSION_3 && code < 262_144
}

// A packet without a body.
fn empty<'b>(body: &'b [u8], packet: StartPacket<'b>) -> Result<StartPacket<'b>, ReadError>
    ensures { GivesPart viewed_start result (ended body.now (viewed_start packet.entry)) }
{
    if body.is_empty() {
        Ok(packet)
    } else {
        Err(ReadError::Malformed)
    }
}

#[tactic(auto, unfolding(crate::specs::StartReading::cancel_in))]
fn cancel(body: &[u8]) -> Result<StartPacket<'_>, ReadError>
    ensures { GivesPart viewed_start result (cancel_in body.now) }
{
    let (process, rest) = u32_at(body)?;
    let (key, rest) = u32_at(rest)?;
    empty(rest, StartPacket::CancelRequest(process, key))
}

#[tactic(auto, unfolding(crate::specs::StartReading::startup_in))]
fn startup(alloc: Global, minor: u32, body: &[u8]) -> Result<StartPacket<'_>, ReadError>
    ensures { GivesPart viewed_start result (startup_in minor body.now) }
{
    let (parameters, rest) = parameters_at(alloc, body)?;
    if !rest.is_empty() {
        return Err(ReadError::Malformed);
    }
    Ok(StartPacket::Startup(minor, parameters))
}

// Parameters up to the empty name, and what follows it. A parameter has more than one byte, so there are fewer than bytes.
fn parameters_at(alloc: Global, bytes: &[u8]) -> Result<(Vec<Parameter<'_>>, &[u8]), ReadError>
    ensures { GivesPart (λ x. (map viewed_parameter x.0.items, x.1.now)) result (parameters_at (length bytes.now) bytes.now) }
{
    let mut parameters = Vec::new(alloc);
    let mut rest = bytes;
    for _ in 0..bytes.len() {
        let (name, behind) = string_at(rest)?;
        if name.is_empty() {
            return Ok((parameters, behind));
        }
        let (parameter, after) = parameter_at(name, behind)?;
        parameters.push(parameter)?;
        rest = after;
    }
    Err(ReadError::Malformed)
}

// The parameter of a name, and what follows it.
#[tactic(auto, unfolding(crate::specs::StartReading::parameter_at))]
fn parameter_at<'b>(name: &'b [u8], bytes: &'b [u8]) -> Result<(Parameter<'b>, &'b [u8]), ReadError>
    ensures { GivesPart (λ x. (viewed_parameter x.0, x.1.now)) result (parameter_at name.now bytes.now) }
{
    let (value, rest) = string_at(bytes)?;
    Ok((Parameter { name, value }, rest))
}
