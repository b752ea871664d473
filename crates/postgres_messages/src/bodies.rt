//! The bodies of messages, read in place.

ghost use Rattle.std.specs.Prelude.{◌≡◌, true};
ghost use Rattle.postgres_messages.specs.Frontend.{is_text, is_text_target};
ghost use Rattle.postgres_messages.specs.Reading.{bind_in, binding_at, close_in, describe_in, execute_in, ended, message_at, message_in, parse_in, query_in, target_at};
ghost use Rattle.postgres_messages.specs.Views.{GivesPart, GivesText, viewed_binding, viewed_message, viewed_target};

use crate::fields::{string_at, text_of, u32_at};
use crate::frontend::{BoundValues, FrontendMessage, NamedObject};
use crate::kind::MessageKind;
use crate::lists::{u16s_at, u32s_at, values_at};
use crate::read_error::ReadError;
use std::alloc::Global;

// The message that bytes are.
#[tactic(auto, unfolding(crate::specs::Reading::message_at))]
pub(crate) fn message_at(alloc: Global, bytes: &[u8]) -> Result<FrontendMessage<'_>, ReadError>
    ensures { GivesText is_text viewed_message result (message_at bytes.now) }
{
    let [byte, rest @ ..] = bytes else {
        return Err(ReadError::Malformed);
    };
    let Some(kind) = MessageKind::of_byte(*byte) else {
        return Err(ReadError::Malformed);
    };
    let (length, body) = u32_at(rest)?;
    if length as usize == rest.len() {
        message_in(alloc, kind, body)
    } else {
        Err(ReadError::Malformed)
    }
}

// The message of a kind that a body is.
#[tactic(auto, unfolding(crate::specs::Reading::message_in))]
fn message_in(
    alloc: Global,
    kind: MessageKind,
    body: &[u8],
) -> Result<FrontendMessage<'_>, ReadError>
    ensures { GivesText is_text viewed_message result (message_in kind body.now) }
{
    match kind {
        MessageKind::Bind => bind(alloc, body),
        MessageKind::Close => close(body),
        MessageKind::CopyData => Ok(FrontendMessage::CopyData(body)),
        MessageKind::CopyDone => Ok(FrontendMessage::CopyDone(body)),
        MessageKind::CopyFail => Ok(FrontendMessage::CopyFail(body)),
        MessageKind::Describe => describe(body),
        MessageKind::Execute => execute(body),
        MessageKind::Flush => empty(body, FrontendMessage::Flush),
        MessageKind::FunctionCall => Ok(FrontendMessage::FunctionCall(body)),
        MessageKind::Parse => parse(alloc, body),
        MessageKind::Password => Ok(FrontendMessage::Password(body)),
        MessageKind::Query => query(body),
        MessageKind::Sync => empty(body, FrontendMessage::Sync),
        MessageKind::Terminate => empty(body, FrontendMessage::Terminate),
    }
}

// A message without a body.
fn empty<'b>(body: &'b [u8], message: FrontendMessage<'b>) -> Result<FrontendMessage<'b>, ReadError>
    requires { is_text (viewed_message message) ≡ true }
    ensures { GivesText is_text viewed_message result (ended body.now (viewed_message message.entry)) }
{
    end(body)?;
    Ok(message)
}

// Nothing follows.
pub(crate) fn end(rest: &[u8]) -> Result<(), ReadError>
    ensures { GivesPart (λ x. x) result (ended rest.now tt) }
{
    if rest.is_empty() {
        Ok(())
    } else {
        Err(ReadError::Malformed)
    }
}

#[tactic(auto, unfolding(crate::specs::Reading::bind_in))]
fn bind(alloc: Global, body: &[u8]) -> Result<FrontendMessage<'_>, ReadError>
    ensures { GivesText is_text viewed_message result (bind_in body.now) }
{
    let (portal, rest) = string_at(body)?;
    let (statement, rest) = string_at(rest)?;
    let binding = binding_at(alloc, rest)?;
    let portal = text_of(portal)?;
    let statement = text_of(statement)?;
    Ok(FrontendMessage::Bind(portal, statement, binding))
}

#[tactic(auto, unfolding(crate::specs::Reading::binding_at))]
fn binding_at(alloc: Global, bytes: &[u8]) -> Result<BoundValues<'_>, ReadError>
    ensures { GivesPart viewed_binding result (binding_at bytes.now) }
{
    let (formats, rest) = u16s_at(alloc, bytes)?;
    let (values, rest) = values_at(alloc, rest)?;
    let (result_formats, rest) = u16s_at(alloc, rest)?;
    end(rest)?;
    Ok(BoundValues {
        formats,
        values,
        result_formats,
    })
}

#[tactic(auto, unfolding(crate::specs::Reading::target_at))]
fn target_at(body: &[u8]) -> Result<NamedObject<'_>, ReadError>
    ensures { GivesText is_text_target viewed_target result (target_at body.now) }
{
    let [kind, rest @ ..] = body else {
        return Err(ReadError::Malformed);
    };
    let (name, rest) = string_at(rest)?;
    end(rest)?;
    match *kind {
        b'S' => Ok(NamedObject::Statement(text_of(name)?)),
        b'P' => Ok(NamedObject::Portal(text_of(name)?)),
        _ => Err(ReadError::Malformed),
    }
}

#[tactic(auto, unfolding(crate::specs::Reading::close_in))]
fn close(body: &[u8]) -> Result<FrontendMessage<'_>, ReadError>
    ensures { GivesText is_text viewed_message result (close_in body.now) }
{
    Ok(FrontendMessage::Close(target_at(body)?))
}

#[tactic(auto, unfolding(crate::specs::Reading::describe_in))]
fn describe(body: &[u8]) -> Result<FrontendMessage<'_>, ReadError>
    ensures { GivesText is_text viewed_message result (describe_in body.now) }
{
    Ok(FrontendMessage::Describe(target_at(body)?))
}

#[tactic(auto, unfolding(crate::specs::Reading::execute_in))]
fn execute(body: &[u8]) -> Result<FrontendMessage<'_>, ReadError>
    ensures { GivesText is_text viewed_message result (execute_in body.now) }
{
    let (portal, rest) = string_at(body)?;
    let (max_rows, rest) = u32_at(rest)?;
    end(rest)?;
    Ok(FrontendMessage::Execute(text_of(portal)?, max_rows))
}

#[tactic(auto, unfolding(crate::specs::Reading::parse_in))]
fn parse(alloc: Global, body: &[u8]) -> Result<FrontendMessage<'_>, ReadError>
    ensures { GivesText is_text viewed_message result (parse_in body.now) }
{
    let (name, rest) = string_at(body)?;
    let (text, rest) = string_at(rest)?;
    let (types, rest) = u32s_at(alloc, rest)?;
    end(rest)?;
    let name = text_of(name)?;
    let text = text_of(text)?;
    Ok(FrontendMessage::Parse(name, text, types))
}

#[tactic(auto, unfolding(crate::specs::Reading::query_in))]
fn query(body: &[u8]) -> Result<FrontendMessage<'_>, ReadError>
    ensures { GivesText is_text viewed_message result (query_in body.now) }
{
    let (text, rest) = string_at(body)?;
    end(rest)?;
    Ok(FrontendMessage::Query(text_of(text)?))
}
