//! What a client may send before it is let in, read in place.

ghost use Rattle.std.specs.Prelude.{◌≡◌, Some, IfOk};
ghost use Rattle.std.specs.Option.{option_map};
ghost use Rattle.postgres_messages.specs.Sasl.{viewed_initial};
ghost use Rattle.postgres_logins.specs.EntryMessages.{CarriesFirst, CarriesFirstIn, answer_in, entry_front, first_of, front_in};

use crate::stage::SaslStage;
use postgres_messages::front::{MAX_BEFORE_LOGIN, StreamFront, message_front, start_front};
use postgres_messages::frontend::FieldBytes;
use postgres_messages::read_error::ReadError;
use postgres_messages::sasl::{SaslInitial, read_sasl_initial};
use std::alloc::AllocError;
use talks::talk::MessageFront;

/// The mechanism that is offered.
pub(crate) const MECHANISM: &str = "SCRAM-SHA-256";

// What stands at the front of the bytes of a client that is not let in, by how far its exchange has come.
pub(crate) fn entry_front(stage: &SaslStage, bytes: &[u8]) -> MessageFront
    ensures { result ≡ entry_front stage.now bytes.now }
{
    match stage {
        SaslStage::Starting { answered: _ } => front_in(start_front(bytes)),
        _ => front_in(message_front(MAX_BEFORE_LOGIN, bytes)),
    }
}

fn front_in(front: StreamFront) -> MessageFront
    ensures { result ≡ front_in front }
{
    match front {
        StreamFront::Nothing => MessageFront::Nothing,
        StreamFront::Whole(size) => MessageFront::Whole(size),
        StreamFront::Bad => MessageFront::Bad,
    }
}

// The body of a message of kind p, or `None` where it is of another.
pub(crate) fn answer_in(message: &[u8]) -> Option<&[u8]>
    ensures { option_map (λ body. body.now) result ≡ answer_in message.now }
{
    let [kind, rest @ ..] = message else {
        return None;
    };
    if *kind == b'p' && rest.len() >= 4 {
        Some(&rest[4..])
    } else {
        None
    }
}

// The first message of an exchange in a SASLInitialResponse, or `None` where there is none. An error says that memory was refused.
pub(crate) fn first_in(message: &[u8]) -> Result<Option<&[u8]>, AllocError>
    ensures { IfOk result (λ it. CarriesFirst message.now (option_map (λ first. first.now) it)) }
{
    match answer_in(message) {
        Some(body) => first_of_body(body),
        None => Ok(None),
    }
}

fn first_of_body(body: &[u8]) -> Result<Option<&[u8]>, AllocError>
    ensures { IfOk result (λ it. CarriesFirstIn (Some body.now) (option_map (λ first. first.now) it)) }
{
    match read_sasl_initial(body) {
        Ok(initial) => Ok(first_of(&initial)),
        Err(ReadError::Memory) => Err(AllocError),
        Err(ReadError::NotText) => Ok(None),
        Err(ReadError::Malformed) => Ok(None),
    }
}

// The first message, if it is of the mechanism that was offered.
fn first_of<'a>(initial: &SaslInitial<'a>) -> Option<&'a [u8]>
    ensures { option_map (λ first. first.now) result ≡ first_of (Some (viewed_initial initial.now)) }
{
    if initial.mechanism != MECHANISM {
        return None;
    }
    match initial.response {
        FieldBytes::Null => None,
        FieldBytes::Bytes(first) => Some(first),
    }
}
