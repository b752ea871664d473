//! What is said to a client before it is admitted.

ghost use Rattle.std.specs.Prelude.{◌≡◌, ◌++◌, IfOk, OnOk, OnErr};
ghost use Rattle.password_talks.specs.EarlyFrames.{message_frame};
ghost use Rattle.password_talks.specs.Logins.{refusal_said};

use frame_talks::said::say_answer;
use sql_types::answer::Answer;
use sql_types::state::SqlState;
use std::alloc::{AllocError, Global};
use wire::frame_buffer::MAX_TEXT;

/// The kind of a frame that carries a message of an exchange.
const MESSAGE: u8 = 6;

/// Puts the frame of a message of the server behind what was said. An error says that an allocation
/// failed; nothing was put.
pub fn say_message(
    alloc: Global,
    label: u32,
    message: &[u8],
    out: &mut Vec<u8>,
) -> Result<(), AllocError>
    ensures ok { OnOk result (out.new.items ≡ out.old.items ++ message_frame label message.now) }
    ensures err { OnErr result (out.new.items ≡ out.old.items) }
{
    let frame = frame_of(alloc, label, message)?;
    out.extend_from_slice(&frame)?;
    Ok(())
}

// The frame of a message. There is none of a message that is too long, as if memory was refused for
// it; those of an exchange are far shorter.
fn frame_of(alloc: Global, label: u32, message: &[u8]) -> Result<Vec<u8>, AllocError>
    ensures { IfOk result (λ frame. frame.items ≡ message_frame label message.now) }
{
    if message.len() > MAX_TEXT {
        return Err(AllocError);
    }
    let size = 5 + message.len() as u32;
    let mut frame = Vec::from_slice(alloc, &size.to_be_bytes())?;
    frame.push(MESSAGE)?;
    frame.extend_from_slice(&label.to_be_bytes())?;
    frame.extend_from_slice(message)?;
    Ok(frame)
}

/// Says that something is refused, under a label. An error says that an allocation failed; nothing
/// was put.
pub fn say_refusal(
    alloc: Global,
    label: u32,
    state: SqlState,
    out: &mut Vec<u8>,
) -> Result<(), AllocError>
    ensures ok { OnOk result (out.new.items ≡ out.old.items ++ refusal_said label state) }
    ensures err { OnErr result (out.new.items ≡ out.old.items) }
{
    say_answer(alloc, label, &Answer::Refused(state), out)
}
