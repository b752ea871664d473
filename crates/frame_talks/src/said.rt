//! The frames of an answer, put behind what was said.

ghost use Rattle.std.specs.Prelude.{◌≡◌, ◌≤◌, ◌++◌, length, IfOk, OnOk, OnErr};
ghost use Rattle.wire.specs.AnswerFrames.{answer_frames};
ghost use Rattle.wire.specs.AnswerText.{answer_text};
ghost use Rattle.wire.specs.Frame.{frame};

use sql_types::answer::Answer;
use std::alloc::{AllocError, Global};
use wire::answers::write_answer;
use wire::frame_buffer::MAX_TEXT;
use wire::output::CountedWriter;

/// The kind of a frame that carries an answer.
const ANSWER: u8 = 4;

/// Puts the frames of an answer to a session behind what was said. An error says that an allocation
/// failed; nothing was put.
pub fn say_answer(
    alloc: Global,
    session: u32,
    answer: &Answer,
    out: &mut Vec<u8>,
) -> Result<(), AllocError>
    ensures ok { OnOk result (out.new.items ≡ out.old.items ++ answer_frames session (answer_text answer.now)) }
    ensures err { OnErr result (out.new.items ≡ out.old.items) }
{
    let text = text_of(alloc, answer)?;
    let frames = frames_of(alloc, session, &text)?;
    out.extend_from_slice(&frames)?;
    Ok(())
}

// The text of an answer.
fn text_of(alloc: Global, answer: &Answer) -> Result<Vec<u8>, AllocError>
    ensures { IfOk result (λ text. text.items ≡ answer_text answer.now) }
{
    let mut output = CountedWriter::new(Vec::new(alloc));
    match write_answer(answer, &mut output) {
        Ok(()) => Ok(output.into_writer()),
        Err(_) => Err(AllocError),
    }
}

// The frames of a text: full ones, and one last.
fn frames_of(alloc: Global, session: u32, text: &[u8]) -> Result<Vec<u8>, AllocError>
    ensures { IfOk result (λ frames. frames.items ≡ answer_frames session text.now) }
{
    let mut frames = Vec::new(alloc);
    let mut rest = text;
    while rest.len() > MAX_TEXT {
        let (full, behind) = rest.split_at(MAX_TEXT);
        put_frame(session, full, &mut frames)?;
        rest = behind;
    }
    put_frame(session, rest, &mut frames)?;
    Ok(frames)
}

// Puts the frame of a text that fits one.
fn put_frame(session: u32, text: &[u8], frames: &mut Vec<u8>) -> Result<(), AllocError>
    requires { length text.now ≤ 131067 }
    ensures { OnOk result (frames.new.items ≡ frames.old.items ++ frame 4 session text.now) }
{
    let size = 5 + text.len() as u32;
    frames.extend_from_slice(&size.to_be_bytes())?;
    frames.push(ANSWER)?;
    frames.extend_from_slice(&session.to_be_bytes())?;
    frames.extend_from_slice(text)?;
    Ok(())
}
