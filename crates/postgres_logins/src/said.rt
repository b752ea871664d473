//! What is said to a client before it is let in.

ghost use Rattle.std.specs.Prelude.{◌≡◌, ◌++◌, IfOk, OnErr, OnOk, string_bytes};
ghost use Rattle.postgres_messages.specs.Backend.{reply_bytes};
ghost use Rattle.postgres_messages.specs.BackendViews.{viewed_reply};
ghost use Rattle.postgres_logins.specs.Sayings.{failure_said, failure_sentence, fatal_said, refusal_said};

use postgres_messages::backend::{BackendMessage, Report, Severity};
use postgres_messages::message_writer::{MessageWriter, WriteError};
use postgres_texts::sentences::refusal_text;
use sql_types::state::SqlState;
use sql_types::text::Text;
use std::alloc::{AllocError, Global};

/// The code of a password that was not shown (PostgreSQL 15 manual, appendix A).
const INVALID_PASSWORD: &str = "28P01";

// Puts a message behind what was said. One that has no form, as of over 2^31 bytes, takes more memory than there is. An error says
// that an allocation failed; nothing was put.
pub(crate) fn say(
    alloc: Global,
    message: &BackendMessage<'_>,
    out: &mut Vec<u8>,
) -> Result<(), AllocError>
    ensures ok { OnOk result (out.new.items ≡ out.old.items ++ reply_bytes (viewed_reply message.now)) }
    ensures err { OnErr result (out.new.items ≡ out.old.items) }
{
    let mut writer = MessageWriter::new(alloc);
    match writer.put(message, out) {
        Ok(()) => Ok(()),
        Err(WriteError::Memory | WriteError::Unfit) => Err(AllocError),
    }
}

// Says that something is refused, and that the connection ends.
pub(crate) fn say_refusal(
    alloc: Global,
    state: SqlState,
    out: &mut Vec<u8>,
) -> Result<(), AllocError>
    ensures ok { OnOk result (out.new.items ≡ out.old.items ++ refusal_said state) }
    ensures err { OnErr result (out.new.items ≡ out.old.items) }
{
    say_fatal(alloc, state.code(), refusal_text(state), out)
}

// Says that the password of a role was not shown, and that the connection ends.
pub(crate) fn say_failure(alloc: Global, role: &Text, out: &mut Vec<u8>) -> Result<(), AllocError>
    ensures ok { OnOk result (out.new.items ≡ out.old.items ++ failure_said role.now) }
    ensures err { OnErr result (out.new.items ≡ out.old.items) }
{
    let sentence = failure_sentence(alloc, role)?;
    say_fatal(alloc, INVALID_PASSWORD, sentence.as_str(), out)
}

// The sentence of PostgreSQL.
fn failure_sentence(alloc: Global, role: &Text) -> Result<String, AllocError>
    ensures { IfOk result (λ text. string_bytes text ≡ failure_sentence role.now) }
{
    let mut text = String::from_str(alloc, "password authentication failed for user \"")?;
    text.push_str(role.as_str())?;
    text.push_str("\"")?;
    Ok(text)
}

fn say_fatal(alloc: Global, code: &str, sentence: &str, out: &mut Vec<u8>) -> Result<(), AllocError>
    ensures ok { OnOk result (out.new.items ≡ out.old.items ++ fatal_said code.now sentence.now) }
    ensures err { OnErr result (out.new.items ≡ out.old.items) }
{
    let report = Report {
        severity: Severity::Fatal,
        code,
        message: sentence,
        position: None,
    };
    say(alloc, &BackendMessage::ErrorResponse(report), out)
}
