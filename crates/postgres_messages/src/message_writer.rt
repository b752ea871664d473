//! Writes the messages of a server.

ghost use Rattle.std.specs.Prelude.{◌≡◌, ◌+◌, ◌<◌, ◌≤◌, ◌^◌, ◌++◌, ◌∷◌, ℕ, [], length, take, drop, OnOk};
ghost use Rattle.std.specs.Int.{w32, to_be_bytes};
ghost use Rattle.postgres_messages.specs.Backend.{HasReply, reply_body, reply_kind};
ghost use Rattle.postgres_messages.specs.BackendViews.{IsReplyWritten, viewed_reply};

use crate::backend::BackendMessage;
use crate::backend_bodies::put_body;
use crate::backend_forms::has_form;
use std::alloc::{AllocError, Global};

/// The most that a message may have behind its kind: its length is a positive Int32.
const MAX_LENGTH: usize = 0x7FFF_FFFF;

/// Why a message was not written.
#[derive(Clone, Copy, Debug, PartialEq, Eq)]
pub enum WriteError {
    /// An allocation failed.
    Memory,
    /// A text has a zero byte, or a count or a length does not fit.
    Unfit,
}

/// Writes messages. It keeps the memory in which it lays them out.
#[derive(Drop)]
pub struct MessageWriter {
    laid_out: Vec<u8>,
}

impl MessageWriter {
    /// A writer that has no memory yet.
    pub fn new(alloc: Global) -> MessageWriter {
        MessageWriter {
            laid_out: Vec::new(alloc),
        }
    }

    /// Writes a message behind bytes that go out. An error leaves these as they were.
    pub fn put(&mut self, message: &BackendMessage<'_>, out: &mut Vec<u8>) -> Result<(), WriteError>
        ensures { IsReplyWritten (viewed_reply message.now) out.old.items out.new.items result }
    {
        if !has_form(message) {
            return Err(WriteError::Unfit);
        }
        if lay_out(message, &mut self.laid_out).is_err() {
            return Err(WriteError::Memory);
        }
        let length = self.laid_out.len() - 1;
        if length > MAX_LENGTH {
            return Err(WriteError::Unfit);
        }
        put_at(&mut self.laid_out, 1, &(length as u32).to_be_bytes());
        match out.extend_from_slice(&self.laid_out) {
            Ok(()) => Ok(()),
            Err(_) => Err(WriteError::Memory),
        }
    }
}

// Lays out the kind of a message, four bytes for its length, and its body, in place of what was there.
fn lay_out(message: &BackendMessage<'_>, to: &mut Vec<u8>) -> Result<(), AllocError>
    requires { HasReply (viewed_reply message.now) }
    ensures { OnOk result (to.new.items ≡ reply_kind (viewed_reply message.now) ∷ 0 ∷ 0 ∷ 0 ∷ 0 ∷ reply_body (viewed_reply message.now)) }
{
    to.clear();
    to.push(kind_of(message))?;
    to.extend_from_slice(&[0; 4])?;
    put_body(message, to)
}

// The kind of a message.
fn kind_of(message: &BackendMessage<'_>) -> u8
    ensures { result ≡ reply_kind (viewed_reply message.now) }
{
    match *message {
        BackendMessage::AuthenticationOk => b'R',
        BackendMessage::AuthenticationSasl(_) => b'R',
        BackendMessage::AuthenticationContinue(_) => b'R',
        BackendMessage::AuthenticationFinal(_) => b'R',
        BackendMessage::BackendKeyData(_, _) => b'K',
        BackendMessage::BindComplete => b'2',
        BackendMessage::CloseComplete => b'3',
        BackendMessage::CommandComplete(_) => b'C',
        BackendMessage::DataRow(_) => b'D',
        BackendMessage::EmptyQueryResponse => b'I',
        BackendMessage::ErrorResponse(_) => b'E',
        BackendMessage::NoData => b'n',
        BackendMessage::NoticeResponse(_) => b'N',
        BackendMessage::ParameterDescription(_) => b't',
        BackendMessage::ParameterStatus(_, _) => b'S',
        BackendMessage::ParseComplete => b'1',
        BackendMessage::PortalSuspended => b's',
        BackendMessage::ReadyForQuery(_) => b'Z',
        BackendMessage::RowDescription(_) => b'T',
    }
}

// Puts a piece in place of as many bytes.
fn put_at(bytes: &mut [u8], start: usize, piece: &[u8])
    requires { start + length piece.now ≤ length bytes.old }
    ensures { bytes.new ≡ take start bytes.old ++ (piece.now ++ drop (start + length piece.now) bytes.old) }
{
    bytes[start..start + piece.len()].copy_from_slice(piece);
}
