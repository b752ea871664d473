//! What is said to a client at once.

ghost use Rattle.std.specs.Prelude.{◌≡◌, ◌++◌, ◌∷◌, [], OnOk, OnErr};
ghost use Rattle.postgres_messages.specs.BackendViews.{viewed_reply};
ghost use Rattle.postgres_messages.specs.Backend.{error_response};
ghost use Rattle.postgres_talks.specs.Sayings.{Puts, report_of, error_said, fatal_said, message, no_encryption, ready_said, status_of, warning_said};

use crate::fault::TalkFault;
use postgres_messages::backend::{BackendMessage, BlockStatus, Report, Severity};
use postgres_messages::message_writer::{MessageWriter, WriteError};
use postgres_texts::sentences::warning_text;
use sql_types::warning::Warning;
use std::alloc::{AllocError, Global};
use std::marker::Model;
use talks::want::BlockStanding;

/// The byte that says that a connection is not encrypted.
const NO_ENCRYPTION: u8 = b'N';

/// What is said at once, which contracts see as its bytes.
#[derive(Drop)]
pub(crate) struct Said {
    writer: MessageWriter,
    bytes: Vec<u8>,
}

impl Model for Said {
    ghost use Rattle.std.specs.Prelude.{List, ℕ};

    ghost Value = { List ℕ };

    ghost view = { λ s. s.bytes.items };
}

impl Said {
    // Nothing.
    pub(crate) fn new(alloc: Global) -> Said
        ensures { result ≡ [] }
    {
        Said {
            writer: MessageWriter::new(alloc),
            bytes: Vec::new(alloc),
        }
    }

    // Puts all of it behind what goes out. An error says that an allocation failed; nothing was put.
    pub(crate) fn send(&self, out: &mut Vec<u8>) -> Result<(), AllocError>
        ensures ok { OnOk result (out.new.items ≡ out.old.items ++ self.now) }
        ensures err { OnErr result (out.new.items ≡ out.old.items) }
    {
        out.extend_from_slice(&self.bytes)
    }

    // Says a message. One that has no form, as of over 2^31 bytes, takes more memory than there is.
    pub(crate) fn put(&mut self, said: &BackendMessage<'_>) -> Result<(), AllocError>
        ensures { OnOk result (Puts (message (viewed_reply said.now) ∷ []) self.old self.new) }
    {
        match self.writer.put(said, &mut self.bytes) {
            Ok(()) => Ok(()),
            Err(WriteError::Memory | WriteError::Unfit) => Err(AllocError),
        }
    }

    // Says that the connection is not encrypted.
    pub(crate) fn put_no_encryption(&mut self) -> Result<(), AllocError>
        ensures { OnOk result (Puts (no_encryption ∷ []) self.old self.new) }
    {
        self.bytes.push(NO_ENCRYPTION)?;
        Ok(())
    }

    // Says that a statement has failed.
    pub(crate) fn put_error(&mut self, fault: TalkFault) -> Result<(), AllocError>
        ensures { OnOk result (Puts (error_said fault ∷ []) self.old self.new) }
    {
        self.put_fault(Severity::Error, fault)
    }

    // Says why the connection ends.
    pub(crate) fn put_fatal(&mut self, fault: TalkFault) -> Result<(), AllocError>
        ensures { OnOk result (Puts (fatal_said fault ∷ []) self.old self.new) }
    {
        self.put_fault(Severity::Fatal, fault)
    }

    fn put_fault(&mut self, severity: Severity, fault: TalkFault) -> Result<(), AllocError>
        ensures { OnOk result (Puts (message (error_response (report_of severity fault)) ∷ []) self.old self.new) }
    {
        self.put(&BackendMessage::ErrorResponse(Report {
            severity,
            code: fault.code(),
            message: fault.text(),
            position: fault.position(),
        }))
    }

    // Says a warning.
    pub(crate) fn put_warning(&mut self, warning: Warning) -> Result<(), AllocError>
        ensures { OnOk result (Puts (warning_said warning ∷ []) self.old self.new) }
    {
        self.put(&BackendMessage::NoticeResponse(Report {
            severity: Severity::Warning,
            code: warning.code(),
            message: warning_text(warning),
            position: None,
        }))
    }

    // Says that a message is wanted, and how the block stands.
    pub(crate) fn put_ready(&mut self, standing: BlockStanding) -> Result<(), AllocError>
        ensures { OnOk result (Puts (ready_said standing ∷ []) self.old self.new) }
    {
        self.put(&BackendMessage::ReadyForQuery(status_of(standing)))
    }
}

fn status_of(standing: BlockStanding) -> BlockStatus
    ensures { result ≡ status_of standing }
{
    match standing {
        BlockStanding::Outside => BlockStatus::Idle,
        BlockStanding::Inside => BlockStatus::InBlock,
        BlockStanding::Failed => BlockStatus::Failed,
    }
}
