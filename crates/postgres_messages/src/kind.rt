//! The kinds of messages that a client sends.

ghost use Rattle.std.specs.Prelude.{◌≡◌};
ghost use Rattle.postgres_messages.specs.Kind.{kind_of};

/// The kind of a message of a client, which its first byte tells (PostgreSQL 15 manual, 55.7).
#[derive(Clone, Copy, Debug, PartialEq, Eq)]
pub enum MessageKind {
    /// `B`: Bind.
    Bind,
    /// `C`: Close.
    Close,
    /// `d`: CopyData.
    CopyData,
    /// `c`: CopyDone.
    CopyDone,
    /// `f`: CopyFail.
    CopyFail,
    /// `D`: Describe.
    Describe,
    /// `E`: Execute.
    Execute,
    /// `H`: Flush.
    Flush,
    /// `F`: FunctionCall.
    FunctionCall,
    /// `P`: Parse.
    Parse,
    /// `p`: PasswordMessage, SASLInitialResponse or SASLResponse, by what was asked for.
    Password,
    /// `Q`: Query.
    Query,
    /// `S`: Sync.
    Sync,
    /// `X`: Terminate.
    Terminate,
}

impl MessageKind {
    /// The kind that a byte tells, or `None` where it tells none.
    #[tactic(auto, unfolding(crate::specs::Kind::kind_of))]
    pub fn of_byte(byte: u8) -> Option<MessageKind>
        ensures { result ≡ kind_of byte }
    {
        match byte {
            b'B' => Some(MessageKind::Bind),
            b'C' => Some(MessageKind::Close),
            b'd' => Some(MessageKind::CopyData),
            b'c' => Some(MessageKind::CopyDone),
            b'f' => Some(MessageKind::CopyFail),
            b'D' => Some(MessageKind::Describe),
            b'E' => Some(MessageKind::Execute),
            b'H' => Some(MessageKind::Flush),
            b'F' => Some(MessageKind::FunctionCall),
            b'P' => Some(MessageKind::Parse),
            b'p' => Some(MessageKind::Password),
            b'Q' => Some(MessageKind::Query),
            b'S' => Some(MessageKind::Sync),
            b'X' => Some(MessageKind::Terminate),
            _ => None,
        }
    }
}
