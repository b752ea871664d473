//! The messages of a client.

ghost use Rattle.postgres_messages.specs.Messages.{IsMessageRead};

use crate::bodies::message_at;
pub use crate::fields::FieldBytes;
use crate::read_error::ReadError;
use std::alloc::Global;

/// What Describe and Close are about.
#[derive(Clone, Copy)]
pub enum NamedObject<'a> {
    /// A prepared statement of this name; the unnamed one has the empty name.
    Statement(&'a str),
    /// A portal of this name; the unnamed one has the empty name.
    Portal(&'a str),
}

/// What Bind binds to the parameters of a statement. A format is 0 for text and 1 for binary, where it is a format.
#[derive(Drop)]
pub struct BoundValues<'a> {
    /// The formats of the values: none for text, one for all, or one for each.
    pub formats: Vec<u16>,
    /// The values, in the order of the parameters.
    pub values: Vec<FieldBytes<'a>>,
    /// The formats of the columns of the answer: none for text, one for all, or one for each.
    pub result_formats: Vec<u16>,
}

/// A message of a client (PostgreSQL 15 manual, 55.7). Texts and values are lent by its bytes.
#[derive(Drop)]
pub enum FrontendMessage<'a> {
    /// The portal, the statement that it is made of, and what is bound.
    Bind(&'a str, &'a str, BoundValues<'a>),
    Close(NamedObject<'a>),
    /// COPY is not read: its bodies stand as they are.
    CopyData(&'a [u8]),
    CopyDone(&'a [u8]),
    CopyFail(&'a [u8]),
    Describe(NamedObject<'a>),
    /// The portal, and how many rows at most, an Int32: 0, and a negative one (from 2^31 on), stand for all.
    Execute(&'a str, u32),
    Flush,
    /// Its body as it stands.
    FunctionCall(&'a [u8]),
    /// The name of the statement, its text, and the types declared for its parameters; 0 declares none.
    Parse(&'a str, &'a str, Vec<u32>),
    /// PasswordMessage, SASLInitialResponse (`read_sasl_initial`) or SASLResponse, by what was asked for; its body as it stands.
    Password(&'a [u8]),
    Query(&'a str),
    Sync,
    Terminate,
}

/// The message that bytes are, from its kind to its end, as `message_front` finds them.
///
/// `Malformed`: they are no message. `NotText`: they are one, but a name or the text is not UTF-8. `Memory`: an allocation
/// failed.
pub fn read_message(alloc: Global, bytes: &[u8]) -> Result<FrontendMessage<'_>, ReadError>
    ensures { IsMessageRead bytes.now result }
{
    message_at(alloc, bytes)
}
