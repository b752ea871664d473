//! What stands at the front of the bytes of a connection.

ghost use Rattle.std.specs.Prelude.{◌≡◌};
ghost use Rattle.postgres_messages.specs.Front.{front_behind, message_front, start_front};

use crate::kind::MessageKind;

/// The greatest length that a packet of the start may name, in bytes.
pub const MAX_START: u32 = 10_000;

/// The greatest length that a message may name before the login is done, in bytes.
pub const MAX_BEFORE_LOGIN: u32 = 2_000;

/// The greatest length that a message may name once the login is done, in bytes.
pub const MAX_AFTER_LOGIN: u32 = 131_072;

/// What stands at the front of bytes.
#[derive(Clone, Copy, Debug, PartialEq, Eq)]
pub enum StreamFront {
    /// No whole message yet.
    Nothing,
    /// A whole message of so many bytes, at least five; for a packet of the start, at least eight.
    Whole(usize),
    /// Bytes that begin no message, whatever follows: a kind that no client sends, or a length out of range.
    Bad,
}

/// What stands at the front of bytes once the connection has begun. A message may name a length of at most `limit` bytes,
/// in which its kind does not count.
pub fn message_front(limit: u32, bytes: &[u8]) -> StreamFront
    ensures { result ≡ message_front limit bytes.now }
{
    match bytes {
        [] => StreamFront::Nothing,
        [kind, rest @ ..] => match MessageKind::of_byte(*kind) {
            Some(_) => front_behind(1, 4, limit, rest),
            None => StreamFront::Bad,
        },
    }
}

/// What stands at the front of the bytes of a connection that has not begun: the packets of the start have no kind, and name a
/// length of 8 to 10,000 bytes.
pub fn start_front(bytes: &[u8]) -> StreamFront
    ensures { result ≡ start_front bytes.now }
{
    front_behind(0, 8, MAX_START, bytes)
}

// What stands at the front, by what stands behind the first bytes, of which there are so many: a length from `least` to `most`,
// which counts itself.
#[tactic(auto, unfolding(crate::specs::Front::front_behind))]
fn front_behind(first: u32, least: u32, most: u32, bytes: &[u8]) -> StreamFront
    ensures { result ≡ front_behind first least most bytes.now }
{
    if bytes.len() < 4 {
        return StreamFront::Nothing;
    }
    let length = u32::from_be_bytes([bytes[0], bytes[1], bytes[2], bytes[3]]);
    if length < least || length > most {
        return StreamFront::Bad;
    }
    let length = length as usize;
    if bytes.len() < length {
        return StreamFront::Nothing;
    }
    StreamFront::Whole(first as usize + length)
}
