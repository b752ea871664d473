//! Bytes that have come, and are held until they are heard.

ghost use Rattle.std.specs.Prelude.{◌≡◌, ◌≤◌, ◌+◌, ◌++◌, IfOk, length, drop, vec_len, vec_capacity};

use std::alloc::AllocError;

/// How many bytes are read at once, at most.
const READ_SIZE: usize = 8_192;

/// Makes room for one more read: in the buffer that is read into, which is made at the first of them, and
/// in what is held. The only error is that an allocation failed.
pub fn make_room(held: &mut Vec<u8>, buffer: &mut Vec<u8>) -> Result<(), AllocError>
    ensures held { held.new.items ≡ held.old.items }
    ensures buffer { IfOk result (λ _. vec_len buffer.new ≡ 8192) }
    ensures room { IfOk result (λ _. vec_len held.new + 8192 ≤ vec_capacity held.new) }
{
    buffer.resize(READ_SIZE, 0)?;
    held.reserve(READ_SIZE)
}

/// Keeps bytes that have come, for which there is room.
pub fn keep(held: &mut Vec<u8>, piece: &[u8])
    requires { vec_len held.old + length piece.now ≤ vec_capacity held.old }
    ensures { held.new.items ≡ held.old.items ++ piece.now }
{
    held.extend_from_slice(piece).unwrap();
}

/// Drops the first bytes, so many, or all where there are fewer.
pub fn drop_front(bytes: &mut Vec<u8>, count: usize)
    ensures { bytes.new.items ≡ drop count bytes.old.items }
{
    if count >= bytes.len() {
        bytes.clear();
    } else {
        bytes.drain(..count);
    }
}
