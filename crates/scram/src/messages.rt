//! The messages that a server sends and expects.

ghost use Rattle.std.specs.Prelude.{◌≡◌, ◌++◌, IfOk};
ghost use Rattle.scram_hashes.specs.Base64.{base64};
ghost use Rattle.scram.specs.Messages.{final_bare, header, server_final, server_first, whole_nonce};

use base64::engine::general_purpose::STANDARD;
use itoa::Buffer;
use scram_hashes::verifier::Verifier;
use std::alloc::{AllocError, Global};

/// What a client says of channel binding.
#[derive(Clone, Copy, PartialEq, Eq)]
pub enum Binding {
    /// `n`: it does not support it.
    Unsupported,
    /// `y`: it does, and takes it that the server does not.
    Unoffered,
}

impl Binding {
    // The header of a first message, in base64.
    fn encoded_header(self) -> &'static [u8]
        ensures { result.now ≡ base64 (header self) }
    {
        match self {
            Binding::Unsupported => b"biws",
            Binding::Unoffered => b"eSws",
        }
    }
}

/// The nonce of an exchange: the client's, with the base64 of what was drawn behind it.
pub fn whole_nonce(alloc: Global, nonce: &[u8], drawn: &[u8; 32]) -> Result<Vec<u8>, AllocError>
    ensures { IfOk result (λ it. it.items ≡ whole_nonce nonce.now drawn.now) }
{
    let drawn = STANDARD.encode(alloc, drawn)?;
    let mut whole = Vec::from_slice(alloc, nonce)?;
    whole.extend_from_slice(drawn.as_bytes())?;
    Ok(whole)
}

/// The server's first message.
pub fn server_first(alloc: Global, verifier: &Verifier, nonce: &[u8]) -> Result<Vec<u8>, AllocError>
    ensures { IfOk result (λ it. it.items ≡ server_first verifier.now nonce.now) }
{
    let salt = STANDARD.encode(alloc, verifier.salt())?;
    let mut buffer = Buffer::new();
    let mut message = Vec::from_slice(alloc, b"r=")?;
    message.extend_from_slice(nonce)?;
    message.extend_from_slice(b",s=")?;
    message.extend_from_slice(salt.as_bytes())?;
    message.extend_from_slice(b",i=")?;
    message.extend_from_slice(buffer.format(verifier.iterations()).as_bytes())?;
    Ok(message)
}

/// The client's last message up to its proof.
pub fn final_bare(alloc: Global, binding: Binding, nonce: &[u8]) -> Result<Vec<u8>, AllocError>
    ensures { IfOk result (λ it. it.items ≡ final_bare binding nonce.now) }
{
    let mut message = Vec::from_slice(alloc, b"c=")?;
    message.extend_from_slice(binding.encoded_header())?;
    message.extend_from_slice(b",r=")?;
    message.extend_from_slice(nonce)?;
    Ok(message)
}

/// The server's last message, for what both sides have signed.
pub fn server_final(
    alloc: Global,
    verifier: &Verifier,
    messages: &[u8],
) -> Result<Vec<u8>, AllocError>
    ensures { IfOk result (λ it. it.items ≡ server_final verifier.now messages.now) }
{
    let signature = STANDARD.encode(alloc, &verifier.signature(messages))?;
    let mut message = Vec::from_slice(alloc, b"v=")?;
    message.extend_from_slice(signature.as_bytes())?;
    Ok(message)
}
