//! The first message of a client.

ghost use Rattle.std.specs.Prelude.{◌≡◌, ◌≢◌, ◌≤◌, ◌++◌, ◌∷◌, ◌↔◌, ℕ, List, All, IsTrue, IfSome, MatchOption, length};
ghost use Rattle.scram.specs.Messages.{IsFirstMessage, IsNonceByte, header};
ghost use Rattle.scram.specs.Exchanges.{IsNoFirst};

use crate::messages::Binding;

/// The parts of a first message.
#[derive(Clone, Copy)]
pub struct FirstMessage<'t> {
    /// What it says of channel binding.
    pub binding: Binding,
    /// It, without its header.
    pub bare: &'t [u8],
    /// The nonce.
    pub nonce: &'t [u8],
}

/// The parts of a first message, or `None` where it is none: with channel binding, another authorization identity, an
/// extension, or a nonce that is empty or has a byte that is not printable.
pub fn read_first(text: &[u8]) -> Option<FirstMessage<'_>>
    ensures { MatchOption result (IsNoFirst text.now)
        (λ first. IsFirstMessage text.now first.binding first.bare.now first.nonce.now) }
{
    let Some((binding, bare)) = without_header(text) else {
        return None;
    };
    let Some(named) = behind(b"n=", bare) else {
        return None;
    };
    let Some((_, attributes)) = cut_at_comma(named) else {
        return None;
    };
    let Some(nonce) = behind(b"r=", attributes) else {
        return None;
    };
    if is_nonce(nonce) {
        Some(FirstMessage {
            binding,
            bare,
            nonce,
        })
    } else {
        None
    }
}

// What a first message says of channel binding, and what stands behind its header.
fn without_header(text: &[u8]) -> Option<(Binding, &[u8])>
    ensures { MatchOption result
        ((binding : Binding) (rest : List ℕ) → text.now ≢ header binding ++ rest)
        (λ parts. text.now ≡ header parts.0 ++ parts.1.now) }
{
    if let Some(rest) = behind(b"n,,", text) {
        return Some((Binding::Unsupported, rest));
    }
    match behind(b"y,,", text) {
        Some(rest) => Some((Binding::Unoffered, rest)),
        None => None,
    }
}

// What stands behind a beginning.
pub fn behind<'t>(beginning: &[u8], text: &'t [u8]) -> Option<&'t [u8]>
    ensures { MatchOption result ((rest : List ℕ) → text.now ≢ beginning.now ++ rest)
        (λ rest. text.now ≡ beginning.now ++ rest.now) }
{
    text.strip_prefix(beginning)
}

// What stands in front of the first comma, and what stands behind it.
fn cut_at_comma(text: &[u8]) -> Option<(&[u8], &[u8])>
    ensures { MatchOption result (All (λ byte. byte ≢ 0x2C) text.now)
        (λ parts. (text.now ≡ parts.0.now ++ 0x2C ∷ parts.1.now)
        × All (λ byte. byte ≢ 0x2C) parts.0.now) }
{
    for (i, byte) in text.iter().enumerate() {
        if *byte == b',' {
            return Some((&text[..i], &text[i + 1..]));
        }
    }
    None
}

// Whether a nonce may have these bytes.
fn is_nonce(bytes: &[u8]) -> bool
    ensures { IsTrue result ↔ (All IsNonceByte bytes.now × (1 ≤ length bytes.now)) }
{
    !bytes.is_empty() && bytes.iter().all(|byte| is_nonce_byte(*byte))
}

// Whether a nonce may have this byte.
fn is_nonce_byte(byte: u8) -> bool
    ensures { IsTrue result ↔ IsNonceByte byte }
{
    byte >= 0x21 && byte <= 0x7E && byte != b','
}
