//! The bytes of a message of an exchange.

ghost use Rattle.std.specs.Prelude.{◌≡◌, IfOk};

use std::alloc::{AllocError, Global};
use std::marker::Model;

/// A message of an exchange, which contracts see as its bytes.
#[derive(Drop)]
pub struct ExchangeMessage {
    bytes: Vec<u8>,
}

impl Model for ExchangeMessage {
    ghost use Rattle.std.specs.Prelude.{List, ℕ};

    ghost Value = { List ℕ };

    ghost view = { λ m. m.bytes.items };
}

impl ExchangeMessage {
    /// A copy of these bytes.
    pub fn from_slice(alloc: Global, bytes: &[u8]) -> Result<ExchangeMessage, AllocError>
        ensures { IfOk result (λ message. message ≡ bytes.now) }
    {
        let bytes = Vec::from_slice(alloc, bytes)?;
        Ok(ExchangeMessage { bytes })
    }

    /// The bytes, lent.
    pub fn as_slice(&self) -> &[u8]
        ensures { result.now ≡ self.now }
    {
        self.bytes.as_slice()
    }
}
