//! What stands in for a role that has no verifier.

ghost use Rattle.std.specs.Prelude.{◌≡◌, IfOk, length, take};
ghost use Rattle.scram_hashes.specs.VerifierText.{IsIterationCount};
ghost use Rattle.scram_hashes.specs.Keys.{TheVerifier};
ghost use Rattle.scram.specs.Mocks.{TheMock, mock_verifier};

use scram_hashes::hmac::HmacKey;
use scram_hashes::verifier::Verifier;
use std::alloc::{AllocError, Global};
use std::marker::Model;

/// The bytes of a mock's salt: as many as PostgreSQL and `guarddb password` draw.
const SALT_LENGTH: usize = 16;

/// A secret from which the salt of each role is derived that has no verifier. With a secret that outlasts the server, such
/// a role is told the same salt at each try and after each start, as one that has a verifier.
#[derive(Drop)]
pub struct Mock {
    secret: [u8; 32],
    iterations: u32,
}

impl Model for Mock {
    ghost use Rattle.scram.specs.Mocks.{TheMock};
    ghost use Rattle.scram_hashes.specs.VerifierText.{IsIterationCount};

    ghost Value = { TheMock };

    ghost view = { λ m. record { secret = m.secret; iterations = m.iterations } };

    ghost invariant = { λ m. IsIterationCount m.iterations };
}

impl Mock {
    /// The mock of a secret.
    pub fn new(secret: [u8; 32], iterations: u32) -> Mock
        requires { IsIterationCount iterations }
        ensures { result ≡ record { secret = secret; iterations = iterations } }
    {
        Mock { secret, iterations }
    }

    /// The mock that a verifier of a drawn password stands for: its stored key is the secret.
    pub fn of_verifier(verifier: &Verifier) -> Mock
        ensures { result ≡ record {
          secret = verifier.now.stored_key;
          iterations = verifier.now.iterations;
        } }
    {
        Mock::new(verifier.stored_key(), verifier.iterations())
    }

    /// The verifier of a role that has none.
    pub fn verifier_of(&self, alloc: Global, role: &[u8]) -> Result<Verifier, AllocError>
        ensures { IfOk result (λ verifier. verifier ≡ mock_verifier self.now role.now) }
    {
        let key = HmacKey::new(&self.secret);
        let salt = key.code_of_both(b"salt,", role);
        let stored_key = key.code_of_both(b"stored key,", role);
        let server_key = key.code_of_both(b"server key,", role);
        let salt = salt_of(alloc, &salt)?;
        Ok(Verifier::from_keys(salt, self.iterations, stored_key, server_key))
    }
}

// The salt that the beginning of a code is.
fn salt_of(alloc: Global, code: &[u8; 32]) -> Result<Vec<u8>, AllocError>
    ensures { IfOk result (λ salt. (salt.items ≡ take 16 code.now) × (length salt.items ≡ 16)) }
{
    Vec::from_slice(alloc, &code[..SALT_LENGTH])
}
