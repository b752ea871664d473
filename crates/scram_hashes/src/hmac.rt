//! HMAC with SHA-256 (RFC 2104).

ghost use Rattle.std.specs.Prelude.{◌≡◌, ◌≤◌, ◌++◌, List, ℕ, length, map, bit_xor};
ghost use Rattle.sha2.specs.Sha256.{sha256};
ghost use Rattle.sha2.specs.Hashers.{Holds256};
ghost use Rattle.scram_hashes.specs.Hmac.{IsReadyFor, filled_up, hmac_sha256, key_block};

use sha2::{Digest, Sha256};

/// The bytes of a block of SHA-256.
const BLOCK_LENGTH: usize = 64;

/// A key that has done the part of the work that all its messages share.
#[derive(Drop)]
pub struct HmacKey {
    inner: Sha256,
    outer: Sha256,
}

impl HmacKey {
    /// Makes a key of any length ready.
    pub fn new(key: &[u8]) -> HmacKey
        ensures { IsReadyFor key.now result }
    {
        let block = key_block(key);
        HmacKey {
            inner: Sha256::new_with_prefix(xor_each(&block, 0x36)),
            outer: Sha256::new_with_prefix(xor_each(&block, 0x5C)),
        }
    }

    /// The code of a message.
    pub fn code(&self, message: &[u8]) -> [u8; 32]
        ensures { (key : List ℕ) → IsReadyFor key self.now
            → result ≡ hmac_sha256 key message.now }
    {
        digest_with(&self.outer, &digest_with(&self.inner, message))
    }

    /// The code of a message whose beginning and end lie apart.
    pub fn code_of_both(&self, beginning: &[u8], end: &[u8]) -> [u8; 32]
        ensures { (key : List ℕ) → IsReadyFor key self.now
            → result ≡ hmac_sha256 key (beginning.now ++ end.now) }
    {
        let begun = fed(&self.inner, beginning);
        digest_with(&self.outer, &digest_with(&begun, end))
    }
}

/// The code of one message under a key.
pub fn hmac_sha256(key: &[u8], message: &[u8]) -> [u8; 32]
    ensures { result ≡ hmac_sha256 key.now message.now }
{
    HmacKey::new(key).code(message)
}

// A hasher that has taken what this one has, and then these bytes.
fn fed(hasher: &Sha256, bytes: &[u8]) -> Sha256
    ensures { (taken : List ℕ) → Holds256 hasher.now taken
        → Holds256 result (taken ++ bytes.now) }
{
    let mut longer = hasher.clone().unwrap();
    longer.update(bytes);
    longer
}

// The digest of what a hasher has taken and of these bytes behind it.
fn digest_with(hasher: &Sha256, bytes: &[u8]) -> [u8; 32]
    ensures { (taken : List ℕ) → Holds256 hasher.now taken
        → result ≡ sha256 (taken ++ bytes.now) }
{
    fed(hasher, bytes).finalize()
}

// The block that stands for a key.
fn key_block(key: &[u8]) -> [u8; 64]
    ensures { result ≡ key_block key.now }
{
    if key.len() <= BLOCK_LENGTH {
        filled_up(key)
    } else {
        filled_up(&Sha256::digest(key))
    }
}

// A block that begins with these bytes and ends in zeros.
fn filled_up(bytes: &[u8]) -> [u8; 64]
    requires { length bytes.now ≤ 64 }
    ensures { result ≡ filled_up bytes.now }
{
    let mut block = [0; 64];
    block[..bytes.len()].copy_from_slice(bytes);
    block
}

// Each byte of a block, xor one other byte.
fn xor_each(block: &[u8; 64], byte: u8) -> [u8; 64]
    ensures { result ≡ map (λ own. bit_xor own byte) block.now }
{
    let mut mixed = [0; 64];
    for i in 0..64 {
        mixed[i] = block[i] ^ byte;
    }
    mixed
}
