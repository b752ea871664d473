//! PBKDF2 with HMAC-SHA-256 (RFC 8018), which RFC 5802 calls `Hi`.

ghost use Rattle.std.specs.Prelude.{◌≡◌, ◌≤◌};
ghost use Rattle.scram_hashes.specs.Pbkdf2.{hi};

use crate::bytes::xor;
use crate::hmac::HmacKey;

/// The 32 bytes that so many iterations derive from a password and a salt.
pub fn derive_key(password: &[u8], salt: &[u8], iterations: u32) -> [u8; 32]
    requires { 1 ≤ iterations }
    ensures { result ≡ hi password.now salt.now iterations }
{
    let key = HmacKey::new(password);
    let mut code = key.code_of_both(salt, &[0, 0, 0, 1]);
    let mut mixed = code;
    for n in 1..iterations {
        code = key.code(&code);
        mixed = xor(&mixed, &code);
    }
    mixed
}
