//! Arrays of 32 bytes: their xor, and whether two are equal, at a cost that does not depend on them.

ghost use Rattle.std.specs.Prelude.{◌≡◌, ◌↔◌, IsTrue};
ghost use Rattle.scram_hashes.specs.Pbkdf2.{xor_bytes};

/// The bytes of two arrays, xor each other.
pub fn xor(bytes: &[u8; 32], others: &[u8; 32]) -> [u8; 32]
    ensures { result ≡ xor_bytes bytes.now others.now }
{
    let mut mixed = [0; 32];
    for i in 0..32 {
        mixed[i] = bytes[i] ^ others[i];
    }
    mixed
}

/// Whether two arrays hold the same bytes. It looks at all of them, wherever the first difference is.
pub fn are_equal(bytes: &[u8; 32], others: &[u8; 32]) -> bool
    ensures { IsTrue result ↔ (bytes.now ≡ others.now) }
{
    let mut differences = 0;
    for i in 0..32 {
        differences |= bytes[i] ^ others[i];
    }
    differences == 0
}
