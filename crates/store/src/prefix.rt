//! Prefixes of keys.
ghost use Rattle.std.specs.Prelude.{◌≡◌};
ghost use Rattle.store.specs.Records.{has_prefix};

/// Whether a key begins with this prefix.
pub fn begins_with(key: &[u8], prefix: &[u8]) -> bool
    ensures { result ≡ has_prefix prefix.now key.now }
{
    if key.len() < prefix.len() {
        return false;
    }
    for at in 0..prefix.len() {
        if key[at] != prefix[at] {
            return false;
        }
    }
    true
}
