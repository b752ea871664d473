//! The end of some bytes.

ghost use Rattle.std.specs.Prelude.{◌≡◌, drop};

/// The bytes behind the first of them, so many, or none where there are fewer.
pub fn behind(bytes: &[u8], count: usize) -> &[u8]
    ensures { result.now ≡ drop count bytes.now }
{
    match bytes.get(count..) {
        Some(rest) => rest,
        None => &[],
    }
}
