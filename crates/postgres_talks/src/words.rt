//! Words in any case.

ghost use Rattle.std.specs.Prelude.{◌≡◌};
ghost use Rattle.std.specs.Str.{str_eq_ignore_ascii_case};

// Whether two words are the same in any case.
pub(crate) fn is_same_word(left: &[u8], right: &[u8]) -> bool
    ensures { result ≡ str_eq_ignore_ascii_case left.now right.now }
{
    left.eq_ignore_ascii_case(right)
}
