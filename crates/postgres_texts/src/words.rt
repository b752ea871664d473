//! Words in any case.

ghost use Rattle.std.specs.Prelude.{◌≡◌, map};
ghost use Rattle.std.specs.Str.{str_eq_ignore_ascii_case};
ghost use Rattle.postgres_texts.specs.Words.{is_one_of};

// Whether two words are the same in any case.
pub(crate) fn is_same(left: &[u8], right: &[u8]) -> bool
    ensures { result ≡ str_eq_ignore_ascii_case left.now right.now }
{
    left.eq_ignore_ascii_case(right)
}

// Whether one of the words is the text in any case.
pub(crate) fn is_one_of(mut words: &[&[u8]], text: &[u8]) -> bool
    ensures { result ≡ is_one_of (map (λ word. word.now) words.entry.now) text.now }
{
    while let [first, rest @ ..] = words {
        if is_same(first, text) {
            return true;
        }
        words = rest;
    }
    false
}
