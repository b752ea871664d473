//! Words, and what is said of each.

ghost use Rattle.std.specs.Prelude.{◌≡◌, map};
ghost use Rattle.std.specs.Option.{option_map};
ghost use Rattle.std.specs.Str.{str_eq_ignore_ascii_case};
ghost use Rattle.diagnostics.specs.Words.{entry, has_word, said_of};

/// Some words in capitals, and what is said of each of them.
pub(crate) type KeywordHint = (&'static [&'static str], &'static str);

// Whether two words are the same in any case.
fn is_same(left: &str, right: &str) -> bool
    ensures { result ≡ str_eq_ignore_ascii_case left.now right.now }
{
    left.eq_ignore_ascii_case(right)
}

// Whether one of these words is this one, in any case.
fn has_word(mut words: &[&str], word: &str) -> bool
    ensures { result ≡ has_word (map (λ w. w.now) words.entry.now) word.now }
{
    while let [first, rest @ ..] = words {
        if is_same(*first, word) {
            return true;
        }
        words = rest;
    }
    false
}

/// What the first entry with this word says.
pub(crate) fn said_of(mut table: &[KeywordHint], word: &str) -> Option<&'static str>
    ensures { option_map (λ text. text.now) result ≡ said_of (map entry table.entry.now) word.now }
{
    while let [first, rest @ ..] = table {
        if has_word(first.0, word) {
            return Some(first.1);
        }
        table = rest;
    }
    None
}
