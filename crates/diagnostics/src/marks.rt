//! What stands before a mark below a text.

ghost use Rattle.std.specs.Prelude.{◌≡◌, IfOk, string_bytes};
ghost use Rattle.diagnostics.specs.Marks.{spaces};

use std::alloc::{AllocError, Global};

/// As many spaces as a text has characters, and a tab for each tab.
pub(crate) fn spaces(alloc: Global, text: &[u8]) -> Result<String, AllocError>
    ensures { IfOk result (λ it. string_bytes it ≡ spaces text.now) }
{
    let mut spaces = String::new(alloc);
    for byte in text {
        if *byte == b'\t' {
            spaces.push('\t')?;
        } else if *byte < 128 || *byte >= 192 {
            spaces.push(' ')?;
        }
    }
    Ok(spaces)
}
