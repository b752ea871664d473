//! What was done, as CommandComplete says it.

ghost use Rattle.std.specs.Prelude.{◌≡◌, IfOk, string_bytes};
ghost use Rattle.postgres_talks.specs.Rows.{select_tag};
ghost use Rattle.postgres_talks.specs.Tags.{counted_tag, done_tag};

use itoa::Buffer;
use sql_types::tag::Tag;
use std::alloc::{AllocError, Global};

// The tag of what was done, with how many rows it concerned.
pub(crate) fn done_tag(alloc: Global, tag: Tag, count: Option<u64>) -> Result<String, AllocError>
    ensures { IfOk result (λ text. string_bytes text ≡ done_tag tag count) }
{
    match tag {
        Tag::Insert => counted_tag(alloc, "INSERT 0", count),
        Tag::Update => counted_tag(alloc, "UPDATE", count),
        Tag::Delete => counted_tag(alloc, "DELETE", count),
        _ => String::from_str(alloc, tag.text()),
    }
}

fn counted_tag(alloc: Global, words: &str, count: Option<u64>) -> Result<String, AllocError>
    ensures { IfOk result (λ text. string_bytes text ≡ counted_tag words.now count) }
{
    let mut text = String::from_str(alloc, words)?;
    if let Some(number) = count {
        text.push_str(" ")?;
        text.push_str(Buffer::new().format(number))?;
    }
    Ok(text)
}

// The tag of so many rows.
pub(crate) fn select_tag(alloc: Global, count: usize) -> Result<String, AllocError>
    ensures { IfOk result (λ text. string_bytes text ≡ select_tag count) }
{
    let mut text = String::from_str(alloc, "SELECT ")?;
    text.push_str(Buffer::new().format(count))?;
    Ok(text)
}
