//! The names of a system in memory, and what each names.

ghost use Rattle.std.specs.Prelude.{◌≡◌, ◌≢◌, ◌<◌, true, false, ℕ, List, Some, None, IfSome, IfNone, OnOk, OnErr, option_copied, position, bytes_eq, string_bytes};
ghost use Rattle.systems.specs.Entries.{content_of, is_something};

use std::alloc::{AllocError, Global};
use std::mem;

/// What a name names.
#[derive(Drop)]
pub enum Content<D> {
    /// A device, which nobody has open.
    Device(D),
    /// A device that others have open to read it.
    Shared(D),
    /// A device that this program has open.
    Open,
    /// A device that this program has open to read it.
    Reading,
    /// A device that somebody else has open.
    Taken,
    /// A text of these bytes.
    Text(Vec<u8>),
    /// Nothing any more.
    Removed,
}

/// A name, and what it names. Of two entries of one name only the first counts.
#[derive(Drop)]
pub struct NamedContent<D> {
    pub path: String,
    pub content: Content<D>,
}

// Where the first entry of this name stands. `None`: there is none.
fn find<D: Drop>(entries: &[NamedContent<D>], path: &str) -> Option<usize>
    ensures { result ≡ position (λ entry. bytes_eq (string_bytes entry.path) path.now) entries.now }
{
    entries.iter().position(|entry| entry.path.as_str() == path)
}

/// Gives the first entry of this name another content, and answers the one that it had. `None`:
/// there is no entry of this name, and nothing is changed.
pub(crate) fn exchange<D: Drop>(
    entries: &mut Vec<NamedContent<D>>,
    path: &str,
    content: Content<D>,
) -> Option<Content<D>>
    ensures old { result ≡ content_of entries.old.items path.now }
    ensures new { IfSome result (λ old. content_of entries.new.items path.now ≡ Some content) }
    ensures others { (p : List ℕ) → p ≢ path.now
        → content_of entries.new.items p ≡ content_of entries.old.items p }
    ensures absent { IfNone result (entries.new ≡ entries.old) }
{
    match find(entries.as_slice(), path) {
        Some(i) => Some(mem::replace(&mut entries[i].content, content)),
        None => None,
    }
}

/// What the first entry of this name has. `None`: there is no entry of this name.
pub(crate) fn find_content<'a, D: Drop>(
    entries: &'a [NamedContent<D>],
    path: &str,
) -> Option<&'a Content<D>>
    ensures { option_copied result ≡ content_of entries.now path.now }
{
    match find(entries, path) {
        Some(i) => Some(&entries[i].content),
        None => None,
    }
}

/// Whether there is something of this name.
pub(crate) fn is_named<D: Drop>(entries: &[NamedContent<D>], path: &str) -> bool
    ensures { result ≡ is_something (content_of entries.now path.now) }
{
    match find_content(entries, path) {
        None | Some(Content::Removed) => false,
        Some(_) => true,
    }
}

/// Whether this program has the device of this name open, to read and to write it.
pub(crate) fn is_open<D: Drop>(entries: &[NamedContent<D>], path: &str) -> bool
    ensures { result ≡ true → content_of entries.now path.now ≡ Some Content.Open }
{
    match find_content(entries, path) {
        Some(Content::Open) => true,
        _ => false,
    }
}

/// Gives a content the name `to`, of which there is nothing, in place of the open device `from`.
pub(crate) fn rename_open<D: Drop>(
    entries: &mut Vec<NamedContent<D>>,
    from: &str,
    to: &str,
    content: Content<D>,
)
    requires open { content_of entries.old.items from.now ≡ Some Content.Open }
    requires free { content_of entries.old.items to.now ≡ Some Content.Removed }
    ensures to { content_of entries.new.items to.now ≡ Some content }
    ensures from { content_of entries.new.items from.now ≡ Some Content.Removed }
    ensures others { (p : List ℕ) → p ≢ from.now → p ≢ to.now
        → content_of entries.new.items p ≡ content_of entries.old.items p }
{
    // What had the name is what is renamed.
    let _ = exchange(entries, from, Content::Removed);
    // What had the name to be given was removed before.
    let _ = exchange(entries, to, content);
}

/// Adds an entry of a name of which there is none. An error: an allocation failed.
pub(crate) fn add<D: Drop>(
    alloc: Global,
    entries: &mut Vec<NamedContent<D>>,
    path: &str,
    content: Content<D>,
) -> Result<(), AllocError>
    requires { content_of entries.old.items path.now ≡ None }
    ensures new { OnOk result (content_of entries.new.items path.now ≡ Some content) }
    ensures others { (p : List ℕ) → p ≢ path.now
        → content_of entries.new.items p ≡ content_of entries.old.items p }
    ensures kept { OnErr result (entries.new.items ≡ entries.old.items) }
{
    let entry = NamedContent {
        path: String::from_str(alloc, path)?,
        content,
    };
    entries.push(entry)?;
    Ok(())
}

/// Adds an entry of a name of which there is nothing, where it has none. An error: an allocation
/// failed.
pub(crate) fn add_removed<D: Drop>(
    alloc: Global,
    entries: &mut Vec<NamedContent<D>>,
    path: &str,
) -> Result<(), AllocError>
    requires { is_something (content_of entries.old.items path.now) ≡ false }
    ensures removed { OnOk result (content_of entries.new.items path.now ≡ Some Content.Removed) }
    ensures others { (p : List ℕ) → p ≢ path.now
        → content_of entries.new.items p ≡ content_of entries.old.items p }
    ensures kept { OnErr result (entries.new.items ≡ entries.old.items) }
{
    match find_content(entries.as_slice(), path) {
        Some(_) => Ok(()),
        None => add(alloc, entries, path, Content::Removed),
    }
}
