//! Several spans of keys.
ghost use Rattle.std.specs.Prelude.{◌≡◌, ◌++◌, drop, IfOk, OnOk};
ghost use Rattle.key_ranges.specs.declared.spans.KeySpan.{KeySpan};
ghost use Rattle.key_ranges.specs.Spans.{begun_at, later_start, AreOrderedSpans};

use sql_types::items::Items;
use std::alloc::{AllocError, Global};
use std::cmp::Ordering;
use std::marker::Model;

/// The keys from `start` on, up to the last that comes before `stop` or begins with it.
#[derive(Drop)]
pub struct KeySpan {
    pub start: Items<u8>,
    pub stop: Items<u8>,
}

/// Spans of keys in the order of their keys, of which no two have a key in common, and one span around
/// all of them.
#[derive(Drop)]
pub struct KeySpans {
    start: Items<u8>,
    stop: Items<u8>,
    spans: Items<KeySpan>,
}

impl Model for KeySpans {
    ghost use Rattle.key_ranges.specs.Spans.{Spans, AreOrderedSpans};

    ghost Value = { Spans };

    ghost view = { λ s. record { start = s.start; stop = s.stop; spans = s.spans } };

    ghost invariant = { λ s. AreOrderedSpans (record { start = s.start; stop = s.stop; spans = s.spans }) };
}

impl KeySpans {
    /// Spans in their order, inside the one from `start` on, up to the last key that comes before `stop` or
    /// begins with it.
    pub(crate) fn new(start: Items<u8>, stop: Items<u8>, spans: Items<KeySpan>) -> KeySpans
        requires { AreOrderedSpans (record { start = start; stop = stop; spans = spans }) }
        ensures { result ≡ record { start = start; stop = stop; spans = spans } }
    {
        KeySpans { start, stop, spans }
    }

    /// The spans, in the order of their keys.
    pub fn as_slice(&self) -> &[KeySpan]
        ensures spans { result.now ≡ self.now.spans }
        ensures inside { AreOrderedSpans self.now }
    {
        self.spans.as_slice()
    }

    /// The spans from the one of this index on, of which the first begins at this key, if its start comes
    /// before it.
    pub fn begun_at(
        &self,
        alloc: Global,
        index: usize,
        from: Items<u8>,
    ) -> Result<KeySpans, AllocError>
        ensures spans { IfOk result (λ left. left.spans ≡ begun_at from (drop index self.now.spans)) }
        ensures inside { IfOk result AreOrderedSpans }
    {
        let start = Items::from_vec(Vec::from_slice(alloc, self.start.as_slice())?);
        let stop = Items::from_vec(Vec::from_slice(alloc, self.stop.as_slice())?);
        let spans = spans_from(alloc, self.spans.as_slice(), index, from)?;
        Ok(KeySpans { start, stop, spans })
    }

    /// The start of the span around all of them.
    pub fn start(&self) -> &[u8]
        ensures start { result.now ≡ self.now.start }
        ensures inside { AreOrderedSpans self.now }
    {
        self.start.as_slice()
    }

    /// The stop of the span around all of them.
    pub fn stop(&self) -> &[u8]
        ensures stop { result.now ≡ self.now.stop }
        ensures inside { AreOrderedSpans self.now }
    {
        self.stop.as_slice()
    }
}

// Copies of the spans from the one of this index on, of which the first begins at this key, if its start
// comes before it.
fn spans_from(
    alloc: Global,
    spans: &[KeySpan],
    index: usize,
    from: Items<u8>,
) -> Result<Items<KeySpan>, AllocError>
    ensures { IfOk result (λ left. left ≡ begun_at from (drop index spans.now)) }
{
    let mut left = Items::new(alloc);
    let Some(rest) = spans.get(index..) else {
        return Ok(left);
    };
    let Some((first, others)) = rest.split_first() else {
        return Ok(left);
    };
    let start = Vec::from_slice(alloc, later_start(first.start.as_slice(), from.as_slice()))?;
    let stop = Items::from_vec(Vec::from_slice(alloc, first.stop.as_slice())?);
    left.push(KeySpan {
        start: Items::from_vec(start),
        stop,
    })?;
    push_spans(alloc, &mut left, others)?;
    Ok(left)
}

// Appends copies of spans.
fn push_spans(
    alloc: Global,
    spans: &mut Items<KeySpan>,
    others: &[KeySpan],
) -> Result<(), AllocError>
    ensures { OnOk result (spans.new ≡ spans.old ++ others.now) }
{
    for other in others {
        let start = Items::from_vec(Vec::from_slice(alloc, other.start.as_slice())?);
        let stop = Items::from_vec(Vec::from_slice(alloc, other.stop.as_slice())?);
        spans.push(KeySpan { start, stop })?;
    }
    Ok(())
}

// Of a start and a key the one that does not come before the other.
fn later_start<'a>(start: &'a [u8], from: &'a [u8]) -> &'a [u8]
    ensures { result.now ≡ later_start start.now from.now }
{
    match from.cmp(start) {
        Ordering::Less => start,
        Ordering::Equal => from,
        Ordering::Greater => from,
    }
}
