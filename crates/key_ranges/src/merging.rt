//! Spans of keys in their order, of which those that touch are one.
ghost use Rattle.std.specs.Prelude.{◌≡◌, not, true, false, IfOk, OnOk};
ghost use Rattle.std.specs.List.{prefix_len};
ghost use Rattle.store.specs.Records.{has_prefix, is_from};
ghost use Rattle.store.specs.Walks.{is_within};
ghost use Rattle.key_ranges.specs.InOrder.{first_start, hull, least_start, merged, put_by_start, wider, widest_stop, StartsNeverFall};
ghost use Rattle.key_ranges.specs.Spans.{AreSpansInOrder};
ghost use Rattle.key_ranges.specs.TableRanges.{around_all, range_of_spans};

use crate::range::KeyRange;
use crate::spans::{KeySpan, KeySpans};
use sql_types::items::Items;
use std::alloc::{AllocError, Global};
use std::cmp::Ordering;

/// Puts a span among others, none of which starts before one that stands before it, before those that do
/// not start before it.
pub(crate) fn put_by_start(spans: &mut Vec<KeySpan>, span: KeySpan) -> Result<(), AllocError>
    requires { StartsNeverFall spans.old.items }
    ensures { OnOk result (spans.new.items ≡ put_by_start span spans.old.items) }
{
    let place = place_of(spans.as_slice(), span.start.as_slice());
    spans.insert(place, span)?;
    Ok(())
}

// How many spans start before this key, of which none starts before one that stands before it.
fn place_of(spans: &[KeySpan], start: &[u8]) -> usize
    requires { StartsNeverFall spans.now }
    ensures { result ≡ prefix_len (λ span. not (is_from start.now span.start)) spans.now }
{
    spans.partition_point(
        |span: &KeySpan| -> bool
            ensures { result ≡ not (is_from start.entry.now span.now.start) }
        { comes_before(span.start.as_slice(), start) },
    )
}

// Whether a key comes before another.
fn comes_before(key: &[u8], other: &[u8]) -> bool
    ensures { result ≡ not (is_from other.now key.now) }
{
    match key.cmp(other) {
        Ordering::Less => true,
        Ordering::Equal => false,
        Ordering::Greater => false,
    }
}

/// These spans, none of which starts before one that stands before it, as one where they touch.
pub(crate) fn merged(alloc: Global, spans: Vec<KeySpan>) -> Result<Vec<KeySpan>, AllocError>
    ensures { IfOk result (λ together. together.items ≡ merged spans.items) }
{
    let mut together = Vec::new(alloc);
    let mut last: Option<KeySpan> = None;
    for span in spans {
        last = Some(match last {
            None => span,
            Some(before) if is_within(before.stop.as_slice(), span.start.as_slice()) => {
                hull(before, span)
            }
            Some(before) => {
                together.push(before)?;
                span
            }
        });
    }
    if let Some(span) = last {
        together.push(span)?;
    }
    Ok(together)
}

// One span for two, of which the second does not start before the first.
fn hull(first: KeySpan, second: KeySpan) -> KeySpan
    ensures { result ≡ hull first second }
{
    let KeySpan { start, stop } = first;
    let KeySpan {
        start: _,
        stop: other,
    } = second;
    let is_second = is_second_wider(stop.as_slice(), other.as_slice());
    KeySpan {
        start,
        stop: if is_second { other } else { stop },
    }
}

/// Spans in their order as one range, if there are any.
pub(crate) fn range_of_spans(
    alloc: Global,
    spans: Vec<KeySpan>,
) -> Result<Option<KeyRange>, AllocError>
    requires { AreSpansInOrder spans.items }
    ensures { IfOk result (λ range. range ≡ range_of_spans spans.items) }
{
    let mut spans = spans;
    if spans.len() > 1 {
        let KeySpan { start, stop } = around_all(alloc, spans.as_slice())?;
        let several = KeySpans::new(start, stop, Items::from_vec(spans));
        return Ok(Some(KeyRange::Several(several)));
    }
    match spans.pop() {
        None => Ok(None),
        Some(KeySpan { start, stop }) => Ok(Some(KeyRange::Span { start, stop })),
    }
}

// One span around all of these.
fn around_all(alloc: Global, spans: &[KeySpan]) -> Result<KeySpan, AllocError>
    ensures { IfOk result (λ around. around ≡ around_all spans.now) }
{
    let (start, stop) = match spans.split_first() {
        None => (Vec::new(alloc), Vec::new(alloc)),
        Some((first, others)) => {
            let start = Vec::from_slice(alloc, least_start(first.start.as_slice(), others))?;
            let stop = Vec::from_slice(alloc, widest_stop(first.stop.as_slice(), others))?;
            (start, stop)
        }
    };
    Ok(KeySpan {
        start: Items::from_vec(start),
        stop: Items::from_vec(stop),
    })
}

// Of a start and those of spans the one that comes first.
fn least_start<'a>(start: &'a [u8], spans: &'a [KeySpan]) -> &'a [u8]
    ensures { result.now ≡ least_start start.now spans.now }
{
    let mut least = start;
    for span in spans {
        least = first_start(least, span.start.as_slice());
    }
    least
}

// Of a stop and those of spans the one that all keys are within that are within one of them.
fn widest_stop<'a>(stop: &'a [u8], spans: &'a [KeySpan]) -> &'a [u8]
    ensures { result.now ≡ widest_stop stop.now spans.now }
{
    let mut widest = stop;
    for span in spans {
        widest = wider(widest, span.stop.as_slice());
    }
    widest
}

// Of two starts the one that comes first.
fn first_start<'a>(first: &'a [u8], second: &'a [u8]) -> &'a [u8]
    ensures { result.now ≡ first_start first.now second.now }
{
    if comes_before(second, first) {
        second
    } else {
        first
    }
}

// Of two stops the one that all keys are within that are within either.
fn wider<'a>(first: &'a [u8], second: &'a [u8]) -> &'a [u8]
    ensures { result.now ≡ wider first.now second.now }
{
    if is_second_wider(first, second) {
        second
    } else {
        first
    }
}

// Whether of two stops the second alone is one that all keys are within that are within either.
fn is_second_wider(first: &[u8], second: &[u8]) -> bool
    ensures { (result ≡ true → wider first.now second.now ≡ second.now)
        × (result ≡ false → wider first.now second.now ≡ first.now) }
{
    if begins_with(second, first) {
        return false;
    }
    begins_with(first, second) || first.cmp(second).is_lt()
}

// Whether a key begins with a stop or comes before it.
fn is_within(stop: &[u8], key: &[u8]) -> bool
    ensures { result ≡ is_within stop.now key.now }
{
    begins_with(key, stop) || key.cmp(stop).is_lt()
}

// Whether bytes begin with others.
#[tactic(auto, using(crate::proofs::Starts::begins_is))]
fn begins_with(bytes: &[u8], front: &[u8]) -> bool
    ensures { result ≡ has_prefix front.now bytes.now }
{
    bytes.starts_with(front)
}
