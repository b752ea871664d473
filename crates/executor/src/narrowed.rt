//! Keys, and ranges of keys, inside the range of a table.
ghost use Rattle.std.specs.Prelude.{◌≡◌, ◌++◌, ◌&&◌, ℕ, List, IfOk, IfSome, OnOk};
ghost use Rattle.store.specs.Records.{is_from};
ghost use Rattle.key_ranges.specs.Ranges.{is_in, is_in_any, AreInOrder};
ghost use Rattle.key_ranges.specs.Spans.{is_between, is_in_spans, later_start};
ghost use Rattle.executor.specs.Narrowed.{both_of_each, both_spans, is_in_range, narrower, point_between};

use key_ranges::{KeyRange, KeySpan};
use sql_types::items::Items;
use std::alloc::{AllocError, Global};
use std::cmp::Ordering;
use store::{begins_with, is_within};

/// Whether a key is in a range, if there is one.
pub(crate) fn is_in_range(range: Option<&KeyRange>, key: &[u8]) -> bool
    ensures { result ≡ is_in_range range.entry key.now }
{
    match range {
        None => true,
        Some(range) => is_in(range, key),
    }
}

// Whether a key is in a range.
fn is_in(range: &KeyRange, key: &[u8]) -> bool
    ensures { result ≡ is_in range.now key.now }
{
    match range {
        KeyRange::Point(point) => key.cmp(point.as_slice()).is_eq(),
        KeyRange::Span { start, stop } => is_between(start.as_slice(), stop.as_slice(), key),
        KeyRange::Several(spans) => is_in_spans(spans.as_slice(), key),
    }
}

// Whether a key is in one of these spans.
fn is_in_spans(spans: &[KeySpan], key: &[u8]) -> bool
    ensures { result ≡ is_in_spans spans.now key.now }
{
    for span in spans {
        if is_between(span.start.as_slice(), span.stop.as_slice(), key) {
            return true;
        }
    }
    false
}

// Whether a key is from a start on, and comes before a stop or begins with it.
fn is_between(start: &[u8], stop: &[u8], key: &[u8]) -> bool
    ensures { result ≡ is_between start.now stop.now key.now }
{
    is_from(start, key) && is_within(stop, key)
}

// Whether a key does not come before a start.
fn is_from(start: &[u8], key: &[u8]) -> bool
    ensures { result ≡ is_from start.now key.now }
{
    match key.cmp(start) {
        Ordering::Less => false,
        Ordering::Equal => true,
        Ordering::Greater => true,
    }
}

/// The keys of a range that are in another one, if there is one, as ranges in their order; or `None` where
/// the first range has several spans.
pub(crate) fn narrowed(
    alloc: Global,
    range: KeyRange,
    bounds: Option<&KeyRange>,
) -> Result<Option<Items<KeyRange>>, AllocError>
    ensures in_order { IfOk result (λ parts. IfSome parts AreInOrder) }
    ensures keys { IfOk result (λ parts. IfSome parts (λ ranges. (key : List ℕ)
        → is_in_any ranges key ≡ (is_in range key && is_in_range bounds.entry key))) }
{
    let mut parts = Items::new(alloc);
    let Some(bounds) = bounds else {
        parts.push(range)?;
        return Ok(Some(parts));
    };
    match range {
        KeyRange::Point(key) => {
            if is_in(bounds, key.as_slice()) {
                parts.push(KeyRange::Point(key))?;
            }
            Ok(Some(parts))
        }
        KeyRange::Span { start, stop } => {
            let inside = span_inside(alloc, start.as_slice(), stop.as_slice(), bounds)?;
            Ok(Some(inside))
        }
        KeyRange::Several(_) => Ok(None),
    }
}

// The keys of a span that are in a range, as ranges in their order.
fn span_inside(
    alloc: Global,
    start: &[u8],
    stop: &[u8],
    bounds: &KeyRange,
) -> Result<Items<KeyRange>, AllocError>
    ensures in_order { IfOk result AreInOrder }
    ensures keys { IfOk result (λ ranges. (key : List ℕ)
        → is_in_any ranges key ≡ (is_between start.now stop.now key && is_in bounds.now key)) }
{
    let mut parts = Items::new(alloc);
    match bounds {
        KeyRange::Point(point) => {
            push_point(alloc, &mut parts, start, stop, point.as_slice())?;
            Ok(parts)
        }
        KeyRange::Span {
            start: first,
            stop: last,
        } => {
            push_both(
                alloc,
                &mut parts,
                start,
                stop,
                first.as_slice(),
                last.as_slice(),
            )?;
            Ok(parts)
        }
        KeyRange::Several(spans) => {
            push_both_of_each(alloc, &mut parts, start, stop, spans.as_slice())?;
            Ok(parts)
        }
    }
}

// Puts to the ranges a key, if it is in a span.
fn push_point(
    alloc: Global,
    parts: &mut Items<KeyRange>,
    start: &[u8],
    stop: &[u8],
    key: &[u8],
) -> Result<(), AllocError>
    ensures { OnOk result (parts.new ≡ parts.old ++ point_between start.now stop.now key.now) }
{
    if is_between(start, stop, key) {
        let bytes = Vec::from_slice(alloc, key)?;
        parts.push(KeyRange::Point(Items::from_vec(bytes)))?;
    }
    Ok(())
}

// Puts to the ranges those of the keys that are in a span and in each of others, where there are any.
fn push_both_of_each(
    alloc: Global,
    parts: &mut Items<KeyRange>,
    start: &[u8],
    stop: &[u8],
    spans: &[KeySpan],
) -> Result<(), AllocError>
    ensures { OnOk result (parts.new ≡ parts.old ++ both_of_each start.now stop.now spans.now) }
{
    for span in spans {
        let first = span.start.as_slice();
        push_both(alloc, parts, start, stop, first, span.stop.as_slice())?;
    }
    Ok(())
}

// Puts to the ranges that of the keys that are in both of two spans, unless there are none.
fn push_both(
    alloc: Global,
    parts: &mut Items<KeyRange>,
    start: &[u8],
    stop: &[u8],
    first: &[u8],
    last: &[u8],
) -> Result<(), AllocError>
    ensures { OnOk result (parts.new ≡ parts.old
        ++ both_spans start.now stop.now first.now last.now) }
{
    let from = later_start(start, first);
    let to = narrower(stop, last);
    if is_within(to, from) {
        let start = Items::from_vec(Vec::from_slice(alloc, from)?);
        let stop = Items::from_vec(Vec::from_slice(alloc, to)?);
        parts.push(KeyRange::Span { start, stop })?;
    }
    Ok(())
}

// Of two starts the one that does not come before the other.
fn later_start<'a>(start: &'a [u8], other: &'a [u8]) -> &'a [u8]
    ensures { result.now ≡ later_start start.now other.now }
{
    if is_from(start, other) { other } else { start }
}

// Of two stops the one that only those keys are within that are within both.
fn narrower<'a>(stop: &'a [u8], other: &'a [u8]) -> &'a [u8]
    ensures { result.now ≡ narrower stop.now other.now }
{
    if begins_with(other, stop) {
        return other;
    }
    if begins_with(stop, other) || stop.cmp(other).is_lt() {
        stop
    } else {
        other
    }
}
