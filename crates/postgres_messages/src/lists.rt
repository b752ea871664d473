//! Parts of messages behind their number.

ghost use Rattle.std.specs.Prelude.{map};
ghost use Rattle.std.specs.Int.{w16, w32};
ghost use Rattle.postgres_messages.specs.Reading.{counted_at, number_at, parts_at, value_at};
ghost use Rattle.postgres_messages.specs.Views.{GivesPart, viewed_value};

use crate::fields::{FieldBytes, u16_at, u32_at, value_at};
use crate::read_error::ReadError;
use std::alloc::Global;

// Numbers of 16 bits behind their number, and what follows them.
#[tactic(auto, unfolding(crate::specs::Reading::counted_at))]
pub(crate) fn u16s_at(alloc: Global, bytes: &[u8]) -> Result<(Vec<u16>, &[u8]), ReadError>
    ensures { GivesPart (λ x. (x.0.items, x.1.now)) result (counted_at (number_at w16) bytes.now) }
{
    let (count, rest) = u16_at(bytes)?;
    next_u16s(alloc, count, rest)
}

fn next_u16s(alloc: Global, count: u16, bytes: &[u8]) -> Result<(Vec<u16>, &[u8]), ReadError>
    ensures { GivesPart (λ x. (x.0.items, x.1.now)) result (parts_at (number_at w16) count bytes.now) }
{
    let mut numbers = Vec::new(alloc);
    let mut rest = bytes;
    for _ in 0..count {
        let (number, after) = u16_at(rest)?;
        numbers.push(number)?;
        rest = after;
    }
    Ok((numbers, rest))
}

// Numbers of 32 bits behind their number, and what follows them.
#[tactic(auto, unfolding(crate::specs::Reading::counted_at))]
pub(crate) fn u32s_at(alloc: Global, bytes: &[u8]) -> Result<(Vec<u32>, &[u8]), ReadError>
    ensures { GivesPart (λ x. (x.0.items, x.1.now)) result (counted_at (number_at w32) bytes.now) }
{
    let (count, rest) = u16_at(bytes)?;
    next_u32s(alloc, count, rest)
}

fn next_u32s(alloc: Global, count: u16, bytes: &[u8]) -> Result<(Vec<u32>, &[u8]), ReadError>
    ensures { GivesPart (λ x. (x.0.items, x.1.now)) result (parts_at (number_at w32) count bytes.now) }
{
    let mut numbers = Vec::new(alloc);
    let mut rest = bytes;
    for _ in 0..count {
        let (number, after) = u32_at(rest)?;
        numbers.push(number)?;
        rest = after;
    }
    Ok((numbers, rest))
}

// Values behind their number, and what follows them.
#[tactic(auto, unfolding(crate::specs::Reading::counted_at))]
pub(crate) fn values_at(
    alloc: Global,
    bytes: &[u8],
) -> Result<(Vec<FieldBytes<'_>>, &[u8]), ReadError>
    ensures { GivesPart (λ x. (map viewed_value x.0.items, x.1.now)) result (counted_at value_at bytes.now) }
{
    let (count, rest) = u16_at(bytes)?;
    next_values(alloc, count, rest)
}

fn next_values(
    alloc: Global,
    count: u16,
    bytes: &[u8],
) -> Result<(Vec<FieldBytes<'_>>, &[u8]), ReadError>
    ensures { GivesPart (λ x. (map viewed_value x.0.items, x.1.now)) result (parts_at value_at count bytes.now) }
{
    let mut values = Vec::new(alloc);
    let mut rest = bytes;
    for _ in 0..count {
        let (value, after) = value_at(rest)?;
        values.push(value)?;
        rest = after;
    }
    Ok((values, rest))
}
