//! Moments, by a clock that does not go back.

use std::time::Duration;

/// Whether a moment has come, where there is one.
pub fn is_past(until: Option<Duration>, time: Duration) -> bool {
    match until {
        Some(at) => at <= time,
        None => false,
    }
}

/// The earlier of two moments, where there is one.
pub fn earlier(one: Option<Duration>, other: Option<Duration>) -> Option<Duration> {
    match (one, other) {
        (Some(one), Some(other)) => Some(one.min(other)),
        (Some(one), None) => Some(one),
        (None, other) => other,
    }
}

/// So long after a moment, where there is a time.
pub fn after(moment: Duration, time: Option<Duration>) -> Option<Duration> {
    Some(moment.saturating_add(time?))
}
