//! Which records of a table conditions leave: the range of their keys, where the conditions bound
//! the first columns of the key, and that it changes no answer.
#![tactic(auto)]

mod around;
mod bounds;
mod box_ranges;
mod box_search;
mod boxes;
mod comparable;
mod examples;
mod guard_boxes;
mod guarded_range;
mod infallible;
mod laws;
mod left_out;
mod merging;
mod range;
mod spans;
mod voids;

pub use examples::{ranges_of_one_column, ranges_of_two_columns};
pub use guarded_range::table_range;
pub use infallible::{are_infallible, is_guard_infallible};
pub use laws::{
    look_ups_lose_nothing, outside_rows_are_not_chosen, ranges_hold_their_rows, ranges_lose_nothing,
};
pub use left_out::{
    around_loses_nothing, false_outside_of_boxes, left_out_behind_loses_nothing,
    left_out_loses_nothing, left_unchanged_is_not_chosen, merged_spans_lose_nothing,
    table_range_loses_nothing,
};
pub use range::{KeyRange, is_key_bounded, key_range, key_range_behind};
pub use spans::{KeySpan, KeySpans};
