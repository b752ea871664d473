//! Whether a message of a server has a form in which it can be written.

ghost use Rattle.std.specs.Prelude.{◌≢◌, ◌<◌, ◌^◌, ◌↔◌, All, IsTrue, length, map};
ghost use Rattle.postgres_messages.specs.Backend.{HasReply, HasTexts};
ghost use Rattle.postgres_messages.specs.BackendViews.{viewed_column, viewed_reply, viewed_report};
ghost use Rattle.postgres_messages.specs.Fields.{AreCounted, HasNoZeroByte, HasShortValue};
ghost use Rattle.postgres_messages.specs.Views.{viewed_value};

use crate::backend::{BackendMessage, DescribedColumn, Report};
use crate::fields::FieldBytes;

/// The most items that a message counts.
const MAX_ITEMS: usize = 65_535;

/// The most bytes that a value has: its length is a positive Int32.
const MAX_VALUE: usize = 0x7FFF_FFFF;

// Whether the texts of a message have no zero byte, and its counts and the lengths of its values fit.
pub(crate) fn has_form(message: &BackendMessage<'_>) -> bool
    ensures { IsTrue result ↔ HasReply (viewed_reply message.now) }
{
    match *message {
        BackendMessage::AuthenticationSasl(mechanism) => has_no_zero(mechanism),
        BackendMessage::CommandComplete(tag) => has_no_zero(tag),
        BackendMessage::DataRow(values) => are_values(values),
        BackendMessage::ErrorResponse(report) => has_texts(&report),
        BackendMessage::NoticeResponse(report) => has_texts(&report),
        BackendMessage::ParameterDescription(types) => types.len() <= MAX_ITEMS,
        BackendMessage::ParameterStatus(name, value) => has_no_zero(name) && has_no_zero(value),
        BackendMessage::RowDescription(columns) => are_columns(columns),
        _ => true,
    }
}

// Whether a text has no zero byte.
fn has_no_zero(text: &str) -> bool
    ensures { IsTrue result ↔ HasNoZeroByte text.now }
{
    text.as_bytes().iter().all(|byte| *byte != 0)
}

fn has_texts(report: &Report<'_>) -> bool
    ensures { IsTrue result ↔ HasTexts (viewed_report report.now) }
{
    has_no_zero(report.code) && has_no_zero(report.message)
}

// Whether values are few enough, and each is short enough.
fn are_values(values: &[FieldBytes<'_>]) -> bool
    ensures { IsTrue result ↔ AreCounted HasShortValue (map viewed_value values.now) }
{
    values.len() <= MAX_ITEMS && are_short(values)
}

fn are_short(values: &[FieldBytes<'_>]) -> bool
    ensures { IsTrue result ↔ All (λ given. HasShortValue (viewed_value given)) values.now }
{
    values.iter().all(|value| is_short(value))
}

fn is_short(value: &FieldBytes<'_>) -> bool
    ensures { IsTrue result ↔ HasShortValue (viewed_value value.now) }
{
    match *value {
        FieldBytes::Null => true,
        FieldBytes::Bytes(bytes) => bytes.len() <= MAX_VALUE,
    }
}

// Whether columns are few enough, and each has a name without a zero byte.
fn are_columns(columns: &[DescribedColumn<'_>]) -> bool
    ensures { IsTrue result ↔ AreCounted (λ c. HasNoZeroByte c.name) (map viewed_column columns.now) }
{
    columns.len() <= MAX_ITEMS && have_no_zero(columns)
}

fn have_no_zero(columns: &[DescribedColumn<'_>]) -> bool
    ensures { IsTrue result ↔ All (λ shown. HasNoZeroByte (viewed_column shown).name) columns.now }
{
    columns.iter().all(|column| has_no_zero(column.name))
}
