//! The bodies of the messages of a server.

ghost use Rattle.std.specs.Prelude.{◌≡◌, ◌<◌, ◌^◌, ◌++◌, ◌∷◌, [], length, map, OnOk};
ghost use Rattle.std.specs.Int.{w16, w32};
ghost use Rattle.postgres_messages.specs.Backend.{HasReply, column, position_field, reply_body, report, report_field, type_number, type_size};
ghost use Rattle.postgres_messages.specs.BackendViews.{viewed_column, viewed_reply, viewed_report};
ghost use Rattle.postgres_messages.specs.Fields.{AreCounted, HasShortValue, counted, int16, int32, string, value};
ghost use Rattle.postgres_messages.specs.Views.{viewed_value};

use crate::backend::{BackendMessage, DataType, DescribedColumn, Report};
use crate::fields::FieldBytes;
use itoa::Buffer;
use std::alloc::AllocError;

// Puts the body of a message behind bytes.
pub(crate) fn put_body(message: &BackendMessage<'_>, out: &mut Vec<u8>) -> Result<(), AllocError>
    requires { HasReply (viewed_reply message.now) }
    ensures { OnOk result (out.new.items ≡ out.old.items ++ reply_body (viewed_reply message.now)) }
{
    match *message {
        BackendMessage::AuthenticationOk => put_u32(out, 0),
        BackendMessage::AuthenticationSasl(mechanism) => put_mechanism(out, mechanism),
        BackendMessage::AuthenticationContinue(challenge) => put_data(out, 11, challenge),
        BackendMessage::AuthenticationFinal(outcome) => put_data(out, 12, outcome),
        BackendMessage::BackendKeyData(process, key) => put_two(out, process, key),
        BackendMessage::CommandComplete(tag) => put_string(out, tag),
        BackendMessage::DataRow(values) => put_values(out, values),
        BackendMessage::ErrorResponse(report) => put_report(out, &report),
        BackendMessage::NoticeResponse(report) => put_report(out, &report),
        BackendMessage::ParameterDescription(types) => put_types(out, types),
        BackendMessage::ParameterStatus(name, value) => put_both(out, name, value),
        BackendMessage::ReadyForQuery(status) => put_byte(out, status.byte()),
        BackendMessage::RowDescription(columns) => put_columns(out, columns),
        _ => Ok(()),
    }
}

fn put_byte(out: &mut Vec<u8>, byte: u8) -> Result<(), AllocError>
    ensures { OnOk result (out.new.items ≡ out.old.items ++ (byte ∷ [])) }
{
    out.push(byte)?;
    Ok(())
}

fn put_u16(out: &mut Vec<u8>, number: u16) -> Result<(), AllocError>
    ensures { OnOk result (out.new.items ≡ out.old.items ++ int16 number) }
{
    out.extend_from_slice(&number.to_be_bytes())
}

fn put_u32(out: &mut Vec<u8>, number: u32) -> Result<(), AllocError>
    ensures { OnOk result (out.new.items ≡ out.old.items ++ int32 number) }
{
    out.extend_from_slice(&number.to_be_bytes())
}

fn put_string(out: &mut Vec<u8>, text: &str) -> Result<(), AllocError>
    ensures { OnOk result (out.new.items ≡ out.old.items ++ string text.now) }
{
    out.extend_from_slice(text.as_bytes())?;
    put_byte(out, 0)
}

fn put_mechanism(out: &mut Vec<u8>, mechanism: &str) -> Result<(), AllocError>
    ensures { OnOk result (out.new.items ≡ out.old.items ++ (int32 10 ++ (string mechanism.now ++ (0 ∷ [])))) }
{
    put_u32(out, 10)?;
    put_string(out, mechanism)?;
    put_byte(out, 0)
}

// The bytes of a mechanism, behind the number that says which message it is.
fn put_data(out: &mut Vec<u8>, number: u32, mechanism: &[u8]) -> Result<(), AllocError>
    ensures { OnOk result (out.new.items ≡ out.old.items ++ (int32 number ++ mechanism.now)) }
{
    put_u32(out, number)?;
    out.extend_from_slice(mechanism)
}

fn put_two(out: &mut Vec<u8>, first: u32, second: u32) -> Result<(), AllocError>
    ensures { OnOk result (out.new.items ≡ out.old.items ++ (int32 first ++ int32 second)) }
{
    put_u32(out, first)?;
    put_u32(out, second)
}

fn put_both(out: &mut Vec<u8>, first: &str, second: &str) -> Result<(), AllocError>
    ensures { OnOk result (out.new.items ≡ out.old.items ++ (string first.now ++ string second.now)) }
{
    put_string(out, first)?;
    put_string(out, second)
}

// A value behind its length, or null.
fn put_value(out: &mut Vec<u8>, given: &FieldBytes<'_>) -> Result<(), AllocError>
    requires { HasShortValue (viewed_value given.now) }
    ensures { OnOk result (out.new.items ≡ out.old.items ++ value (viewed_value given.now)) }
{
    match *given {
        FieldBytes::Null => put_u32(out, 0xFFFF_FFFF),
        FieldBytes::Bytes(bytes) => {
            put_u32(out, bytes.len() as u32)?;
            out.extend_from_slice(bytes)
        }
    }
}

fn put_values(out: &mut Vec<u8>, values: &[FieldBytes<'_>]) -> Result<(), AllocError>
    requires { AreCounted HasShortValue (map viewed_value values.now) }
    ensures { OnOk result (out.new.items ≡ out.old.items ++ counted value (map viewed_value values.now)) }
{
    put_u16(out, values.len() as u16)?;
    for value in values {
        put_value(out, value)?;
    }
    Ok(())
}

fn put_types(out: &mut Vec<u8>, types: &[u32]) -> Result<(), AllocError>
    requires { length types.now < 2 ^ 16 }
    ensures { OnOk result (out.new.items ≡ out.old.items ++ counted int32 types.now) }
{
    put_u16(out, types.len() as u16)?;
    for number in types {
        put_u32(out, *number)?;
    }
    Ok(())
}

fn put_columns(out: &mut Vec<u8>, columns: &[DescribedColumn<'_>]) -> Result<(), AllocError>
    requires { length columns.now < 2 ^ 16 }
    ensures { OnOk result (out.new.items ≡ out.old.items ++ counted column (map viewed_column columns.now)) }
{
    put_u16(out, columns.len() as u16)?;
    for column in columns {
        put_column(out, column)?;
    }
    Ok(())
}

// A column, which is of no table and has no modifier.
fn put_column(out: &mut Vec<u8>, shown: &DescribedColumn<'_>) -> Result<(), AllocError>
    ensures { OnOk result (out.new.items ≡ out.old.items ++ column (viewed_column shown.now)) }
{
    put_string(out, shown.name)?;
    put_u32(out, 0)?;
    put_u16(out, 0)?;
    put_type(out, shown.data_type)?;
    put_u16(out, shown.format.code())
}

// A type's number and its size, and that it has no modifier.
fn put_type(out: &mut Vec<u8>, shown: DataType) -> Result<(), AllocError>
    ensures { OnOk result (out.new.items ≡ out.old.items ++ (int32 (type_number shown) ++ (int16 (type_size shown) ++ int32 0xFFFFFFFF))) }
{
    put_u32(out, shown.number())?;
    put_u16(out, shown.size())?;
    put_u32(out, 0xFFFF_FFFF)
}

fn put_report(out: &mut Vec<u8>, told: &Report<'_>) -> Result<(), AllocError>
    ensures { OnOk result (out.new.items ≡ out.old.items ++ report (viewed_report told.now)) }
{
    let severity = told.severity.text();
    put_field(out, b'S', severity)?;
    put_field(out, b'V', severity)?;
    put_field(out, b'C', told.code)?;
    put_field(out, b'M', told.message)?;
    put_position(out, told.position)?;
    put_byte(out, 0)
}

// A field of a report.
fn put_field(out: &mut Vec<u8>, kind: u8, text: &str) -> Result<(), AllocError>
    ensures { OnOk result (out.new.items ≡ out.old.items ++ report_field kind text.now) }
{
    put_byte(out, kind)?;
    put_string(out, text)
}

fn put_position(out: &mut Vec<u8>, position: Option<u32>) -> Result<(), AllocError>
    ensures { OnOk result (out.new.items ≡ out.old.items ++ position_field position) }
{
    match position {
        None => Ok(()),
        Some(place) => {
            let mut buffer = Buffer::new();
            put_field(out, b'P', buffer.format(place))
        }
    }
}
