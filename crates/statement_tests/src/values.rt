//! Values as they are written.

use crate::told::Told;
use sql_types::value::ValueRef;

/// Tells a value.
pub fn put_value(out: &mut Told, value: ValueRef<'_>) {
    match value {
        ValueRef::Null => out.put("NULL"),
        ValueRef::Int(number) => out.put_number("", number as i128),
        ValueRef::Text(text) => out.put_all(&["'", text, "'"]),
        ValueRef::Bool(true) => out.put("TRUE"),
        ValueRef::Bool(false) => out.put("FALSE"),
    }
}
