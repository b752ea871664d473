//! What is written.

use crate::printing::{bytes_of, number_of, print_bytes, two};
use postgres_messages::backend::{
    BackendMessage, BlockStatus, DataType, DescribedColumn, Report, Severity, ValueFormat,
};
use postgres_messages::frontend::FieldBytes;
use postgres_messages::message_writer::{MessageWriter, WriteError};
use std::alloc::Global;
use std::io;

/// Prints the bytes that are written for a message, behind a byte that goes out already.
fn print_written<R: Print>(rt: &R, alloc: Global, message: &BackendMessage<'_>) -> io::Result<()> {
    let mut out = Vec::from_slice(alloc, b"!")?;
    let mut writer = MessageWriter::new(alloc);
    match writer.put(message, &mut out) {
        Ok(()) => print!(rt; "written")?,
        Err(WriteError::Memory) => print!(rt; "memory")?,
        Err(WriteError::Unfit) => print!(rt; "unfit")?,
    }
    print_bytes(rt, alloc, &out)?;
    println!(rt; "")
}

/// The text that hexadecimal digits write, or the empty one.
fn text_of(bytes: &[u8]) -> &str {
    match str::from_utf8(bytes) {
        Ok(text) => text,
        Err(_) => "",
    }
}

/// `row VALUES`
pub fn row<R: Print>(rt: &R, alloc: Global, words: &str) -> io::Result<()> {
    let mut all = Vec::new(alloc);
    for word in words.split_whitespace() {
        if let Some(digits) = word.strip_prefix('=') {
            all.push(bytes_of(alloc, digits))?;
        } else {
            all.push(Vec::new(alloc))?;
        }
    }
    let mut values = Vec::new(alloc);
    for (i, word) in words.split_whitespace().enumerate() {
        match all.get(i) {
            Some(bytes) if word != "null" => values.push(FieldBytes::Bytes(bytes))?,
            _ => values.push(FieldBytes::Null)?,
        }
    }
    print_written(rt, alloc, &BackendMessage::DataRow(&values))
}

/// `types NUMBERS`
pub fn types<R: Print>(rt: &R, alloc: Global, words: &str) -> io::Result<()> {
    let mut numbers = Vec::new(alloc);
    for word in words.split_whitespace() {
        numbers.push(number_of(word))?;
    }
    print_written(rt, alloc, &BackendMessage::ParameterDescription(&numbers))
}

/// `column NAME TYPE FORMAT`
pub fn column<R: Print>(rt: &R, alloc: Global, words: &str) -> io::Result<()> {
    let (name, words) = two(words);
    let (data_type, format) = two(words);
    let name = bytes_of(alloc, name);
    let column = DescribedColumn {
        name: text_of(&name),
        data_type: match data_type {
            "int8" => DataType::Int8,
            "text" => DataType::Text,
            _ => DataType::Bool,
        },
        format: match format {
            "binary" => ValueFormat::Binary,
            _ => ValueFormat::Text,
        },
    };
    print_written(rt, alloc, &BackendMessage::RowDescription(&[column]))
}

/// `report KIND SEVERITY CODE MESSAGE POSITION`
pub fn report<R: Print>(rt: &R, alloc: Global, words: &str) -> io::Result<()> {
    let (kind, words) = two(words);
    let (severity, words) = two(words);
    let (code, words) = two(words);
    let (message, position) = two(words);
    let message = bytes_of(alloc, message);
    let report = Report {
        severity: severity_of(severity),
        code,
        message: text_of(&message),
        position: match number_of(position) {
            0 => None,
            place => Some(place),
        },
    };
    match kind {
        "error" => print_written(rt, alloc, &BackendMessage::ErrorResponse(report)),
        _ => print_written(rt, alloc, &BackendMessage::NoticeResponse(report)),
    }
}

fn severity_of(word: &str) -> Severity {
    match word {
        "ERROR" => Severity::Error,
        "FATAL" => Severity::Fatal,
        "PANIC" => Severity::Panic,
        "WARNING" => Severity::Warning,
        _ => Severity::Notice,
    }
}

/// `put NAME ARGUMENTS`
pub fn plain<R: Print>(rt: &R, alloc: Global, words: &str) -> io::Result<()> {
    let (name, words) = two(words);
    let (first, second) = two(words);
    match name {
        "BackendKeyData" => {
            let (process, key) = (number_of(first), number_of(second));
            print_written(rt, alloc, &BackendMessage::BackendKeyData(process, key))
        }
        "ReadyForQuery" => {
            let status = status_of(first);
            print_written(rt, alloc, &BackendMessage::ReadyForQuery(status))
        }
        _ => {
            let (first, second) = (bytes_of(alloc, first), bytes_of(alloc, second));
            print_named(rt, alloc, name, &first, &second)
        }
    }
}

fn print_named<R: Print>(
    rt: &R,
    alloc: Global,
    name: &str,
    first: &[u8],
    second: &[u8],
) -> io::Result<()> {
    match named(name, first, second) {
        Some(message) => print_written(rt, alloc, &message),
        None => println!(rt; "unknown"),
    }
}

/// The message of a name, with arguments that are bytes.
fn named<'a>(name: &str, first: &'a [u8], second: &'a [u8]) -> Option<BackendMessage<'a>> {
    match name {
        "AuthenticationOk" => Some(BackendMessage::AuthenticationOk),
        "AuthenticationSASL" => Some(BackendMessage::AuthenticationSasl(text_of(first))),
        "AuthenticationSASLContinue" => Some(BackendMessage::AuthenticationContinue(first)),
        "AuthenticationSASLFinal" => Some(BackendMessage::AuthenticationFinal(first)),
        "BindComplete" => Some(BackendMessage::BindComplete),
        "CloseComplete" => Some(BackendMessage::CloseComplete),
        "CommandComplete" => Some(BackendMessage::CommandComplete(text_of(first))),
        "EmptyQueryResponse" => Some(BackendMessage::EmptyQueryResponse),
        "NoData" => Some(BackendMessage::NoData),
        "ParameterStatus" => Some(BackendMessage::ParameterStatus(text_of(first), text_of(second))),
        "ParseComplete" => Some(BackendMessage::ParseComplete),
        "PortalSuspended" => Some(BackendMessage::PortalSuspended),
        _ => None,
    }
}

fn status_of(word: &str) -> BlockStatus {
    match word {
        "I" => BlockStatus::Idle,
        "T" => BlockStatus::InBlock,
        _ => BlockStatus::Failed,
    }
}
