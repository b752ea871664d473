//! What is read.

use crate::printing::{bytes_of, number_of, print_bytes, print_error, print_value, two};
use postgres_messages::front::{self, StreamFront};
use postgres_messages::frontend::{BoundValues, FrontendMessage, NamedObject, read_message};
use postgres_messages::sasl::read_sasl_initial;
use postgres_messages::start::{StartPacket, read_start};
use std::alloc::Global;
use std::io;

/// `front LIMIT BYTES`
pub fn front<R: Print>(rt: &R, alloc: Global, words: &str) -> io::Result<()> {
    let (limit, bytes) = two(words);
    let bytes = bytes_of(alloc, bytes);
    print_front(rt, front::message_front(number_of(limit), &bytes))
}

/// `start-front BYTES`
pub fn start_front<R: Print>(rt: &R, alloc: Global, words: &str) -> io::Result<()> {
    let bytes = bytes_of(alloc, words);
    print_front(rt, front::start_front(&bytes))
}

fn print_front<R: Print>(rt: &R, found: StreamFront) -> io::Result<()> {
    match found {
        StreamFront::Nothing => println!(rt; "nothing"),
        StreamFront::Whole(size) => println!(rt; "whole {size}"),
        StreamFront::Bad => println!(rt; "bad"),
    }
}

/// `sizes CUT BYTES`
pub fn sizes<R: Print>(rt: &R, alloc: Global, words: &str) -> io::Result<()> {
    let (cut, bytes) = two(words);
    let bytes = bytes_of(alloc, bytes);
    let cut = number_of(cut) as usize;
    if cut == 0 {
        return println!(rt; "no cut");
    }
    let mut held = Vec::new(alloc);
    for piece in bytes.chunks(cut) {
        held.extend_from_slice(piece)?;
        let used = print_sizes(rt, &held)?;
        if used <= held.len() {
            held.drain(..used);
        }
    }
    println!(rt; "left {}", held.len())
}

// Prints the sizes of the messages at the front of bytes, and says where what follows them begins.
fn print_sizes<R: Print>(rt: &R, bytes: &[u8]) -> io::Result<usize> {
    let mut rest = bytes;
    while let StreamFront::Whole(size) = front::message_front(front::MAX_AFTER_LOGIN, rest) {
        if size == 0 || size > rest.len() {
            break;
        }
        print!(rt; "{size} ")?;
        rest = &rest[size..];
    }
    Ok(bytes.len() - rest.len())
}

/// `message BYTES`
pub fn message<R: Print>(rt: &R, alloc: Global, words: &str) -> io::Result<()> {
    let bytes = bytes_of(alloc, words);
    match read_message(alloc, &bytes) {
        Ok(message) => {
            print_message(rt, alloc, &message)?;
            println!(rt; "")
        }
        Err(error) => print_error(rt, error),
    }
}

fn print_message<R: Print>(rt: &R, alloc: Global, message: &FrontendMessage<'_>) -> io::Result<()> {
    match message {
        FrontendMessage::Bind(portal, statement, binding) => {
            print!(rt; "Bind")?;
            print_bytes(rt, alloc, portal.as_bytes())?;
            print_bytes(rt, alloc, statement.as_bytes())?;
            print_binding(rt, alloc, binding)
        }
        FrontendMessage::Close(target) => print_target(rt, alloc, "Close", *target),
        FrontendMessage::CopyData(body) => print_body(rt, alloc, "CopyData", body),
        FrontendMessage::CopyDone(body) => print_body(rt, alloc, "CopyDone", body),
        FrontendMessage::CopyFail(body) => print_body(rt, alloc, "CopyFail", body),
        FrontendMessage::Describe(target) => print_target(rt, alloc, "Describe", *target),
        FrontendMessage::Execute(portal, rows) => {
            print_body(rt, alloc, "Execute", portal.as_bytes())?;
            print!(rt; " {rows}")
        }
        FrontendMessage::Flush => print!(rt; "Flush"),
        FrontendMessage::FunctionCall(body) => print_body(rt, alloc, "FunctionCall", body),
        FrontendMessage::Parse(name, text, types) => {
            print_body(rt, alloc, "Parse", name.as_bytes())?;
            print_bytes(rt, alloc, text.as_bytes())?;
            print_types(rt, types)
        }
        FrontendMessage::Password(body) => print_body(rt, alloc, "Password", body),
        FrontendMessage::Query(text) => print_body(rt, alloc, "Query", text.as_bytes()),
        FrontendMessage::Sync => print!(rt; "Sync"),
        FrontendMessage::Terminate => print!(rt; "Terminate"),
    }
}

fn print_body<R: Print>(rt: &R, alloc: Global, name: &str, body: &[u8]) -> io::Result<()> {
    print!(rt; "{name}")?;
    print_bytes(rt, alloc, body)
}

fn print_target<R: Print>(
    rt: &R,
    alloc: Global,
    name: &str,
    target: NamedObject<'_>,
) -> io::Result<()> {
    match target {
        NamedObject::Statement(statement) => {
            print!(rt; "{name} statement")?;
            print_bytes(rt, alloc, statement.as_bytes())
        }
        NamedObject::Portal(portal) => {
            print!(rt; "{name} portal")?;
            print_bytes(rt, alloc, portal.as_bytes())
        }
    }
}

fn print_types<R: Print>(rt: &R, types: &[u32]) -> io::Result<()> {
    for number in types {
        print!(rt; " {number}")?;
    }
    Ok(())
}

fn print_formats<R: Print>(rt: &R, formats: &[u16]) -> io::Result<()> {
    print!(rt; " formats")?;
    for format in formats {
        print!(rt; " {format}")?;
    }
    Ok(())
}

fn print_binding<R: Print>(rt: &R, alloc: Global, binding: &BoundValues<'_>) -> io::Result<()> {
    print_formats(rt, &binding.formats)?;
    print!(rt; " values")?;
    for value in &binding.values {
        print_value(rt, alloc, value)?;
    }
    print_formats(rt, &binding.result_formats)
}

/// `start BYTES`
pub fn start<R: Print>(rt: &R, alloc: Global, words: &str) -> io::Result<()> {
    let bytes = bytes_of(alloc, words);
    match read_start(alloc, &bytes) {
        Ok(packet) => print_start(rt, alloc, &packet),
        Err(error) => print_error(rt, error),
    }
}

fn print_start<R: Print>(rt: &R, alloc: Global, packet: &StartPacket<'_>) -> io::Result<()> {
    match packet {
        StartPacket::CancelRequest(process, key) => println!(rt; "CancelRequest {process} {key}"),
        StartPacket::GssEncRequest => println!(rt; "GSSENCRequest"),
        StartPacket::SslRequest => println!(rt; "SSLRequest"),
        StartPacket::Startup(minor, parameters) => {
            print!(rt; "StartupMessage 3.{minor}")?;
            for parameter in parameters {
                print_bytes(rt, alloc, parameter.name)?;
                print_bytes(rt, alloc, parameter.value)?;
            }
            println!(rt; "")
        }
        StartPacket::OtherVersion(code, _) => println!(rt; "other {code}"),
    }
}

/// `sasl BYTES`
pub fn sasl<R: Print>(rt: &R, alloc: Global, words: &str) -> io::Result<()> {
    let bytes = bytes_of(alloc, words);
    match read_sasl_initial(&bytes) {
        Ok(initial) => {
            print_body(
                rt,
                alloc,
                "SASLInitialResponse",
                initial.mechanism.as_bytes(),
            )?;
            print_value(rt, alloc, &initial.response)?;
            println!(rt; "")
        }
        Err(error) => print_error(rt, error),
    }
}
