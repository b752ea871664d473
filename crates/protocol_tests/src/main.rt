//! Vectors of two protocols, one request in a line of standard input, one answer in a line of standard output: SCRAM-SHA-256, and
//! the messages of PostgreSQL's protocol, with the labels that its clients write. Bytes and texts are in hexadecimal digits where nothing else is said; `vectors.py` writes
//! both files.
//!
//! Of SCRAM-SHA-256:
//!
//! - `code KEY MESSAGE`: HMAC's code.
//! - `derive ITERATIONS PASSWORD SALT`: the derived key.
//! - `verifier ITERATIONS PASSWORD SALT`: the verifier's text.
//! - `read TEXT`: the text of the verifier that was read, or `none`. It stands as it is here, as do texts below.
//! - `show TEXT MESSAGES PROOF`: the server's signature where the proof, 32 bytes, shows the password, or `refused`.
//! - `begin ROLE STORED FIRST`: the server's first message, or `none`. STORED is a verifier's text, or `-`.
//! - `finish STORED LAST`: the server's last message, or `refused`.
//!
//! Of messages:
//!
//! - `front LIMIT BYTES`, `start-front BYTES`: `nothing`, `whole` and a size, or `bad`.
//! - `sizes CUT BYTES`: the sizes of the messages of a stream that comes in pieces of CUT bytes, and what is left of it.
//! - `message BYTES`, `start BYTES`, `sasl BYTES`: what was read, or `malformed`, or `not text`.
//! - `row VALUES`: the bytes of DataRow, where a value is `null` or `=` and its bytes; `types NUMBERS`: of ParameterDescription.
//! - `column NAME TYPE FORMAT`: of RowDescription with one column; `report KIND SEVERITY CODE MESSAGE POSITION`: of an error or a
//!   notice; `put NAME ARGUMENTS`: of another message. `unfit` where it cannot be written.
//!
//! Of labels:
//!
//! - `labels TEXT`: `made`, the label of each item, `-` for none, and the text without them; `stays` where the text is as it was, or
//!   `plain` where that is seen by its tokens.
#![tactic(auto)]

mod exchanges;
mod labels;
mod messages;
mod printing;
mod written;

use scram::exchange::Exchange;
use std::alloc::Global;
use std::io;

fn main(rt: HostRuntime) -> io::Result<()> {
    let input = io::read_to_string(rt.alloc(), rt.stdin())?;
    let mut exchange = None;
    for line in input.lines() {
        let Some((verb, words)) = line.split_once(' ') else {
            continue;
        };
        match verb {
            "begin" => exchange = exchanges::begin(&rt, rt.alloc(), words)?,
            "finish" => exchanges::finish(&rt, rt.alloc(), exchange.as_ref(), words)?,
            _ => answer(&rt, rt.alloc(), verb, words)?,
        }
    }
    Ok(())
}

/// Answers a line that needs no exchange.
fn answer<R: Print>(rt: &R, alloc: Global, verb: &str, words: &str) -> io::Result<()> {
    match verb {
        "code" => exchanges::code(rt, alloc, words),
        "derive" => exchanges::derive(rt, alloc, words),
        "verifier" => exchanges::verifier(rt, alloc, words),
        "read" => exchanges::read(rt, alloc, words),
        "show" => exchanges::show(rt, alloc, words),
        "labels" => labels::labels(rt, alloc, words),
        _ => answer_message(rt, alloc, verb, words),
    }
}

/// Answers a line of a message.
fn answer_message<R: Print>(rt: &R, alloc: Global, verb: &str, words: &str) -> io::Result<()> {
    match verb {
        "front" => messages::front(rt, alloc, words),
        "start-front" => messages::start_front(rt, alloc, words),
        "sizes" => messages::sizes(rt, alloc, words),
        "message" => messages::message(rt, alloc, words),
        "start" => messages::start(rt, alloc, words),
        "sasl" => messages::sasl(rt, alloc, words),
        "row" => written::row(rt, alloc, words),
        "types" => written::types(rt, alloc, words),
        "column" => written::column(rt, alloc, words),
        "report" => written::report(rt, alloc, words),
        "put" => written::plain(rt, alloc, words),
        _ => println!(rt; "unknown"),
    }
}
