//! Logins of clients of PostgreSQL, one thing that happens in a line of standard input, one answer in a line of standard output.
//!
//! - `client`: another client has come.
//! - `in BYTES`: these bytes came of it, in hexadecimal digits.
//! - `found TEXT`, `none`, `fails`: what was looked up, where a verifier is wanted: this text, none, or it failed for memory.
//! - `opened`: the session is open, where one is wanted.
//!
//! The answer has what is said to that, in hexadecimal digits or `-`, and what is wanted then. `expected.py` writes both files, from
//! the RFCs and PostgreSQL's manual.
#![tactic(auto)]

mod line;

use crate::line::LoginLine;
use sql_types::answer::Answer;
use sql_types::state::SqlState;
use sql_types::tag::Tag;
use sql_types::text::Text;
use std::alloc::{AllocError, Global};
use std::io;
use talks::want::{Reply, Want};

fn main(rt: HostRuntime) -> io::Result<()> {
    let input = io::read_to_string(rt.alloc(), rt.stdin())?;
    let mut client = LoginLine::new(rt.alloc())?;
    play(&rt, rt.alloc(), &mut client, &input)
}

// Does what the lines say, one after the other.
fn play<R: Print>(rt: &R, alloc: Global, client: &mut LoginLine, input: &str) -> io::Result<()> {
    for line in input.lines() {
        let (verb, words) = two(line);
        if verb == "client" {
            *client = LoginLine::new(alloc)?;
        } else {
            answer(rt, alloc, client, verb, words)?;
        }
    }
    Ok(())
}

// Two words of a line.
fn two(line: &str) -> (&str, &str) {
    match line.split_once(' ') {
        Some(parts) => parts,
        None => (line, ""),
    }
}

// Does what a line says, and writes the answer.
fn answer<R: Print>(
    rt: &R,
    alloc: Global,
    client: &mut LoginLine,
    verb: &str,
    words: &str,
) -> io::Result<()> {
    let said = match reply(alloc, verb, words)? {
        Some(reply) => client.learn(alloc, reply)?,
        None => client.take(alloc, &bytes_of(alloc, words))?,
    };
    print_bytes(rt, alloc, &said)?;
    print_want(rt, client.want())
}

// What is told to the conversation by a line, unless it has bytes of the client.
fn reply(alloc: Global, verb: &str, words: &str) -> Result<Option<Reply>, AllocError> {
    match verb {
        "found" => {
            let text = Text::from_str(alloc, words)?;
            Ok(Some(Reply::Verifier(Ok(Some(text)))))
        }
        "none" => Ok(Some(Reply::Verifier(Ok(None)))),
        "fails" => Ok(Some(Reply::Verifier(Err(SqlState::OutOfMemory)))),
        "opened" => Ok(Some(Reply::Answer(opened()))),
        _ => Ok(None),
    }
}

fn opened() -> Answer {
    Answer::Done {
        tag: Tag::Open,
        count: None,
        warning: None,
    }
}

// The bytes that hexadecimal digits write, or no bytes where they write none.
fn bytes_of(alloc: Global, digits: &str) -> Vec<u8> {
    match hex::decode(alloc, digits) {
        Ok(bytes) => bytes,
        Err(_) => Vec::new(alloc),
    }
}

fn print_bytes<R: Print>(rt: &R, alloc: Global, bytes: &[u8]) -> io::Result<()> {
    if bytes.is_empty() {
        return print!(rt; "- ");
    }
    let digits = hex::encode(alloc, bytes)?;
    print!(rt; "{} ", digits.as_str())
}

fn print_want<R: Print>(rt: &R, want: &Want) -> io::Result<()> {
    match want {
        Want::Message => println!(rt; "message"),
        Want::Open {
            session,
            login,
            entry: _,
        } => println!(rt; "open {session} {}", login.as_str()),
        Want::Verifier { table, role } => {
            println!(rt; "verifier {} {}", table.as_str(), role.as_str())
        }
        Want::End { late } => println!(rt; "end {late}"),
        Want::OutOfMemory => println!(rt; "memory"),
        _ => println!(rt; "another"),
    }
}
