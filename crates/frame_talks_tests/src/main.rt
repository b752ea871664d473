//! A conversation in frames, however its bytes are cut.
//!
//! The bytes of a client are given to a `FrameTalk` in two pieces, cut at every place, and what it says is compared with what it says to
//! them in one. The program writes how many bytes were said, these in hexadecimal digits, and how many cuts gave the same;
//! `expected.py` computes it from the page of the protocol.
#![tactic(auto)]

mod frame_line;

use crate::frame_line::FrameLine;
use std::alloc::{AllocError, Global};
use std::io;

/// Session 7 is opened for root and asked two statements, session 258 is opened and closed, and a frame names a length of 4.
static SENT: &[u8] = b"\0\0\0\x09\x01\0\0\0\x07root\
    \0\0\0\x0d\x02\0\0\0\x07SELECT 1\
    \0\0\0\x08\x01\0\0\x01\x02ann\
    \0\0\0\x0a\x02\0\0\0\x07BEGIN\
    \0\0\0\x05\x03\0\0\x01\x02\
    \0\0\0\x04behind it nothing is read";

fn main(rt: HostRuntime) -> io::Result<()> {
    let whole = said_in_two(rt.alloc(), SENT, &[])?;
    println!(rt; "{}", whole.len())?;
    write_bytes(&rt, &whole)?;
    let mut same = 0u32;
    for cut in 0..SENT.len() {
        let (first, second) = SENT.split_at(cut);
        let said = said_in_two(rt.alloc(), first, second)?;
        if said == whole {
            same = same.saturating_add(1);
        }
    }
    println!(rt; "{same} of {}", SENT.len())
}

// What is said to a client whose bytes come in two pieces.
fn said_in_two(alloc: Global, first: &[u8], second: &[u8]) -> Result<Vec<u8>, AllocError> {
    let mut line = FrameLine::new(alloc);
    line.take(first)?;
    line.take(second)?;
    Ok(line.into_said())
}

fn write_bytes<R: Print>(rt: &R, bytes: &[u8]) -> io::Result<()> {
    for byte in bytes {
        print!(rt; "{byte:02x}")?;
    }
    println!(rt;)
}
