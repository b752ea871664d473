//! Bytes that are no frame.

use crate::servers::open_server;
use crate::stops::fault::TestFault;
use crate::stops::kinds::Kind;
use crate::stops::places::PlaceStep;
use crate::stops::tallies::Tests;
use crate::stores::new_in_memory;
use std::alloc::Global;
use std::io;
use std::io::Read;
use wire::connection::{End, serve_connection};
use wire::frame_sink::FrameSink;
use wire::input::CountedReader;

/// A length past the longest, a kind that there is not, a close with a byte too many, and a login that is not UTF-8.
const BAD_FRAMES: [&[u8]; 4] = [
    &[0, 2, 0, 1],
    &[0, 0, 0, 5, 9, 0, 0, 0, 1],
    &[0, 0, 0, 6, 3, 0, 0, 0, 1, 0x61],
    &[0, 0, 0, 6, 1, 0, 0, 0, 1, 0xff],
];

/// The frame that opens session 1 for root.
const GOOD_FRAME: &[u8] = b"\0\0\0\x09\x01\0\0\0\x01root";

/// What a bad frame is answered: a frame of 19 bytes of an answer (4) for session 0.
const ANSWER: &[u8] = b"\0\0\0\x13\x04\0\0\0\0refused 08P01\n";

/// Bytes that come in pieces of so many.
#[derive(Drop)]
struct PieceReader<'a> {
    rest: &'a [u8],
    size: usize,
}

impl Read for PieceReader<'_> {
    fn read(&mut self, buf: &mut [u8]) -> io::Result<usize> {
        let size = self.size.min(buf.len());
        self.rest.read(&mut buf[..size])
    }
}

/// Sends each bad frame, and then one that would be answered by itself, whole and byte by byte.
pub fn send_bad_frames(alloc: Global, tests: &mut Tests) {
    for (index, frame) in BAD_FRAMES.iter().enumerate() {
        tests.enter(PlaceStep::Frame(index));
        tests.count_tried(Kind::Frames);
        tests.leave(Kind::Frames, check_bad_frame(alloc, *frame));
    }
}

/// Serves a connection whose bytes are a bad frame and the good one, whole and byte by byte.
fn check_bad_frame(alloc: Global, frame: &[u8]) -> Result<(), TestFault> {
    let mut bytes = Vec::from_slice(alloc, frame)?;
    bytes.extend_from_slice(GOOD_FRAME)?;
    check_pieces(alloc, bytes.as_slice(), 1)?;
    check_pieces(alloc, bytes.as_slice(), bytes.len())
}

/// Serves a connection whose bytes come in pieces of so many, and checks its end and what is sent back.
fn check_pieces(alloc: Global, rest: &[u8], size: usize) -> Result<(), TestFault> {
    let mut written = Vec::new(alloc);
    let end = serve_pieces(alloc, PieceReader { rest, size }, &mut written)?;
    if end != End::BadFrame {
        return Err(TestFault::AnotherEnd);
    }
    if written.as_slice() != ANSWER {
        return Err(TestFault::AnotherAnswer);
    }
    Ok(())
}

/// Serves a connection over a new database. Adds what is sent back, and tells how the connection ended.
fn serve_pieces(alloc: Global, pieces: PieceReader<'_>, written: &mut Vec<u8>) -> io::Result<End> {
    let mut server = open_server(alloc, new_in_memory(alloc)?)?;
    let mut reader = CountedReader::new(pieces);
    let mut sink = FrameSink::new(alloc, written);
    Ok(serve_connection(alloc, &mut server, &mut reader, &mut sink))
}
