//! What devices of 64 pages hold, as files tell it.

use crate::files::text_of;
use std::alloc::Global;
use std::io;

/// What a device of 64 pages holds, the script that is asked of the server over it, and whether the openings of it are stopped
/// and fail.
pub struct DeviceImage {
    pub bytes: Vec<u8>,
    pub script: String,
    pub is_stopped: bool,
}

// Written and not derived: where a value is dropped this is one call, and not its parts one by one.
impl Drop for DeviceImage {
    fn drop(self) {
        let DeviceImage {
            bytes: _,
            script: _,
            is_stopped: _,
        } = self;
    }
}

impl DeviceImage {
    /// What the file `NAME.image` tells.
    pub fn read(rt: &HostRuntime, alloc: Global, name: &str) -> io::Result<DeviceImage> {
        let mut image = DeviceImage {
            bytes: Vec::new(alloc),
            script: String::new(alloc),
            is_stopped: false,
        };
        image.follow_file(rt, alloc, name)?;
        Ok(image)
    }

    /// Does what the file `NAME.image` says.
    fn follow_file(&mut self, rt: &HostRuntime, alloc: Global, name: &str) -> io::Result<()> {
        let text = text_of(rt, alloc, name, ".image")?;
        if let ("from", rest) = word_in(text.as_str()) {
            self.begin_with(rt, alloc, rest.lines().next().unwrap_or(""))?;
        }
        self.follow(alloc, text.as_str())
    }

    /// Begins with the bytes that the file `NAME.image` tells.
    fn begin_with(&mut self, rt: &HostRuntime, alloc: Global, name: &str) -> io::Result<()> {
        let text = text_of(rt, alloc, name, ".image")?;
        self.follow(alloc, text.as_str())?;
        self.is_stopped = false;
        self.script.clear();
        Ok(())
    }

    /// Does what lines say.
    fn follow(&mut self, alloc: Global, text: &str) -> io::Result<()> {
        for line in text.lines() {
            let (word, rest) = word_in(line);
            match word {
                "put" => put_bytes(alloc, &mut self.bytes, rest)?,
                "at" => change_bytes(alloc, &mut self.bytes, rest)?,
                "ask" => {
                    self.script.push_str(rest)?;
                    self.script.push_str("\n")?;
                }
                "stop" => self.is_stopped = true,
                _ => {}
            }
        }
        Ok(())
    }
}

/// Appends bytes, so many times.
fn put_bytes(alloc: Global, bytes: &mut Vec<u8>, rest: &str) -> io::Result<()> {
    let (times, digits) = number_in(rest);
    let more = bytes_of(alloc, digits)?;
    for _ in 0..times {
        bytes.extend_from_slice(more.as_slice())?;
    }
    Ok(())
}

/// Puts bytes in the place of those at an offset.
fn change_bytes(alloc: Global, bytes: &mut Vec<u8>, rest: &str) -> io::Result<()> {
    let (start, digits) = number_in(rest);
    let mut at = start;
    for value in bytes_of(alloc, digits)?.iter() {
        if let Some(byte) = bytes.get_mut(at) {
            *byte = *value;
        }
        at = at.saturating_add(1);
    }
    Ok(())
}

/// The word that a text begins with, and what stands behind it.
fn word_in(text: &str) -> (&str, &str) {
    text.split_once(' ').unwrap_or((text, ""))
}

/// The number that a text begins with, and what stands behind it.
fn number_in(text: &str) -> (usize, &str) {
    let (number, rest) = word_in(text);
    (number.parse().unwrap_or(0), rest)
}

/// The bytes of two hexadecimal digits each, with a blank between bytes.
fn bytes_of(alloc: Global, digits: &str) -> io::Result<Vec<u8>> {
    let mut bytes = Vec::new(alloc);
    for byte in digits.split(' ') {
        bytes.push(byte_of(byte)?)?;
    }
    Ok(bytes)
}

/// The byte of two hexadecimal digits.
fn byte_of(digits: &str) -> io::Result<u8> {
    match u8::from_str_radix(digits, 16) {
        Ok(byte) => Ok(byte),
        Err(_) => Err(io::Error::from(io::ErrorKind::InvalidData)),
    }
}
