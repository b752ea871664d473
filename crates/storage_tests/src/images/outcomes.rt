//! How many images came to which outcome.

use crate::images::answer::ImageAnswer;
use crate::transcript::Transcript;
use kv_store::OpenFault;

/// How many images there were, how many of them were opened, and how many were refused for each reason.
#[derive(Clone, Copy)]
pub struct OutcomeCounts {
    images: u64,
    opened: u64,
    wrong_size: u64,
    not_a_database: u64,
    newer_format: u64,
    damaged: u64,
    failed: u64,
}

impl OutcomeCounts {
    /// No image.
    pub fn new() -> OutcomeCounts {
        OutcomeCounts {
            images: 0,
            opened: 0,
            wrong_size: 0,
            not_a_database: 0,
            newer_format: 0,
            damaged: 0,
            failed: 0,
        }
    }

    /// Counts an image that was answered so.
    pub fn count(&mut self, answer: &ImageAnswer) {
        let count = match answer {
            Ok(_) => &mut self.opened,
            Err(OpenFault::WrongSize) => &mut self.wrong_size,
            Err(OpenFault::NotADatabase) => &mut self.not_a_database,
            Err(OpenFault::NewerFormat(_)) => &mut self.newer_format,
            Err(OpenFault::Damaged) => &mut self.damaged,
            Err(OpenFault::Device | OpenFault::Memory) => &mut self.failed,
        };
        *count = count.wrapping_add(1);
        self.images = self.images.wrapping_add(1);
    }

    /// Tells the counts of a database's images, on a line.
    pub fn tell(&self, name: &str, out: &mut Transcript) {
        out.put(name);
        out.put(":");
        for (count, what) in [
            (self.images, " images,"),
            (self.opened, " opened,"),
            (self.wrong_size, " WrongSize,"),
            (self.not_a_database, " NotADatabase,"),
            (self.newer_format, " NewerFormat,"),
            (self.damaged, " Damaged,"),
            (self.failed, " failed\n"),
        ] {
            out.put_after_blank(count);
            out.put(what);
        }
    }
}
