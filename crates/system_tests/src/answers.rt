//! The texts of answers, and how many answers a text holds.

use sql_types::answer::Answer;
use std::alloc::Global;
use std::io;
use wire::answers::write_answer;
use wire::output::CountedWriter;

/// The texts of answers, one after the other.
pub fn text_of_answers(alloc: Global, answers: &[Answer]) -> io::Result<String> {
    let text: Vec<u8> = Vec::new(alloc);
    let mut output = CountedWriter::new(text);
    for answer in answers {
        write_answer(answer, &mut output)?;
    }
    let text = output.into_writer();
    Ok(String::from_utf8_lossy(alloc, text.as_slice())?)
}

/// How many answers a script printed: `rows n` is one with the n lines behind it, and each other line is one.
pub fn count_answers(printed: &str) -> usize {
    let mut count: usize = 0;
    let mut rows_left: u64 = 0;
    for line in printed.lines() {
        if rows_left == 0 {
            rows_left = row_count(line);
            count = count.saturating_add(1);
        } else {
            rows_left -= 1;
        }
    }
    count
}

/// How many lines of rows follow an answer's first line.
fn row_count(line: &str) -> u64 {
    match line.strip_prefix("rows ") {
        Some(count) => count.parse().unwrap_or(0),
        None => 0,
    }
}
