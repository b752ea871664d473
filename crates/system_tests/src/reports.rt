//! The lines that tell what was run.

use crate::answers::count_answers;
use std::io;

/// Prints the line of what was run: how many answers came as expected, or the first line that differs, which is counted.
pub fn report(
    rt: &HostRuntime,
    what: &str,
    name: &str,
    expected: &str,
    printed: &str,
    differing: &mut u64,
) -> io::Result<()> {
    if expected == printed {
        let count = count_answers(printed);
        return println!(rt; "{what} {name}: {count} answers as expected");
    }
    *differing = differing.saturating_add(1);
    print!(rt; "{what} {name}: a line differs: ")?;
    print_difference(rt, expected, printed)
}

/// Prints the first line that is not the expected one, `none` where there are fewer.
fn print_difference(rt: &HostRuntime, expected: &str, printed: &str) -> io::Result<()> {
    let mut lines = printed.lines();
    for line in expected.lines() {
        let given = lines.next().unwrap_or("none");
        if given != line {
            return println!(rt; "expected {line:?}, given {given:?}");
        }
    }
    println!(rt; "more than expected is given")
}
