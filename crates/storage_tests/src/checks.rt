//! Checks without an input: real files, a journal by the byte, and laws that nothing else calls. A line names a check, and what
//! is told is that it passed, or why it did not. The files lie where the program runs, and are removed.

mod files;
mod journal_parts;
mod journals;
mod laws;
pub mod require;

use crate::checks::require::Findings;
use crate::transcript::Transcript;
use anyhow::{Result, bail};

/// Makes a check, with a file that is removed before and after, and tells on a line what came of it.
pub fn check(rt: &HostRuntime, name: &str, out: &mut Transcript) {
    let path = "file.test";
    files::remove(rt, path);
    let outcome = outcome(rt, name, path);
    files::remove(rt, path);
    out.put_all(&[name, ": "]);
    match outcome {
        Ok(()) => out.put("passed"),
        Err(why) => out.put_display(why),
    }
    out.put("\n");
}

/// Makes the check of this name, with a file of this path, and fails where something was found.
fn outcome(rt: &HostRuntime, name: &str, path: &str) -> Result<()> {
    let mut findings = Findings::new();
    run(rt, name, path, &mut findings)?;
    findings.finish()
}

/// Makes the check of this name, with a file of this path where it needs one.
fn run(rt: &HostRuntime, name: &str, path: &str, findings: &mut Findings) -> Result<()> {
    let alloc = rt.alloc();
    match name {
        "a_file_keeps_commits" => files::keeps_commits(rt, path, findings),
        "sectors_lie_one_after_the_other_in_a_file" => files::lie_in_order(rt, path, findings),
        "a_sector_that_is_cut_short_fails" => files::fails_cut_short(rt, path, findings),
        "a_file_has_sectors_where_it_is_of_whole_pages" => files::has_whole_pages(
            rt, path, findings,
        ),
        "a_file_opened_to_be_read_is_not_written" => files::is_only_read(rt, path, findings),
        "no_file_is_found_where_there_is_none" => Ok(files::finds_none(rt, findings)),
        "a_batch_by_the_byte" => journal_parts::a_batch_by_the_byte(alloc, findings),
        "bytes_that_spell_no_batch" => journal_parts::bytes_that_spell_no_batch(alloc, findings),
        "a_sector_by_the_byte" => journal_parts::a_sector_by_the_byte(alloc, findings),
        "a_record_is_read_again" => journals::a_record_is_read_again(alloc, findings),
        "sectors_that_are_no_journal" => journals::sectors_that_are_no_journal(alloc, findings),
        "laws_of_runs" => laws::laws_of_runs(alloc),
        "laws_of_stores" => laws::laws_of_stores(alloc),
        _ => bail!("there is no such check"),
    }
}
