//! The differences between records, added to the changes of a batch.

ghost use Rattle.store.specs.Records.{Record};
ghost use Rattle.std.specs.Prelude.{◌≡◌, [], ◌∷◌, OnOk};
ghost use Rattle.stored_database.specs.Entries.{IsRecordSize};
ghost use Rattle.entry_differences.specs.Differences.{removal, put_of, differences};
ghost use Rattle.entry_differences.specs.Additions.{Adds, HaveRecordSizes};

use std::alloc::AllocError;
use std::cmp::Ordering;
use store::{Batch, Entry};

/// Adds the changes that take the records `old`, in order, to `new`, in order: a removal of each
/// that goes and a put of each that comes or is another, and none of a record in both. After an
/// error the batch may have some of the changes, and the caller drops it.
pub fn push_differences(old: &[Entry], new: &[Entry], out: &mut Batch) -> Result<(), AllocError>
    requires old { HaveRecordSizes old.now }
    requires new { HaveRecordSizes new.now }
    ensures { OnOk result (Adds (differences old.now new.now) out.old out.new) }
{
    let mut old = old;
    let mut new = new;
    while let Some((removed, later)) = old.split_first() {
        let Some((came, rest)) = new.split_first() else {
            push_removal(removed, out)?;
            old = later;
            continue;
        };
        match removed.key().cmp(came.key()) {
            Ordering::Less => {
                push_removal(removed, out)?;
                old = later;
            }
            Ordering::Equal => {
                if removed.value() != came.value() {
                    push_put(came, out)?;
                }
                old = later;
                new = rest;
            }
            Ordering::Greater => {
                push_put(came, out)?;
                new = rest;
            }
        }
    }
    push_puts(new, out)
}

// Adds a put of each record.
fn push_puts(entries: &[Entry], out: &mut Batch) -> Result<(), AllocError>
    requires { HaveRecordSizes entries.now }
    ensures { OnOk result (Adds (differences [] entries.now) out.old out.new) }
{
    for entry in entries {
        push_put(entry, out)?;
    }
    Ok(())
}

// Adds the put of a record.
fn push_put(entry: &Entry, out: &mut Batch) -> Result<(), AllocError>
    requires { IsRecordSize entry.now }
    ensures { OnOk result (Adds (put_of entry.now ∷ []) out.old out.new) }
{
    // For the proof: the list is in order.
    let _in_order = out.pieces();
    out.put(entry.key(), entry.value())
}

// Adds the removal of a record.
fn push_removal(entry: &Entry, out: &mut Batch) -> Result<(), AllocError>
    requires { IsRecordSize entry.now }
    ensures { OnOk result (Adds (removal entry.now ∷ []) out.old out.new) }
{
    // For the proof: the list is in order.
    let _in_order = out.pieces();
    out.remove(entry.key())
}
