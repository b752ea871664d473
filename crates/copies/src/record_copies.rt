//! A copy of the records of a map.
ghost use Rattle.std.specs.Prelude.{◌≡◌, ◌≢◌, ◌∷◌, [], Err, IfErr, IfOk, false};
ghost use Rattle.store.specs.declared.fault.Fault.{Fault};
ghost use Rattle.store.specs.declared.fault.StoreFault.{StoreFault};
ghost use Rattle.store.specs.Readers.{HasRead};
ghost use Rattle.store.specs.Records.{entries_where, is_from};
ghost use Rattle.store.specs.Store.{KeepsHistory, OnlyReads};
ghost use Rattle.copies.specs.declared.fault.CopyFault.TheVariants.{Read, Write};
ghost use Rattle.copies.specs.RecordCopies.{Copies, Finishes, HasCopyCause, HasOutsized, mark, behind_mark, whole};

use crate::fault::CopyFault;
use crate::mark::{FIRST, MARK};
use crate::taking::take_records;
use sector_device::CopyProgress;
use std::alloc::Global;
use store::{Batch, Fault, Map, Store};

// The commits of a copy, at most: more than any device has room for, and fewer than there are numbers.
const MOST_COMMITS: u64 = 1 << 62;

/// The place before the first record of a map behind the mark. Damaged never comes.
pub fn first_place<M: Map>(source: &mut M) -> Result<M::Place, Fault>
    ensures preserved { M.preserved source.old source.new }
    ensures read { HasRead result (M.state source.old) (M.state source.new) }
    ensures ahead { (M.state source.old).sound
        → IfOk result (λ place. M.ahead source.new place (behind_mark (M.state source.old).map)) }
    ensures undamaged { IfErr result (λ fault. fault ≢ Fault.Damaged) }
{
    Ok(source.seek(&FIRST)?)
}

// Commits the last records of a copy, and that the mark goes.
fn finish<S: Store>(target: &mut S, batch: Batch) -> Result<(), CopyFault>
    ensures history { KeepsHistory (S.state target.old) (S.state target.new) }
    ensures refused { (fault : Fault) → result ≡ Err (Read fault)
        → (target.new ≡ target.old) × (fault ≡ Fault.Memory) }
    ensures finishes { Finishes result batch (S.state target.old) (S.state target.new) }
{
    let mut batch = batch;
    batch.remove(&MARK)?;
    target.commit(&mut batch)?;
    Ok(())
}

/// Copies the records of a map into a store that has the mark of a copy alone: those behind the mark, which in a
/// database are all. They are committed in the order of their keys, some at a time, and the mark goes with the last.
///
/// So a stop at any moment leaves records with the mark, which stand for no database, or all records and no mark.
/// After a fault the target works as before and has the mark still, unless its device failed. After each commit but the last
/// it is told how far the copy is.
///
/// `Read`: the source is the cause, or `Memory`: an allocation failed, in the copy too. `Damaged`: a record of the source
/// is of no size that a store takes. `Write`: the target is the cause: no room is left in it, an allocation
/// failed, or its device failed. `Number` never comes in a store that has had fewer than 2^63 commits. No other fault comes.
pub fn copy_records<M: Map, S: Store, W: CopyProgress>(
    alloc: Global,
    source: &mut M,
    target: &mut S,
    progress: &mut W,
) -> Result<(), CopyFault>
    ensures preserved { M.preserved source.old source.new }
    ensures reads { OnlyReads (M.state source.old) (M.state source.new) }
    ensures history { KeepsHistory (S.state target.old) (S.state target.new) }
    ensures copies { (M.state source.old).sound → (S.state target.old).sound
        → (S.state target.old).has_failed ≡ false → (S.state target.old).map ≡ mark ∷ []
        → Copies result (whole (S.state target.old).record_format (M.state source.old).map)
        (S.state target.old) (S.state target.new) }
    ensures cause { IfErr result (λ fault. HasCopyCause fault (M.state source.old)
        (M.state source.new) (S.state target.old) (S.state target.new)) }
    ensures damaged { (M.state source.old).sound → IfErr result (λ fault. fault ≡ Read Fault.Damaged
        → HasOutsized (behind_mark (M.state source.old).map)) }
    ensures works { (fault : StoreFault) → result ≡ Err (Write fault)
        → (M.state source.new).has_failed ≡ (M.state source.old).has_failed }
{
    let mut place = first_place(source)?;
    let mut bytes = 0;
    for _ in 0..MOST_COMMITS {
        let mut batch = Batch::new(alloc);
        if !take_records(source, &mut place, &mut batch, &mut bytes)? {
            return finish(target, batch);
        }
        target.commit(&mut batch)?;
        progress.tell(bytes);
    }
    Err(CopyFault::Read(Fault::Memory))
}
