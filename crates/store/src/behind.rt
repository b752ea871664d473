//! Pieces that are put behind all others.
ghost use Rattle.std.specs.Prelude.{◌≡◌, ◌<◌, ◌++◌, [], IsTrue, IfOk, IfSome, OnOk, OnErr, length, vec_len};
ghost use Rattle.store.specs.Records.{IsOrdered};
ghost use Rattle.store.specs.Batch.{all_changes};
ghost use Rattle.store.specs.Pieces.{AreLess, BeginWith};

use crate::Piece;
use crate::pieces::{MAX_PIECE_LENGTH, Pieces};
use sql_types::try_copy::TryCopy;
use std::alloc::{AllocError, Global};

impl Pieces {
    // Whether the changes of these pieces come behind all others, and each puts a value.
    pub(crate) fn are_later(&self, pieces: &[Piece]) -> bool
        requires { IsOrdered (all_changes pieces.now) }
        ensures { IsTrue result
            → IsOrdered (all_changes self.now.list.items ++ all_changes pieces.now) }
    {
        let Some(key) = first_key(pieces) else {
            return false;
        };
        if self.all_end_before(key) {
            return pieces.iter().all(|piece| piece.puts_each());
        }
        false
    }

    // Whether all changes come before a key.
    pub(crate) fn all_end_before(&self, key: &[u8]) -> bool
        ensures { IsTrue result → AreLess key.now (all_changes self.now.list.items) }
    {
        let len = self.list.len();
        if len == 0 {
            return true;
        }
        self.list[len - 1].ends_before(key)
    }

    // Moves later changes behind all that are there. The only error is that an allocation failed,
    // which leaves both as they were.
    pub(crate) fn move_behind(&mut self, later: &mut Pieces) -> Result<(), AllocError>
        requires { IsOrdered (all_changes self.old.list.items ++ all_changes later.old.list.items) }
        ensures ok { OnOk result (all_changes self.new.list.items
            ≡ all_changes self.old.list.items ++ all_changes later.old.list.items) }
        ensures moved { OnOk result (later.new.list.items ≡ []) }
        ensures err { OnErr result (all_changes self.new.list.items
            ≡ all_changes self.old.list.items) }
        ensures given_back { OnErr result (later.new.list.items ≡ later.old.list.items) }
    {
        if self.has_room_for(later) {
            return self.move_into_last(later);
        }
        self.list.append(&mut later.list)?;
        Ok(())
    }

    // Whether the last piece has room for all changes of others, which are in one piece.
    fn has_room_for(&self, later: &Pieces) -> bool
        ensures only { IsTrue result → length later.now.list.items ≡ 1 }
        ensures there { IsTrue result → 0 < vec_len self.now.list }
    {
        let [piece] = later.as_slice() else {
            return false;
        };
        match self.list.last() {
            Some(last) => last.len().saturating_add(piece.len()) <= MAX_PIECE_LENGTH,
            None => false,
        }
    }

    // Moves the changes of the only piece of others into the last one.
    fn move_into_last(&mut self, later: &mut Pieces) -> Result<(), AllocError>
        requires there { 0 < vec_len self.old.list }
        requires only { length later.old.list.items ≡ 1 }
        requires ordered { IsOrdered (all_changes self.old.list.items ++ all_changes later.old.list.items) }
        ensures ok { OnOk result (all_changes self.new.list.items
            ≡ all_changes self.old.list.items ++ all_changes later.old.list.items) }
        ensures moved { OnOk result (later.new.list.items ≡ []) }
        ensures err { OnErr result (all_changes self.new.list.items
            ≡ all_changes self.old.list.items) }
        ensures given_back { OnErr result (later.new.list.items ≡ later.old.list.items) }
    {
        let at = self.list.len() - 1;
        self.list[at].move_behind(&mut later.list[0])?;
        later.list.clear();
        Ok(())
    }
}

// The key of the first change of pieces, or `None` where the first piece has none.
fn first_key(pieces: &[Piece]) -> Option<&[u8]>
    ensures { IfSome result (λ key. BeginWith key.now (all_changes pieces.now)) }
{
    let [piece, ..] = pieces else {
        return None;
    };
    match piece.as_slice() {
        [change, ..] => Some(change.key()),
        [] => None,
    }
}

// Copies of pieces.
pub(crate) fn copy_pieces(alloc: Global, pieces: &[Piece]) -> Result<Vec<Piece>, AllocError>
    ensures { IfOk result (λ copies. copies.items ≡ pieces.now) }
{
    let mut copies = Vec::with_capacity(alloc, pieces.len())?;
    for piece in pieces {
        copies.push(piece.try_copy(alloc)?)?;
    }
    Ok(copies)
}
