//! Changes in pieces of bounded length.
ghost use Rattle.std.specs.Prelude.{◌≡◌, ◌≤◌, ◌<◌, [], Some, None, ◌∷◌, MatchOption, IsSome, IsOk, is_some, get_or, length, vec_len, IsTrue, ◌↔◌, ◌++◌, IfOk, OnOk, OnErr, option_to_list, IfNone};
ghost use Rattle.std.specs.Option.{option_copied};
ghost use Rattle.std.specs.List.{AllByRecursion};
ghost use Rattle.store.specs.Records.{IsOrdered, IsOrdered-prop, changed, entry_at, entries_where, first_from, is_from, lookup};
ghost use Rattle.store.specs.Batch.{all_changes};
ghost use Rattle.store.specs.Pieces.{AreFilled, AreFilled-prop, IsIndex, IsHome, IsSpot, IsStopIndex, from_place, puts_within};
ghost use Rattle.store.specs.Walks.{count_to};

use crate::behind::copy_pieces;
use crate::{Change, EntryRef, Piece};
use std::alloc::{AllocError, Global};

/// How many changes a piece may have: a put among them moves no more.
pub(crate) const MAX_PIECE_LENGTH: usize = 512;

/// Changes in the order of their keys, in a list of pieces none of which is empty. A key is found
/// by two binary searches, for its piece and in it. A put moves the changes of one piece at most,
/// and the list of pieces.
#[derive(Drop)]
pub(crate) struct Pieces {
    pub(crate) list: Vec<Piece>,
    // The place next to the last put, removal or search. Any will do: it is only tried first.
    last: Place,
    pub(crate) alloc: Global,
    ghost ordered: { IsOrdered (all_changes list.items) } by { IsOrdered-prop (all_changes list.items) },
    ghost filled: { AreFilled list.items } by { AreFilled-prop list.items },
}

/// Where a change stands: the index of its piece, and its own in the piece.
#[derive(Clone, Copy)]
pub struct Place {
    piece: usize,
    at: usize,
}

impl Place {
    // The first change of all.
    pub(crate) fn start() -> Place {
        Place { piece: 0, at: 0 }
    }

    // The place behind the change at this one.
    fn behind(self) -> Place {
        Place {
            piece: self.piece,
            at: self.at.saturating_add(1),
        }
    }

    // The place before the change before this one.
    fn before(self) -> Place {
        Place {
            piece: self.piece,
            at: self.at.saturating_sub(1),
        }
    }
}

impl Pieces {
    ghost use Rattle.store.specs.Records.{Record};
    ghost use Rattle.store.specs.Places.{ahead_in, IsFoundAt};

    // No changes. Nothing is allocated yet.
    pub(crate) fn new(alloc: Global) -> Pieces
        ensures { result.list.items ≡ [] }
    {
        Pieces {
            list: Vec::new(alloc),
            last: Place::start(),
            alloc,
        }
    }

    // The pieces, lent.
    pub(crate) fn as_slice(&self) -> &[Piece]
        ensures { result.now ≡ self.now.list.items }
    {
        self.list.as_slice()
    }

    // Whether there is no change.
    pub(crate) fn is_empty(&self) -> bool
        ensures { IsTrue result ↔ (all_changes self.now.list.items ≡ []) }
    {
        self.list.is_empty()
    }

    // The change of a key, or `None` where there is none.
    pub(crate) fn find(&self, key: &[u8]) -> Option<&Change>
        ensures { option_copied result ≡ entry_at key.now (all_changes self.now.list.items) }
    {
        let at = self.index(key);
        if at < self.list.len() {
            self.list[at].find(key)
        } else {
            None
        }
    }

    // The change of the least key from this one on, or `None` where there is none.
    pub(crate) fn first_from(&self, key: &[u8]) -> Option<&Change>
        ensures { option_copied result ≡ first_from key.now (all_changes self.now.list.items) }
    {
        let at = self.index(key);
        if at < self.list.len() {
            self.list[at].first_from(key)
        } else {
            None
        }
    }

    // Puts a change at its key's place, in place of the key's earlier change. The only error is
    // that an allocation failed, which leaves the changes as they were.
    pub(crate) fn put(&mut self, change: Change) -> Result<(), AllocError>
        ensures ok { OnOk result (all_changes self.new.list.items
            ≡ changed change.0 (Some change.1) (all_changes self.old.list.items)) }
        ensures err { OnErr result (all_changes self.new.list.items
            ≡ all_changes self.old.list.items) }
    {
        self.put_near(change, self.last)
    }

    // The same, where this place is tried first.
    pub(crate) fn put_near(&mut self, change: Change, tried: Place) -> Result<(), AllocError>
        ensures ok { OnOk result (all_changes self.new.list.items
            ≡ changed change.0 (Some change.1) (all_changes self.old.list.items)) }
        ensures err { OnErr result (all_changes self.new.list.items
            ≡ all_changes self.old.list.items) }
    {
        let place = self.place_of(change.key(), tried);
        if self.has_room(place) {
            return self.put_at(place, change);
        }
        self.make_room(change.key())?;
        let at = self.index(change.key());
        if at < self.list.len() {
            self.put_in(at, change)
        } else {
            self.put_behind(change)
        }
    }

    // Puts a change in place of the change of its key, which is there.
    pub(crate) fn replace(&mut self, change: Change)
        requires { IsSome (lookup change.0 (all_changes self.old.list.items)) }
        ensures { all_changes self.new.list.items
            ≡ changed change.0 (Some change.1) (all_changes self.old.list.items) }
    {
        let place = self.place_of(change.key(), self.last);
        match self.put_at(place, change) {
            Ok(()) => {}
            Err(_) => unreachable!(),
        }
        self.last = place.before();
    }

    // Takes the last change off, or `None` where there is none.
    pub(crate) fn pop(&mut self) -> Option<Change>
        ensures last { all_changes self.old.list.items
            ≡ all_changes self.new.list.items ++ option_to_list result }
        ensures none { IfNone result (all_changes self.old.list.items ≡ []) }
    {
        let len = self.list.len();
        if len == 0 {
            return None;
        }
        let change = self.list[len - 1].pop();
        if self.list[len - 1].is_empty() {
            self.list.pop();
        }
        change
    }

    // Removes the change of a key, if there is one.
    pub(crate) fn remove(&mut self, key: &[u8])
        ensures { all_changes self.new.list.items
            ≡ changed key.now None (all_changes self.old.list.items) }
    {
        self.remove_near(key, self.last);
    }

    // The same, where this place is tried first.
    pub(crate) fn remove_near(&mut self, key: &[u8], tried: Place)
        ensures { all_changes self.new.list.items
            ≡ changed key.now None (all_changes self.old.list.items) }
    {
        let place = self.place_of(key, tried);
        if place.piece >= self.list.len() {
            return;
        }
        self.last = place.before();
        self.list[place.piece].remove_at(key, place.at);
        if self.list[place.piece].is_empty() {
            self.list.remove(place.piece);
        }
    }

    // The next put, removal or search tries this place first.
    pub(crate) fn begin_at(&mut self, place: Place)
        ensures { self.new.list.items ≡ self.old.list.items }
    {
        self.last = place;
    }

    // The next put, removal or search tries the last one's place first.
    pub(crate) fn turn_back(&mut self)
        ensures { self.new.list.items ≡ self.old.list.items }
    {
        self.last = self.last.before();
    }

    // Whether a key has a change. The next put tries its place first, or the one behind it.
    pub(crate) fn holds(&mut self, key: &[u8]) -> bool
        ensures found { result ≡ is_some (lookup key.now (all_changes self.old.list.items)) }
        ensures same { self.new.list.items ≡ self.old.list.items }
    {
        let place = self.place_of(key, self.last);
        let there = self.has_key_at(key, place);
        self.last = if there { place.behind() } else { place };
        there
    }

    // The place of the first change of a key or of one after it. No search where it is the place
    // that is tried first.
    pub(crate) fn place_from(&self, key: &[u8], tried: Place) -> Place
        ensures { from_place result.piece result.at self.now.list.items
            ≡ entries_where (is_from key.now) (all_changes self.now.list.items) }
    {
        self.place_of(key, tried)
    }

    // The place of a key in the piece in which it belongs, which is the last for a key behind all
    // others. No search where it is the place that is tried first.
    pub(crate) fn place_of(&self, key: &[u8], tried: Place) -> Place
        ensures { IsSpot key.now result.piece result.at self.now.list.items }
    {
        if self.is_at(key, tried) {
            return tried;
        }
        let len = self.list.len();
        if len == 0 {
            return Place::start();
        }
        let end = &self.list[len - 1];
        if end.ends_before(key) {
            return Place {
                piece: len - 1,
                at: end.len(),
            };
        }
        let piece = self.index(key);
        let at = self.list[piece].place(key);
        Place { piece, at }
    }

    // Whether a place is a key's: its change stands there, or it is between two others.
    fn is_at(&self, key: &[u8], tried: Place) -> bool
        ensures { IsTrue result → IsSpot key.now tried.piece tried.at self.now.list.items }
    {
        if tried.piece >= self.list.len() {
            return false;
        }
        let piece = &self.list[tried.piece];
        if piece.has_key_at(key, tried.at) {
            return true;
        }
        piece.is_inner_place(key, tried.at)
    }

    // The change of a key that has this place, or `None` where there is none.
    pub(crate) fn change_at(&self, key: &[u8], place: Place) -> Option<&Change>
        requires { IsSpot key.now place.piece place.at self.now.list.items }
        ensures { option_copied result ≡ entry_at key.now (all_changes self.now.list.items) }
    {
        if place.piece >= self.list.len() {
            return None;
        }
        let piece = &self.list[place.piece];
        if piece.has_key_at(key, place.at) {
            piece.get(place.at)
        } else {
            None
        }
    }

    // Whether the change at a key's place is of the key.
    fn has_key_at(&self, key: &[u8], place: Place) -> bool
        requires { IsSpot key.now place.piece place.at self.now.list.items }
        ensures { result ≡ is_some (lookup key.now (all_changes self.now.list.items)) }
    {
        if place.piece >= self.list.len() {
            return false;
        }
        self.list[place.piece].has_key_at(key, place.at)
    }

    // Whether a place is in a piece that is not full.
    fn has_room(&self, place: Place) -> bool
        ensures { IsTrue result → place.piece < vec_len self.now.list }
    {
        match self.list.get(place.piece) {
            Some(piece) => piece.len() < MAX_PIECE_LENGTH,
            None => false,
        }
    }

    // The place behind the first change at a place or behind it that puts a value, and what it
    // puts, lent.
    pub(crate) fn step_from(&self, from: Place) -> Option<(Place, EntryRef)>
        ensures { MatchOption result
            (ahead_in self.now from ≡ [])
            (λ found. (ahead_in self.now from ≡ found.1 ∷ ahead_in self.now found.0)
            × IsFoundAt self.now found.0 found.1) }
    {
        let mut place = from;
        while place.piece < self.list.len() {
            let changes = self.list[place.piece].as_slice();
            if place.at < changes.len() {
                let change = &changes[place.at];
                place.at += 1;
                match change.value() {
                    Some(value) => {
                        let key = change.key();
                        return Some((place, EntryRef { key, value }));
                    }
                    None => {}
                }
            } else {
                place.piece += 1;
                place.at = 0;
            }
        }
        None
    }

    // The key and the value of the change before a place, or nothing in their place.
    pub(crate) fn put_before(&self, place: Place) -> (&[u8], &[u8])
        ensures { (e : Record) → IsFoundAt self.now place e
            → (result.0.now, result.1.now) ≡ e }
    {
        let Some(piece) = self.list.get(place.piece) else {
            return (b"", b"");
        };
        let Some(at) = place.at.checked_sub(1) else {
            return (b"", b"");
        };
        let Some(change) = piece.get(at) else {
            return (b"", b"");
        };
        match change.value() {
            Some(value) => (change.key(), value),
            None => (b"", b""),
        }
    }

    // How many changes from a place on, of keys within a stop, put a value, up to `most`.
    pub(crate) fn count_within(&self, from: Place, stop: &[u8], most: u64) -> u64
        ensures { result ≡ count_to most (puts_within stop.now
            (from_place from.piece from.at self.now.list.items)) }
    {
        let whole = self.stop_index(stop);
        let mut place = from;
        let mut count: u64 = 0;
        while place.piece < whole {
            if count >= most {
                return most;
            }
            count = count.saturating_add(self.list[place.piece].count_from(place.at) as u64);
            place.piece += 1;
            place.at = 0;
        }
        if place.piece >= self.list.len() {
            return count.min(most);
        }
        count
            .saturating_add(self.list[place.piece].count_within(place.at, stop) as u64)
            .min(most)
    }

    // The index of the first piece that does not end within a stop.
    fn stop_index(&self, stop: &[u8]) -> usize
        ensures index { IsStopIndex stop.now result self.now.list.items }
        ensures inside { result ≤ vec_len self.now.list }
    {
        self.list.partition_point(|piece| piece.ends_within(stop))
    }

    // Cuts the piece of a key in halves if it is full.
    fn make_room(&mut self, key: &[u8]) -> Result<(), AllocError>
        ensures { all_changes self.new.list.items ≡ all_changes self.old.list.items }
    {
        let at = self.index(key);
        if at < self.list.len() && self.list[at].len() >= MAX_PIECE_LENGTH {
            self.halve(at)?;
        }
        Ok(())
    }

    // Cuts a piece in halves.
    fn halve(&mut self, at: usize) -> Result<(), AllocError>
        requires inside { at < vec_len self.old.list }
        requires long { 2 ≤ length (get_or self.old.list.items at []) }
        ensures { all_changes self.new.list.items ≡ all_changes self.old.list.items }
    {
        self.list.reserve(1)?;
        let half = self.list[at].len() / 2;
        let behind = self.list[at].split_off(half)?;
        match self.list.insert(at + 1, behind) {
            Ok(()) => Ok(()),
            Err(_) => unreachable!(),
        }
    }

    // Puts a change that comes after all others: into the last piece, or into a new one where that
    // is full. The only error is that an allocation failed, which leaves the changes as they were.
    fn put_behind(&mut self, change: Change) -> Result<(), AllocError>
        requires { IsIndex change.0 (vec_len self.old.list) self.old.list.items }
        ensures ok { OnOk result (all_changes self.new.list.items
            ≡ changed change.0 (Some change.1) (all_changes self.old.list.items)) }
        ensures err { OnErr result (all_changes self.new.list.items
            ≡ all_changes self.old.list.items) }
    {
        let len = self.list.len();
        if len > 0 && self.list[len - 1].len() < MAX_PIECE_LENGTH {
            return self.put_in(len - 1, change);
        }
        let piece = Piece::of(self.alloc, change)?;
        self.list.push(piece)?;
        Ok(())
    }

    // Puts a change into the piece in which its key belongs. The only error is that an allocation
    // failed, which leaves the changes as they were.
    fn put_in(&mut self, at: usize, change: Change) -> Result<(), AllocError>
        requires inside { at < vec_len self.old.list }
        requires home { IsHome change.0 at self.old.list.items }
        ensures ok { OnOk result (all_changes self.new.list.items
            ≡ changed change.0 (Some change.1) (all_changes self.old.list.items)) }
        ensures err { OnErr result (all_changes self.new.list.items
            ≡ all_changes self.old.list.items) }
    {
        let place = Place {
            piece: at,
            at: self.list[at].place(change.key()),
        };
        self.put_at(place, change)
    }

    // Puts a change at its key's place. The only error is that an allocation failed, which leaves
    // the changes as they were.
    fn put_at(&mut self, place: Place, change: Change) -> Result<(), AllocError>
        requires inside { place.piece < vec_len self.old.list }
        requires spot { IsSpot change.0 place.piece place.at self.old.list.items }
        ensures ok { OnOk result (all_changes self.new.list.items
            ≡ changed change.0 (Some change.1) (all_changes self.old.list.items)) }
        ensures err { OnErr result (all_changes self.new.list.items
            ≡ all_changes self.old.list.items) }
        ensures there { IsSome (lookup change.0 (all_changes self.old.list.items)) → IsOk result }
    {
        self.last = place.behind();
        self.list[place.piece].put_at(place.at, change)?;
        Ok(())
    }

    // The index of the first piece that does not end before a key.
    fn index(&self, key: &[u8]) -> usize
        ensures index { IsIndex key.now result self.now.list.items }
        ensures inside { result ≤ vec_len self.now.list }
    {
        self.list.partition_point(|piece| piece.ends_before(key))
    }

    // A copy.
    pub(crate) fn copy(&self, alloc: Global) -> Result<Pieces, AllocError>
        ensures { IfOk result (λ copy. copy.list.items ≡ self.now.list.items) }
    {
        Ok(Pieces {
            list: copy_pieces(alloc, &self.list)?,
            last: Place::start(),
            alloc,
        })
    }
}
