//! Laws of journals, whatever the program does.
ghost use Rattle.std.specs.Prelude.{◌≡◌, ◌<◌, ◌⊎◌, ◌++◌, ◌∷◌, [], ℕ, List};
ghost use Rattle.journal.specs.Chain.{Region, Entry, HoldsParts, end_of};
ghost use Rattle.journal.specs.Journal.{IsJournal, NumbersUpTo, CanFollow, MayHoldParts};

/// The sectors of a journal are read in one way.
pub fn one_journal()
    ensures { (region : Region) (root room : ℕ) (es other : List Entry)
        → IsJournal region root room es → IsJournal region root room other → es ≡ other }
{}

/// While a record is written behind the last one, under a number above all numbers in the journal, a
/// stop leaves the records before it, or these and the new one whole, whatever it leaves in each
/// sector. What an earlier stop left behind the last record does not matter.
pub fn stop_during_append()
    ensures { (region image : Region) (root room top : ℕ) (es : List Entry) (new : Entry)
        → IsJournal region root room es → NumbersUpTo top region → CanFollow room top es new
        → MayHoldParts region root (end_of 0 es) new image
        → IsJournal image root room es ⊎ IsJournal image root room (es ++ new ∷ []) }
{}

/// Once all its sectors are there, the new record is the last one.
pub fn append_lasts()
    ensures { (region image : Region) (root room top : ℕ) (es : List Entry) (new : Entry)
        → IsJournal region root room es → NumbersUpTo top region → CanFollow room top es new
        → MayHoldParts region root (end_of 0 es) new image
        → HoldsParts image root (end_of 0 es) new
        → IsJournal image root room (es ++ new ∷ []) }
{}

/// Whatever a stop leaves of a write of a record, its number is above no other, of any root: so the
/// number after it was never used.
pub fn numbers_rise()
    ensures { (region image : Region) (root p top : ℕ) (new : Entry) → NumbersUpTo top region
        → top < new.number → MayHoldParts region root p new image → NumbersUpTo new.number image }
{}

/// Behind a later root the same sectors hold no record: a commit of the pages takes in all records
/// at once, and writes no sector of the journal.
pub fn later_root_has_no_records()
    ensures { (region : Region) (root next room : ℕ) (es : List Entry)
        → IsJournal region root room es → root < next → IsJournal region next room [] }
{}
