//! Laws of the definitions, for all bytes, whether they were read or not.
ghost use Rattle.std.specs.Prelude.{◌≡◌, ℕ, List};
ghost use Rattle.store.specs.Records.{Changes};
ghost use Rattle.journal.specs.Chain.{Part, Holds};
ghost use Rattle.journal.specs.Sectors.{IsPart, sector_bytes, sector_at};
ghost use Rattle.journal.specs.Changes.{Spells};

/// A part that may stand in a journal of so many sectors is read from its own bytes.
pub fn one_part()
    ensures { (room : ℕ) (part : Part) → IsPart room part
        → sector_at room (sector_bytes part) ≡ Holds part }
{}

/// Bytes spell one batch at most, and a batch is spelled by no others.
pub fn one_batch()
    ensures batch { (bytes : List ℕ) (changes other : Changes)
        → Spells bytes changes → Spells bytes other → changes ≡ other }
    ensures bytes { (bytes other : List ℕ) (changes : Changes)
        → Spells bytes changes → Spells other changes → bytes ≡ other }
{}
