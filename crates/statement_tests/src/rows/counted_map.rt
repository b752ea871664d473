//! A map of records that counts what its calls cost, as `Map::cost` says: one each, and a count one more for each record that it
//! counts. A bound that is proved for each map is one for this count.
ghost use Rattle.std.specs.Prelude.{◌≡◌, ◌+◌, ◌≤◌};

use store::{Entry, EntryRef, Map, StoreFault};

/// A map, and what its calls have cost so far.
#[derive(Drop)]
pub struct CountedMap<'a, M> {
    map: &'a mut M,
    spent: u64,
}

impl<'a, M: Map> CountedMap<'a, M> {
    /// A map that was not called yet.
    pub fn new(map: &'a mut M) -> CountedMap<'a, M>
        ensures { result.spent ≡ 0 }
    {
        CountedMap { map, spent: 0 }
    }

    /// What its calls have cost, up to `u64::MAX`.
    pub fn spent(&self) -> u64
        ensures { result ≡ self.now.spent }
    {
        self.spent
    }

    // Counts so much more.
    fn spend(&mut self, cost: u64)
        ensures map { self.new.map ≡ self.old.map }
        ensures spent { self.new.spent ≤ self.old.spent + cost }
    {
        self.spent = self.spent.saturating_add(cost);
    }
}

impl<'a, M: Map> Map for CountedMap<'a, M> {
    ghost use Rattle.std.proofs.Math.Nat.{le_trans, le_refl, add-le-add, add_assoc, le-add_right};
    ghost use Rattle.std.proofs.Common.{subst};
    ghost use Rattle.std.specs.Prelude.{◌≡◌, ◌+◌, ◌≤◌, ℕ};

    type Place = M::Place;

    ghost state = { λ c. M.state c.map.now };

    ghost preserved = { λ c later. M.preserved c.map.now later.map.now };

    ghost preserved_same = { λ c. M.preserved_same c.map.now };

    ghost preserved_joined = { λ c mid later first second.
        M.preserved_joined c.map.now mid.map.now later.map.now first second };

    ghost cost = { λ c later most. later.spent ≤ c.spent + most };

    ghost cost_none = { λ c. le-add_right c.spent 0 };

    ghost cost_joined = { λ c mid later first second one other. le_trans other
        (subst (λ (n : ℕ). mid.spent + second ≤ n) (add_assoc c.spent first second)
        (add-le-add one (le_refl second))) };

    ghost cost_within = { λ c later less most below spent.
        le_trans spent (add-le-add (le_refl c.spent) below) };

    ghost ahead = { λ c place records. M.ahead c.map.now place records };

    ghost ahead_within = { λ c stop place records. M.ahead_within c.map.now stop place records };

    ghost found_at = { λ c place found. M.found_at c.map.now place found };

    ghost ahead_stays = { λ c later place records kept is.
        M.ahead_stays c.map.now later.map.now place records kept is };

    ghost ahead_cut = { λ c stop place records rise is.
        M.ahead_cut c.map.now stop place records rise is };

    ghost ordered = { λ c sound. M.ordered c.map.now sound };

    ghost only_now = { λ c sound. M.only_now c.map.now sound };

    fn get(&mut self, key: &[u8], out: &mut Entry) -> Result<bool, StoreFault> {
        self.spend(1);
        self.map.get(key, out)
    }

    fn scan_from(&mut self, key: &[u8], out: &mut Entry) -> Result<bool, StoreFault> {
        self.spend(1);
        self.map.scan_from(key, out)
    }

    fn contains(&mut self, key: &[u8]) -> Result<bool, StoreFault> {
        self.spend(1);
        self.map.contains(key)
    }

    fn count_to(&mut self, start: &[u8], stop: &[u8], most: u64) -> Result<u64, StoreFault> {
        self.spend(1);
        let count = self.map.count_to(start, stop, most)?;
        self.spend(count);
        Ok(count)
    }

    fn seek(&mut self, key: &[u8]) -> Result<M::Place, StoreFault> {
        self.spend(1);
        self.map.seek(key)
    }

    fn step(&mut self, place: &mut M::Place) -> Result<bool, StoreFault> {
        self.spend(1);
        self.map.step(place)
    }

    fn step_within(&mut self, place: &mut M::Place, stop: &[u8]) -> Result<bool, StoreFault> {
        self.spend(1);
        self.map.step_within(place, stop)
    }

    fn entry<'b>(&'b self, place: &'b M::Place) -> EntryRef<'b> {
        self.map.entry(place)
    }
}
