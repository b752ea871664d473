//! A part of many tests, which is the same in each run.

/// Where the numbers begin that choose a part.
const SEED: u64 = 20_160_601;

/// Takes about one of so many tests, chosen by numbers that are drawn in turn.
#[derive(Clone, Copy)]
pub struct Sampler {
    every: u64,
    number: u64,
}

impl Sampler {
    /// Takes about one of `every`, and each where that is 1.
    fn one_of(every: u64) -> Sampler {
        Sampler {
            every,
            number: SEED,
        }
    }

    /// Whether the next test is taken.
    pub fn takes_next(&mut self) -> bool {
        // Knuth's multiplier of 64 bits. The upper bits of the numbers are those that vary well.
        let product = self.number.wrapping_mul(6_364_136_223_846_793_005);
        self.number = product.wrapping_add(1_442_695_040_888_963_407);
        let every = self.every;
        every == 0 || (self.number >> 33) % every == 0
    }
}

/// Of how many devices after a stop one is stopped again, and of how many stops one is followed by openings that fail, where
/// a part is tried.
const PART_STOPPED_AGAIN: u64 = 80;

const PART_OPENED: u64 = 40;

/// Of how many tests at stops a part is taken.
#[derive(Clone, Copy)]
pub struct Parts {
    /// All tests are taken.
    all: bool,
    /// Of the devices after a stop, those on which one more commit is stopped too.
    pub second_stops: Sampler,
    /// Of the stops, those after which each call of an opening fails.
    pub openings: Sampler,
}

impl Parts {
    /// A part of the tests, or all of them.
    pub fn new(all: bool) -> Parts {
        Parts {
            all,
            second_stops: Sampler::one_of(if all { 1 } else { PART_STOPPED_AGAIN }),
            openings: Sampler::one_of(if all { 1 } else { PART_OPENED }),
        }
    }

    /// Of how many events one is taken, where it is one of so many in a part.
    pub fn step(&self, part: usize) -> usize {
        if self.all { 1 } else { part }
    }
}
