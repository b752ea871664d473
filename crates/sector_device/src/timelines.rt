//! Laws of timelines: what stops leave of runs of calls.
ghost use Rattle.std.specs.Prelude.{ℕ};
ghost use Rattle.sector_device.specs.Timeline.{Timeline, Elapses, LeavesOnly, IsPresent, Implies, read_by, nothing_left};

use std::marker::Brand;

/// Three moments of a thing that may stop, what is said of what it leaves, and what that stands
/// for. The laws below hold whatever these are.
pub trait Moments {
    ghost Left: { Type 0 };

    ghost property: { Left → Type 0 };

    ghost weaker: { Left → Type 0 };

    ghost Meaning: { Type 0 };

    ghost stands_for: { Left → Meaning → Type 0 };

    ghost meant: { Meaning → Type 0 };

    ghost first: { Timeline Left };

    ghost second: { Timeline Left };

    ghost third: { Timeline Left };
}

/// A caller of a law picks what it speaks of.
impl Moments for Brand {
    ghost Left = { Unit {0} };

    ghost property = { λ _. Unit {0} };

    ghost weaker = { λ _. Unit {0} };

    ghost Meaning = { Unit {0} };

    ghost stands_for = { λ _ _. Unit {0} };

    ghost meant = { λ _. Unit {0} };

    ghost first = { nothing_left };

    ghost second = { nothing_left };

    ghost third = { nothing_left };
}

/// Before the first call.
pub fn run_starts<M: Moments>()
    ensures { IsPresent M.first → Implies M.first.left M.property
        → LeavesOnly M.property M.first M.first }
{}

/// A run goes on by one call.
pub fn run_goes_on<M: Moments>()
    ensures { LeavesOnly M.property M.first M.second → Elapses M.second M.third
        → Implies M.third.left M.property → LeavesOnly M.property M.first M.third }
{}

/// A run of one call.
pub fn run_of_one<M: Moments>()
    ensures { IsPresent M.first → Implies M.first.left M.property → Elapses M.first M.second
        → Implies M.second.left M.property → LeavesOnly M.property M.first M.second }
{}

/// Two runs, one after the other, are a run.
pub fn runs_join<M: Moments>()
    ensures { LeavesOnly M.property M.first M.second → LeavesOnly M.property M.second M.third
        → LeavesOnly M.property M.first M.third }
{}

/// Of a run, less may be said of what it leaves.
pub fn run_weakens<M: Moments>()
    ensures { Implies M.property M.weaker → LeavesOnly M.property M.first M.second
        → LeavesOnly M.weaker M.first M.second }
{}

/// What is said of what a run leaves is said of what that stands for.
pub fn run_lifts<M: Moments>()
    ensures { ((x : M.Left) (y : M.Meaning) → M.property x → M.stands_for x y → M.meant y)
        → LeavesOnly M.property M.first M.second
        → LeavesOnly M.meant (read_by M.stands_for M.first) (read_by M.stands_for M.second) }
{}

/// A call that passes below passes above.
pub fn call_lifts<M: Moments>()
    ensures { Elapses M.first M.second
        → Elapses (read_by M.stands_for M.first) (read_by M.stands_for M.second) }
{}

/// Where no more is said of the present moment than what may be left now, that is so above, too.
pub fn present_lifts<M: Moments>()
    ensures { IsPresent M.first → IsPresent (read_by M.stands_for M.first) }
{}
