//! How many addresses are live after each change of a trace that is made many times over.
ghost use Rattle.std.specs.Prelude.{◌≡◌, ◌+◌, ◌≤◌, ℕ, IfOk};
ghost use Rattle.std.specs.List.{All};

use super::counting::{count, flats, greatest};
use ee_check::{Change, LiveSet};
use std::alloc::{AllocError, Allocator};

/// How many addresses are live before each change of the first round, and of each later one. The
/// second round leaves the addresses that it found, and so does each after it.
#[derive(Drop)]
pub(crate) struct Counts<A: Allocator> {
    pub(crate) first: Vec<u64, A>,
    pub(crate) later: Vec<u64, A>,
    /// Of each change of a later round: for how many changes more the count stays the same.
    flats: Vec<usize, A>,
    /// The greatest of all counts.
    most: u64,
    ghost first_bounded: { All (λ count. count ≤ most) first.items },
    ghost later_bounded: { All (λ count. count ≤ most) later.items },
}

impl<A: Allocator + Copy> Counts<A> {
    ghost use Rattle.ee_plan.specs.Planner.Places.{AreRoundCounts};

    /// Makes the trace twice.
    pub(crate) fn of(alloc: A, trace: &[Change]) -> Result<Counts<A>, AllocError>
        ensures { IfOk result (AreRoundCounts trace.now) }
    {
        let mut live = LiveSet::new(alloc);
        let first = count(alloc, trace, &mut live)?;
        let later = count(alloc, trace, &mut live)?;
        let flats = flats(alloc, &later)?;
        let most = greatest(&first).max(greatest(&later));
        Ok(Counts {
            first,
            later,
            flats,
            most,
        })
    }
}

impl<A: Allocator> Counts<A> {
    ghost use Rattle.ee_plan.specs.Planner.Places.{AreRounds, count_after};

    /// How many addresses are live after so many changes in all.
    #[tactic(auto, using(crate::proofs::PlannerLemmas::Counted::one_round_back))]
    pub(crate) fn after(&self, number: u64) -> u64
        requires { AreRounds self.now }
        ensures { result ≡ count_after self.now number }
    {
        let length = self.later.len() as u64;
        if number < length {
            self.first[number as usize]
        } else if number - length < length {
            // without a division
            self.later[(number - length) as usize]
        } else {
            self.later[(number % length) as usize]
        }
    }

    /// For how many changes more as many addresses are live, by what is known.
    pub(crate) fn flat(&self, number: u64) -> u64
        requires { AreRounds self.now }
        ensures { (j : ℕ) → j ≤ result
            → count_after self.now (number + j) ≡ count_after self.now number }
    {
        let length = self.later.len() as u64;
        if number < length {
            0
        } else {
            self.flats[(number % length) as usize] as u64
        }
    }

    /// How many addresses are live at most, after whatever change of all rounds.
    #[tactic(auto, using(crate::proofs::PlannerLemmas::Counted::none_more))]
    pub(crate) fn most(&self) -> u64
        requires { AreRounds self.now }
        ensures { (n : ℕ) → count_after self.now n ≤ result }
    {
        self.most
    }
}
