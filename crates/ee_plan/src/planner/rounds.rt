//! What a trace that is made many times over demands of sets of any size.
ghost use Rattle.std.specs.Prelude.{◌≡◌, ℕ, ◌*◌, ◌^◌, ◌<◌, ◌≤◌, length, IfErr, IfOk};
ghost use Rattle.ee_check.specs.Live.{KeepsWithin};
ghost use Rattle.ee_plan.specs.Planner.Places.{AreRoundCounts};
ghost use Rattle.ee_plan.specs.Planner.Plan.{IsFirstNotFitting};
ghost use Rattle.ee_plan.specs.Planner.Rounds.{IsDemand, IsRoundsFault, repeated_trace, unused_situation};

use super::counts::Counts;
use super::demand::{Demand, RoundsFault};
use super::walking::{first_over, transfers};
use ee_check::Change;
use std::alloc::{Allocator, Global};
use std::marker::Model;

/// A trace that is made so many times, one after another. It takes three numbers of memory for each
/// change of the trace, however often it is made.
///
/// Source: ours.
#[derive(Drop)]
pub struct Rounds<A: Allocator = Global> {
    trace: Vec<Change, A>,
    runs: u64,
    counts: Counts<A>,
}

impl<A: Allocator> Model for Rounds<A> {
    ghost use Rattle.std.specs.Prelude.{List, length, ◌*◌, ◌<◌, ◌^◌};
    ghost use Rattle.ee_check.specs.declared.change.Change.{Change};
    ghost use Rattle.ee_plan.specs.Planner.Places.{AreRoundCounts};
    ghost use Rattle.ee_plan.specs.Planner.Rounds.{repeated_trace};

    // the changes of all rounds
    ghost Value = { List Change };

    ghost view = { λ s. repeated_trace s.runs s.trace.items };

    ghost invariant = { λ s. AreRoundCounts s.trace.items s.counts × (s.runs * length s.trace.items < 2 ^ 63) };
}

impl<A: Allocator + Copy> Rounds<A> {
    /// The trace, so many times. Each change is made twice, whatever `runs` is.
    ///
    /// Source: ours.
    ///
    /// # Errors
    ///
    /// `TooMany` exactly where the changes of all rounds are 2^63 or more; otherwise
    /// memory can run out.
    pub fn new(alloc: A, trace: Vec<Change, A>, runs: u64) -> Result<Rounds<A>, RoundsFault>
        ensures rounds { IfOk result (λ rounds. rounds ≡ repeated_trace runs trace.items) }
        ensures fault { IfErr result (IsRoundsFault runs trace.items) }
        ensures few { runs * length trace.items < 2 ^ 63
            → IfErr result (λ fault. fault ≡ RoundsFault.Memory) }
        ensures many { 2 ^ 63 ≤ runs * length trace.items → result ≡ Err RoundsFault.TooMany }
    {
        match runs.checked_mul(trace.len() as u64) {
            Some(total) if total < 1 << 63 => {}
            _ => return Err(RoundsFault::TooMany),
        }
        let counts = Counts::of(alloc, &trace)?;
        Ok(Rounds {
            trace,
            runs,
            counts,
        })
    }
}

impl<A: Allocator> Rounds<A> {
    /// How many changes all rounds together have: fewer than 2^63.
    ///
    /// Source: ours.
    pub fn changes(&self) -> u64
        ensures changes { result ≡ length self.now }
        ensures few { result < 2 ^ 63 }
    {
        self.runs * self.trace.as_slice().len() as u64
    }

    /// What the rounds demand of a set of so many slots that starts empty: the fewest transfers of
    /// any store that appends each change and transfers by copying the live addresses, when it
    /// likes; or the first change that doesn't fit.
    ///
    /// Source: ours.
    pub fn demand(&self, slots: u32) -> Demand
        ensures demand { IsDemand (unused_situation slots) self.now result }
        // Every trace that keeps within the slots has its number of transfers, and of every other
        // one the first change that doesn't fit is named.
        ensures fits { KeepsWithin slots (unused_situation slots).live self.now
            → (n : ℕ) × (result ≡ Demand.Transfers n) }
        ensures names { (n : ℕ) → IsFirstNotFitting (unused_situation slots) self.now n
            → result ≡ Demand.NotFitting n }
    {
        demand_of(&self.trace, self.runs, &self.counts, slots as u64)
    }
}

/// What the trace, made so many times, demands of a set of so many slots.
fn demand_of<A: Allocator>(trace: &[Change], runs: u64, counts: &Counts<A>, slots: u64) -> Demand
    requires counts { AreRoundCounts trace.now counts.now }
    requires runs { runs * length trace.now < 2 ^ 63 }
    requires slots { slots < 2 ^ 32 }
    ensures { IsDemand (unused_situation slots) (repeated_trace runs trace.now) result }
{
    if trace.is_empty() {
        return Demand::Transfers(0);
    }
    let length = trace.len() as u64;
    let total = runs * length;
    // what comes after the second round has come in it
    let last = if length <= total / 2 {
        2 * length
    } else {
        total
    };
    match first_over(counts, slots, last) {
        Some(number) => Demand::NotFitting(number),
        None => Demand::Transfers(transfers(counts, slots, total)),
    }
}
